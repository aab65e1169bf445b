//! The commits that requests point at.

ghost use Rattle.std.specs.Prelude.{◌≡◌, IfOk, IfSome, IsTrue};
ghost use Rattle.std.specs.List.{list_all};
ghost use Rattle.std.specs.Option.{option_copied, option_map};
ghost use Rattle.sha2.specs.Sha256.{sha256};
ghost use Rattle.cat_model.specs.Chain.{back, commit_of, on_chain};
ghost use Rattle.cat_model.specs.State.{is_known};
ghost use Rattle.cat_model.specs.Refusing as refusing;
ghost use Rattle.cat_model.specs.Transplants.{are_consecutive};
ghost use Rattle.cat_state.specs.Giving.{SaysAs};
ghost use Rattle.cat_state.specs.Keeping.{IsAtCommit, IsHeldAt};

use crate::catalogue::Catalogue;
use cat_model::commit::Commit;
use cat_model::reference::{Position, Reference};
use cat_model::refusal::Refusal;
use cat_names::hash::Hash;
use cat_names::ref_name::RefName;

impl Catalogue {
    /// Whether it is a commit's hash, or the one that has no ancestor.
    pub fn is_known(&self, hash: &Hash) -> bool
        ensures { result ≡ is_known sha256 self.now hash.now }
    {
        self.commits().is_known(hash)
    }

    /// Whether the hash is on the chain of the head. Then it is known where the head is.
    #[tactic(auto, using(crate::proofs::Heads::chain_is_known))]
    pub fn is_on_chain(&self, head: &Hash, hash: &Hash) -> bool
        ensures on { result ≡ on_chain self.now.commits head.now hash.now }
        ensures known { IsTrue result
            → IsTrue (is_known sha256 self.now head.now)
            → IsTrue (is_known sha256 self.now hash.now) }
    {
        self.commits().on_chain(head, hash)
    }

    /// The member of this number of the chain of a hash. It is known where the hash is.
    #[tactic(auto, using(crate::proofs::Heads::back_is_known))]
    pub fn back(&self, hash: &Hash, n: u32) -> Option<Hash>
        ensures back { result ≡ back self.now.commits hash.now n }
        ensures known { IsTrue (is_known sha256 self.now hash.now)
            → IfSome result (λ hash. IsTrue (is_known sha256 self.now hash)) }
    {
        self.commits().back(hash, n)
    }

    /// Whether each of the hashes is on the chain of the head.
    pub fn are_on_chain(&self, head: &Hash, hashes: &[Hash]) -> bool
        ensures { result ≡ list_all (on_chain self.now.commits head.now) hashes.now }
    {
        for hash in hashes {
            if !self.is_on_chain(head, hash) {
                return false;
            }
        }
        true
    }

    /// Whether each is the hash of a commit, and each but the first has the one before for its
    /// parent.
    pub fn are_consecutive(&self, hashes: &[Hash]) -> bool
        ensures { result ≡ are_consecutive self.now.commits hashes.now }
    {
        self.commits().consecutive(hashes)
    }

    /// The commit of a hash.
    pub fn commit(&self, hash: &Hash) -> Option<&Commit>
        ensures { option_map (λ c. c.now) result ≡ commit_of self.now.commits hash.now }
    {
        self.commits().get(hash)
    }

    /// The reference of a name. It points at what is known, and what is visible there is held.
    #[tactic(auto, using(crate::proofs::Heads::named_passes))]
    pub fn named(&self, name: &RefName) -> Result<&Reference, Refusal>
        ensures named { SaysAs (λ r. r.now) result (refusing.named self.now name.now) }
        ensures known { IfOk result (λ r. IsTrue (is_known sha256 self.now r.now.head)) }
        ensures held { IfOk result (λ r. IsHeldAt self.now r.now.head) }
    {
        match self.references().get(name) {
            None => Err(Refusal::RefNotFound),
            Some(reference) => Ok(reference),
        }
    }

    /// The reference of a name that may be missing.
    pub fn perhaps_named(&self, name: &Option<RefName>) -> Result<Option<&Reference>, Refusal>
        ensures named { SaysAs option_copied result (refusing.perhaps_named self.now name.now) }
        ensures known { IfOk result (λ r. IsAtCommit self.now (option_copied r)) }
    {
        match name {
            None => Ok(None),
            Some(name) => Ok(Some(self.named(name)?)),
        }
    }

    /// The commit that a request points at: a reference's head or a hash on its chain, or a hash
    /// that is known. What a reference points at so is known if its head is.
    pub fn pointed(
        &self,
        reference: Option<&Reference>,
        hash: &Option<Hash>,
    ) -> Result<Hash, Refusal>
        ensures pointed { result
            ≡ refusing.pointed sha256 self.now (option_copied reference.entry) hash.now }
        ensures known { IsAtCommit self.now (option_copied reference.entry)
            → IfOk result (λ hash. IsTrue (is_known sha256 self.now hash)) }
    {
        let found = match (reference, hash) {
            (None, None) => None,
            (Some(reference), None) => Some(reference.head),
            (Some(reference), Some(hash)) => {
                self.is_on_chain(&reference.head, hash).then_some(*hash)
            }
            (None, Some(hash)) => self.is_known(hash).then_some(*hash),
        };
        found.ok_or(Refusal::RefNotFound)
    }

    /// The commit that a read asks for: so many commits back from the one pointed at, where its
    /// chain has so many. What a reference points at so is known if its head is.
    pub fn positioned(&self, reference: Option<&Reference>, at: &Position) -> Result<Hash, Refusal>
        ensures positioned { result
            ≡ refusing.positioned sha256 self.now (option_copied reference.entry) at.now }
        ensures known { IsAtCommit self.now (option_copied reference.entry)
            → IfOk result (λ hash. IsTrue (is_known sha256 self.now hash)) }
    {
        let hash = self.pointed(reference, &at.from.hash)?;
        match self.back(&hash, at.back) {
            None => Err(Refusal::RefNotFound),
            Some(hash) => Ok(hash),
        }
    }
}
