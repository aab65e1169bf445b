//! What is found among additions to a catalogue, or else in the catalogue.

ghost use Rattle.std.specs.Prelude.{◌≡◌, ◌≤◌, None, Some, false, IfOk, IsTrue, is_none, length};
ghost use Rattle.std.specs.Option.{option_copied, option_map};
ghost use Rattle.sha2.specs.Sha256.{sha256};
ghost use Rattle.cat_model.specs.declared.commit.Commit.{Commit};
ghost use Rattle.cat_model.specs.Chain.{commit_of, generation};
ghost use Rattle.cat_model.specs.Contents.{content_code};
ghost use Rattle.cat_model.specs.Formats.{commit_code};
ghost use Rattle.cat_model.specs.Records.{commit_bytes};
ghost use Rattle.cat_model.specs.Same.{same_hash};
ghost use Rattle.cat_model.specs.State.{content_at, is_known, no_ancestor};
ghost use Rattle.cat_state.specs.Changing.{AreNewTo, with_additions};

use crate::additions::Additions;
use crate::catalogue::Catalogue;
use crate::contents::find_content;
use cat_codes::fault::NoMemory;
use cat_codes::field::to_bytes;
use cat_model::commit::Commit;
use cat_model::content::Content;
use cat_names::hash::Hash;
use std::alloc::Global;

impl Catalogue {
    /// The content of a hash.
    #[tactic(auto, using(crate::proofs::Over::content_over))]
    fn find_content<'a>(&'a self, more: &'a Additions, hash: &Hash) -> Option<&'a Content>
        ensures { option_copied result
            ≡ content_at (with_additions self.now more.now).present hash.now }
    {
        match more.contents.get(hash) {
            None => find_content(self.contents(), hash),
            Some(content) => Some(content),
        }
    }

    /// The bytes under a hash as a content's.
    pub(crate) fn content_bytes_with(
        &self,
        alloc: Global,
        more: &Additions,
        hash: &Hash,
    ) -> Result<Option<Vec<u8>>, NoMemory>
        ensures { IfOk result
            (λ b. option_map (λ v. v.items) b
            ≡ option_map (λ c. (content_code).spell c)
            (content_at (with_additions self.now more.now).present hash.now)) }
    {
        match self.find_content(more, hash) {
            None => Ok(None),
            Some(content) => Ok(Some(to_bytes(alloc, content)?)),
        }
    }

    /// The commit of a hash.
    #[tactic(auto, using(crate::proofs::Over::commit_over))]
    fn find_commit<'a>(&'a self, more: &'a Additions, hash: &Hash) -> Option<&'a Commit>
        ensures { option_map (λ c. c.now) result
            ≡ commit_of (with_additions self.now more.now).commits hash.now }
    {
        match more.commits.get(hash) {
            None => self.commits().get(hash),
            Some(commit) => Some(commit),
        }
    }

    /// The bytes under a hash as a commit's.
    #[tactic(auto, unfolding(cat_model::specs::Records::commit_bytes))]
    pub(crate) fn commit_bytes_with(
        &self,
        alloc: Global,
        more: &Additions,
        hash: &Hash,
    ) -> Result<Option<Vec<u8>>, NoMemory>
        ensures bytes { IfOk result
            (λ b. option_map (λ v. v.items) b
            ≡ commit_bytes sha256 (with_additions self.now more.now) hash.now) }
        ensures absent { IfOk result
            (λ b. IsTrue (is_none b)
            → commit_of (with_additions self.now more.now).commits hash.now ≡ None) }
        ensures below { IfOk result
            (λ b. IsTrue (is_none b) → same_hash (no_ancestor sha256) hash.now ≡ false) }
        ensures known { IfOk result
            (λ b. is_none b ≡ false
            → IsTrue (is_known sha256 (with_additions self.now more.now) hash.now)) }
        ensures there { IfOk result
            (λ b. (c : Commit) → (commit_code).Fits c
            → option_map (λ v. v.items) b ≡ Some ((commit_code).spell c)
            → commit_of (with_additions self.now more.now).commits hash.now ≡ Some c) }
    {
        if let Some(commit) = self.find_commit(more, hash) {
            return Ok(Some(to_bytes(alloc, commit)?));
        }
        if Hash::none() == *hash {
            return Ok(Some(Vec::from_slice(alloc, b"empty")?));
        }
        Ok(None)
    }

    /// The generation of a hash; 0 for the one that has no ancestor, and for one that isn't known.
    pub(crate) fn generation_with(&self, more: &Additions, hash: &Hash) -> u64
        requires { AreNewTo self.now more.now }
        ensures value { result ≡ generation (with_additions self.now more.now).commits hash.now }
        ensures bound { result ≤ length (with_additions self.now more.now).commits }
    {
        match self.find_commit(more, hash) {
            None => 0,
            Some(commit) => commit.generation,
        }
    }
}
