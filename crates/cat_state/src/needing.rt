//! What stands in the way of a reference.

ghost use Rattle.std.specs.Prelude.{◌≡◌, None, IfOk, OnOk, is_none};
ghost use Rattle.std.specs.List.{list_any};
ghost use Rattle.cat_model.specs.Moves.{needs_contents, needs_new_name};
ghost use Rattle.cat_model.specs.Records.{expired_keys, needs_no_expired};
ghost use Rattle.cat_model.specs.Same.{same_hash};
ghost use Rattle.cat_model.specs.State.{content_at, reference_of};
ghost use Rattle.cat_state.specs.Giving.{Gives};
ghost use Rattle.cat_state.specs.Keeping.{IsHeldAt};

use crate::catalogue::Catalogue;
use crate::contents::find_content;
use crate::failure::Failure;
use cat_codes::fault::NoMemory;
use cat_codes::seq::Seq;
use cat_keymap::walk::Walk;
use cat_model::entry::Entry;
use cat_model::refusal::Refusal;
use cat_names::hash::Hash;
use cat_names::key::ContentKey;
use cat_names::ref_name::RefName;
use cat_tables::references::References;
use std::alloc::Global;

/// Refused with keys, if there are any, and the place.
pub(crate) fn needs_none(keys: Seq<ContentKey>, place: u32) -> Result<(), Failure>
    ensures { Gives result (needs_no_expired keys place) }
{
    if keys.len() == 0 {
        return Ok(());
    }
    Err(Failure::Refused(Refusal::Expired {
        keys,
        opened: place,
    }))
}

/// Whether one of the references points at the hash.
fn is_head(references: &References, hash: &Hash) -> bool
    ensures { result ≡ list_any (λ r. same_hash r.head hash.now) references.now }
{
    let mut rest = references.walk();
    while let Some(reference) = rest.next() {
        if reference.head == *hash {
            return true;
        }
    }
    false
}

impl Catalogue {
    /// No reference has the name.
    pub fn needs_new_name(&self, name: &RefName) -> Result<(), Refusal>
        ensures test { result ≡ needs_new_name self.now name.now }
        ensures absent { OnOk result (reference_of self.now.references name.now ≡ None) }
    {
        match self.references().get(name) {
            None => Ok(()),
            Some(_) => Err(Refusal::RefExists),
        }
    }

    /// Whether the catalogue doesn't hold the content of an entry.
    pub(crate) fn is_expired(&self, entry: &Entry) -> bool
        ensures { result ≡ is_none (content_at self.now.present entry.now.hash) }
    {
        find_content(self.contents(), &entry.hash).is_none()
    }

    /// The keys whose contents the catalogue doesn't hold, by one walk.
    #[tactic(auto, unfolding(cat_model::specs::Records::expired_keys))]
    fn expired_keys(&self, alloc: Global, pairs: Walk<'_>) -> Result<Seq<ContentKey>, NoMemory>
        ensures { IfOk result (λ keys. keys ≡ expired_keys self.now pairs.entry) }
    {
        let mut keys = Seq::new(alloc);
        let mut rest = pairs;
        while let Some((key, entry)) = rest.next() {
            if self.is_expired(&entry) {
                keys.push(key.clone()?)?;
            }
        }
        Ok(keys)
    }

    /// The catalogue holds every content that is visible at the commit. It is refused with the keys
    /// of those that it doesn't hold, ascending, and the place. Where a reference points at the
    /// commit its map isn't walked, since all that is visible there is held.
    #[tactic(auto, unfolding(cat_model::specs::Moves::needs_contents))]
    pub fn needs_contents(&self, alloc: Global, hash: &Hash) -> Result<(), Failure>
        ensures exact { Gives result (needs_contents self.now hash.now) }
        ensures held { OnOk result (IsHeldAt self.now hash.now) }
    {
        if is_head(self.references(), hash) {
            return Ok(());
        }
        let map = self.map_at(hash)?;
        let keys = self.expired_keys(alloc, map.walk())?;
        needs_none(keys, self.place())
    }
}
