//! What merges and transplants ask of the catalogue.

ghost use Rattle.std.specs.Prelude.{◌≡◌, ◌∷◌, [], IfOk, IsTrue, OnOk, fold, map};
ghost use Rattle.sha2.specs.Sha256.{sha256};
ghost use Rattle.cat_names.specs.Fields.{key_cmp};
ghost use Rattle.cat_merge.specs.Planned.{as_planned};
ghost use Rattle.cat_model.specs.Base.{base};
ghost use Rattle.cat_model.specs.KeySets.{key_set, with_one};
ghost use Rattle.cat_model.specs.Merges.{all_set, entries_set};
ghost use Rattle.cat_model.specs.Merges as merges;
ghost use Rattle.cat_model.specs.Records.{expired_keys};
ghost use Rattle.cat_model.specs.State.{is_known};
ghost use Rattle.cat_state.specs.Giving.{Gives};
ghost use Rattle.cat_state.specs.Keeping.{has_contents};

use crate::catalogue::Catalogue;
use crate::failure::Failure;
use crate::needing::needs_none;
use cat_codes::fault::NoMemory;
use cat_codes::seq::Seq;
use cat_merge::plan::Planned;
use cat_model::entry::Entry;
use cat_names::hash::Hash;
use cat_names::key::ContentKey;
use std::alloc::Global;
use std::collections::BTreeSet;

/// The keys of a set, ascending.
fn listed(alloc: Global, keys: BTreeSet<ContentKey>) -> Result<Seq<ContentKey>, NoMemory>
    ensures { IfOk result (λ list. list ≡ keys.keys) }
{
    let mut list = Seq::new(alloc);
    for key in keys {
        list.push(key)?;
    }
    Ok(list)
}

/// Adds a key to a set.
fn add_key(keys: &mut BTreeSet<ContentKey>, key: &ContentKey) -> Result<(), NoMemory>
    ensures { OnOk result (keys.new.keys ≡ with_one key_cmp keys.old.keys key.now) }
{
    keys.insert(key.clone()?)?;
    Ok(())
}

impl Catalogue {
    /// The merge base of two commits.
    pub fn base(&self, alloc: Global, left: &Hash, right: &Hash) -> Result<Hash, NoMemory>
        requires left { IsTrue (is_known sha256 self.now left.now) }
        requires right { IsTrue (is_known sha256 self.now right.now) }
        ensures value { IfOk result (λ h. h ≡ base self.now.commits left.now right.now) }
        ensures known { IfOk result (λ h. IsTrue (is_known sha256 self.now h)) }
    {
        self.commits().base(alloc, left, right)
    }

    /// Adds the key of a change where it sets an entry whose content the catalogue doesn't hold.
    #[tactic(auto, unfolding(cat_model::specs::Records::expired_keys))]
    fn note_expired(
        &self,
        keys: &mut BTreeSet<ContentKey>,
        key: &ContentKey,
        entry: &Option<Entry>,
    ) -> Result<(), NoMemory>
        ensures { OnOk result
            (keys.new.keys
            ≡ fold (with_one key_cmp) keys.old.keys
            (expired_keys self.now (entries_set ((key.now, entry.now) ∷ [])))) }
    {
        match entry {
            None => Ok(()),
            Some(entry) => {
                if self.is_expired(entry) {
                    add_key(keys, key)?;
                }
                Ok(())
            }
        }
    }

    /// Adds the keys that changes set whose contents the catalogue doesn't hold.
    fn note_changes(
        &self,
        keys: &mut BTreeSet<ContentKey>,
        ops: &[(ContentKey, Option<Entry>)],
    ) -> Result<(), NoMemory>
        ensures { OnOk result
            (keys.new.keys
            ≡ fold (with_one key_cmp) keys.old.keys (expired_keys self.now (entries_set ops.now))) }
    {
        for (key, entry) in ops {
            self.note_expired(keys, key, entry)?;
        }
        Ok(())
    }

    /// The keys that plans set whose contents the catalogue doesn't hold.
    fn expired_set(
        &self,
        alloc: Global,
        planned: &[Planned],
    ) -> Result<BTreeSet<ContentKey>, NoMemory>
        ensures { IfOk result
            (λ keys. keys.keys
            ≡ key_set (expired_keys self.now (all_set (map as_planned planned.now)))) }
    {
        let mut keys = BTreeSet::new(alloc);
        for one in planned {
            self.note_changes(&mut keys, one.plan.ops.as_slice())?;
        }
        Ok(keys)
    }

    /// The catalogue holds every content that plans set. It is refused with the keys of those that
    /// it doesn't hold, each once, ascending, and the place where the call began.
    #[tactic(auto, unfolding(cat_model::specs::Merges::needs_set_contents))]
    pub fn needs_set_contents(
        &self,
        alloc: Global,
        planned: &[Planned],
        opened: u32,
    ) -> Result<(), Failure>
        ensures exact { Gives result
            (merges.needs_set_contents self.now (map as_planned planned.now) opened) }
        ensures held { OnOk result
            (IsTrue (has_contents self.now.present (all_set (map as_planned planned.now)))) }
    {
        let expired = self.expired_set(alloc, planned)?;
        let keys = listed(alloc, expired)?;
        needs_none(keys, opened)
    }
}
