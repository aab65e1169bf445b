//! Sets of hashes, and what maps add to them.

ghost use Rattle.std.specs.Prelude.{◌≡◌, ◌&&◌, [], ◌∷◌, false, IfOk, OnOk, OnErr, is_some, length, not};
ghost use Rattle.std.specs.List.{IsDistinct};
ghost use Rattle.cat_names.specs.declared.hash.Hash.{Hash};
ghost use Rattle.cat_model.specs.Base.{is_among};
ghost use Rattle.cat_model.specs.Same.{same_hash};
ghost use Rattle.cat_keymap.specs.MapsAt.{map_at};
ghost use Rattle.cat_tables.specs.Tables.{value_of};
ghost use Rattle.cat_mark.specs.Marks.{AddsAll, AddsSome, at_key, at_keys, found_map, hashes, is_marked};

use cat_codes::fault::NoMemory;
use cat_keymap::key_map::KeyMap;
use cat_keymap::maps::Maps;
use cat_model::commit::Commit;
use cat_model::entry::Entry;
use cat_names::hash::Hash;
use cat_names::key::ContentKey;
use cat_tables::table::Table;
use std::alloc::Global;
use std::collections::HashSet;
use std::marker::Model;

/// A set of hashes. Contracts ask it by `is_marked`, and never by the order of its list.
#[derive(Drop)]
pub(crate) struct Hashes {
    set: HashSet<Hash>,
}

impl Model for Hashes {
    ghost use Rattle.std.specs.Prelude.{List};
    ghost use Rattle.cat_names.specs.declared.hash.Hash.{Hash};

    ghost Value = { List Hash };

    ghost view = { λ m. m.set.keys };
}

impl Hashes {
    /// No hashes.
    pub(crate) fn new(alloc: Global) -> Hashes
        ensures { result ≡ [] }
    {
        Hashes {
            set: HashSet::new(alloc),
        }
    }

    /// Whether a hash is marked.
    pub(crate) fn has(&self, hash: &Hash) -> bool
        ensures { result ≡ is_marked self.now hash.now }
    {
        self.set.contains(hash)
    }

    /// How many hashes are marked, none of them counted twice.
    pub(crate) fn len(&self) -> usize
        ensures count { result ≡ length self.now }
        ensures once { IsDistinct same_hash self.now }
    {
        self.set.len()
    }

    /// The hashes of a table that aren't marked, by one walk.
    pub(crate) fn unmarked<V: Drop>(
        &self,
        alloc: Global,
        contents: &Table<V>,
    ) -> Result<Vec<Hash>, NoMemory>
        ensures { IfOk result
            (λ hashes. (hash : Hash) → is_among hashes.items hash
            ≡ (is_some (value_of contents.now hash) && not (is_marked self.now hash))) }
    {
        let mut out = Vec::new(alloc);
        let mut rest = contents.hashes();
        while let Some(hash) = rest.next() {
            if !self.has(hash) {
                out.push(*hash)?;
            }
        }
        Ok(out)
    }

    /// Marks a hash. Want of memory changes nothing, and comes only where the hash isn't marked.
    pub(crate) fn add(&mut self, hash: Hash) -> Result<(), NoMemory>
        ensures ok { OnOk result (AddsAll self.old self.new (hash ∷ [])) }
        ensures err { OnErr result ((x : Hash) → is_marked self.new x ≡ is_marked self.old x) }
        ensures absent { OnErr result (is_marked self.old hash ≡ false) }
    {
        self.set.insert(hash)?;
        Ok(())
    }

    /// Marks each of the hashes.
    pub(crate) fn add_all(&mut self, list: &[Hash]) -> Result<(), NoMemory>
        ensures ok { OnOk result (AddsAll self.old self.new list.now) }
        ensures err { OnErr result (AddsSome self.old self.new list.now) }
    {
        for hash in list {
            self.add(*hash)?;
        }
        Ok(())
    }

    /// Marks what a map has at each of its keys.
    fn mark_map(&mut self, map: &KeyMap) -> Result<(), NoMemory>
        ensures ok { OnOk result (AddsAll self.old self.new (hashes map.now)) }
        ensures err { OnErr result (AddsSome self.old self.new (hashes map.now)) }
    {
        let mut rest = map.walk();
        while let Some((_, entry)) = rest.next() {
            self.add(entry.hash)?;
        }
        Ok(())
    }

    /// Marks what a map has at a key, if there is something.
    fn mark_key(&mut self, map: &KeyMap, key: &ContentKey) -> Result<(), NoMemory>
        ensures ok { OnOk result (AddsAll self.old self.new (at_key map.now key.now)) }
        ensures err { OnErr result (AddsSome self.old self.new (at_key map.now key.now)) }
    {
        match map.get(key) {
            None => Ok(()),
            Some(entry) => self.add(entry.hash),
        }
    }

    /// Marks what a map has at the keys of changes.
    fn mark_keys(
        &mut self,
        map: &KeyMap,
        changes: &[(ContentKey, Option<Entry>)],
    ) -> Result<(), NoMemory>
        ensures ok { OnOk result (AddsAll self.old self.new (at_keys map.now changes.now)) }
        ensures err { OnErr result (AddsSome self.old self.new (at_keys map.now changes.now)) }
    {
        for change in changes {
            self.mark_key(map, &change.0)?;
        }
        Ok(())
    }

    /// Marks what the map of a hash has at each of its keys.
    pub(crate) fn mark_all_at(&mut self, maps: &Maps, hash: &Hash) -> Result<(), NoMemory>
        ensures ok { OnOk result
            (AddsAll self.old self.new (hashes (found_map (map_at maps.now hash.now)))) }
        ensures err { OnErr result
            (AddsSome self.old self.new (hashes (found_map (map_at maps.now hash.now)))) }
    {
        match maps.get(hash) {
            None => Ok(()),
            Some(map) => self.mark_map(map),
        }
    }

    /// Marks what the map of a commit has at the keys that the commit changes.
    pub(crate) fn mark_changed_at(
        &mut self,
        maps: &Maps,
        hash: &Hash,
        commit: &Commit,
    ) -> Result<(), NoMemory>
        ensures ok { OnOk result
            (AddsAll self.old self.new
            (at_keys (found_map (map_at maps.now hash.now)) commit.now.ops)) }
        ensures err { OnErr result
            (AddsSome self.old self.new
            (at_keys (found_map (map_at maps.now hash.now)) commit.now.ops)) }
    {
        match maps.get(hash) {
            None => Ok(()),
            Some(map) => self.mark_keys(map, commit.ops.as_slice()),
        }
    }

    /// Marks what another set has.
    pub(crate) fn add_set(&mut self, other: &Hashes) -> Result<(), NoMemory>
        ensures ok { OnOk result (AddsAll self.old self.new other.now) }
        ensures err { OnErr result (AddsSome self.old self.new other.now) }
    {
        for hash in &other.set {
            self.add(*hash)?;
        }
        Ok(())
    }
}
