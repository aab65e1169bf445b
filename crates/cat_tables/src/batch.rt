//! Values that are added together, under distinct hashes.

ghost use Rattle.std.specs.Prelude.{◌≡◌, ◌≤◌, ◌<◌, ◌+◌, [], ◌∷◌, None, IsTrue, IsOk, OnOk, length};
ghost use Rattle.std.specs.Option.{option_map};
ghost use Rattle.cat_tables.specs.Tables.{are_distinct, value_of};

use cat_codes::fault::NoMemory;
use cat_names::hash::Hash;
use std::alloc::Global;
use std::collections::HashMap;
use std::marker::Model;

/// Values under distinct hashes, gathered before they go into a table. Contracts see the list, the
/// newest first, and how many more can be pushed without memory.
#[derive(Drop)]
pub struct Batch<V> {
    pub(crate) items: Vec<(Hash, V)>,
    places: HashMap<Hash, usize>,
}

impl<V> Model for Batch<V> {
    ghost use Rattle.std.specs.Prelude.{◌-◌, min, reverse};
    ghost use Rattle.std.specs.Vec.{vec_capacity, vec_len};
    ghost use Rattle.std.specs.HashMap as hash;
    ghost use Rattle.cat_tables.specs.Tables.{Recorded, IsIndexed};

    ghost Value = { Recorded V };

    ghost view = { λ t. record {
      list = reverse t.items.items;
      spare = min (vec_capacity t.items - vec_len t.items) (hash.spare t.places);
    } };

    ghost invariant = { λ t. IsIndexed (reverse t.items.items) t.places.entries };
}

impl<V> Batch<V> {
    /// No values.
    pub fn new(alloc: Global) -> Batch<V>
        ensures { result.list ≡ [] }
    {
        Batch {
            items: Vec::new(alloc),
            places: HashMap::new(alloc),
        }
    }

    /// What holds of each batch: no hash comes twice.
    pub fn known(&self)
        ensures { IsTrue (are_distinct self.now.list) }
    {
        let _ = &self.items;
    }

    /// How many values there are.
    pub fn len(&self) -> usize
        ensures { result ≡ length self.now.list }
    {
        self.items.len()
    }

    /// The value of a hash.
    pub fn get(&self, hash: &Hash) -> Option<&V>
        ensures { option_map (λ v. v.now) result ≡ value_of self.now.list hash.now }
    {
        match self.places.get(hash) {
            None => None,
            Some(place) => Some(&self.items[*place].1),
        }
    }

    /// Makes room, so that this many more can be pushed.
    pub fn reserve(&mut self, more: usize) -> Result<(), NoMemory>
        ensures list { self.new.list ≡ self.old.list }
        ensures ok { OnOk result (more ≤ self.new.spare) }
        ensures succeeds { more ≤ self.old.spare → IsOk result }
        ensures spare { self.old.spare ≤ self.new.spare }
    {
        self.items.try_reserve(more)?;
        self.places.reserve(more)?;
        Ok(())
    }
}

impl<V: Drop> Batch<V> {
    /// Adds a value under a hash that is not there, into room that was made before.
    pub fn push(&mut self, hash: Hash, value: V)
        requires room { 0 < self.old.spare }
        requires absent { value_of self.old.list hash ≡ None }
        ensures list { self.new.list ≡ (hash, value) ∷ self.old.list }
        ensures spare { self.old.spare ≤ self.new.spare + 1 }
    {
        let place = self.items.len();
        let Ok(_) = self.places.insert(hash, place) else {
            unreachable!()
        };
        let Ok(()) = self.items.push((hash, value)) else {
            unreachable!()
        };
    }
}
