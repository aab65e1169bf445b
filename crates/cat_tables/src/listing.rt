//! The values of tables, one after another.

ghost use Rattle.std.specs.Prelude.{◌≡◌, ◌++◌, IfOk, OnOk, drop, map, reverse};
ghost use Rattle.std.specs.Option.{option_map};
ghost use Rattle.cat_ordered.specs.Maps.{first_of};
ghost use Rattle.cat_tables.specs.Sorted.{AreAtPlaces, as_pair, if_there, sorted};

use crate::table::{Placed, Table};
use cat_codes::fault::NoMemory;
use cat_names::hash::Hash;
use cat_ordered::walk::Walk;
use std::alloc::Global;
use std::marker::Model;

/// A walk over the values of a table with their hashes, in the order of these. It is seen as the
/// list of those that are still to come, and takes no memory.
#[derive(Drop)]
pub struct ValueWalk<'a, V: Drop> {
    rest: Walk<'a, Hash, Placed<V>>,
}

impl<'a, V: Drop> Model for ValueWalk<'a, V> {
    ghost use Rattle.std.specs.Prelude.{List, map};
    ghost use Rattle.cat_names.specs.declared.hash.Hash.{Hash};

    ghost Value = { List (Hash × V) };

    ghost view = { λ w. map (λ x. (x.0, x.1.value)) w.rest };
}

impl<'a, V: Drop> ValueWalk<'a, V> {
    /// The next hash and its value, past which the walk goes.
    pub fn next(&mut self) -> Option<(&'a Hash, &'a V)>
        ensures found { option_map (λ x. (x.0.now, x.1.now)) result ≡ first_of self.old }
        ensures left { self.new ≡ drop 1 self.old }
    {
        match self.rest.next() {
            None => None,
            Some(pair) => Some((pair.key(), &pair.value().value)),
        }
    }
}

/// Adds what stands at a place, if something does.
fn add_there<'a, V: Drop>(
    pairs: &mut Vec<(&'a Hash, &'a V)>,
    slot: &Option<(&'a Hash, &'a V)>,
) -> Result<(), NoMemory>
    ensures { OnOk result (pairs.new.items ≡ pairs.old.items ++ if_there slot.now) }
{
    if let Some(pair) = slot {
        pairs.push(*pair)?;
    }
    Ok(())
}

impl<V: Drop> Table<V> {
    /// A walk over the values with their hashes, in the order of these.
    pub fn walk(&self) -> ValueWalk<'_, V>
        ensures { result ≡ sorted self.now }
    {
        self.placed.known();
        ValueWalk {
            rest: self.placed.walk(),
        }
    }

    /// The values with their hashes at their places, none at a place that is empty.
    fn placed_values(&self, alloc: Global) -> Result<Vec<Option<(&Hash, &V)>>, NoMemory>
        ensures { IfOk result (λ slots. AreAtPlaces (map as_pair slots.items) self.now) }
    {
        let mut slots = Vec::with_capacity(alloc, self.next)?;
        for _ in 0..self.next {
            slots.push(None)?;
        }
        let mut rest = self.placed.walk();
        while let Some(pair) = rest.next() {
            slots[pair.value().place] = Some((pair.key(), &pair.value().value));
        }
        Ok(slots)
    }

    /// The values with their hashes, in the order in which they came.
    pub fn by_arrival(&self, alloc: Global) -> Result<Vec<(&Hash, &V)>, NoMemory>
        ensures { IfOk result
            (λ pairs. map (λ x. (x.0.now, x.1.now)) pairs.items ≡ reverse self.now) }
    {
        let slots = self.placed_values(alloc)?;
        let mut pairs = Vec::with_capacity(alloc, self.len())?;
        for slot in slots.as_slice() {
            add_there(&mut pairs, slot)?;
        }
        Ok(pairs)
    }
}
