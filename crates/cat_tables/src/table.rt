//! Tables whose versions share their values.

ghost use Rattle.std.specs.Prelude.{◌≡◌, [], ◌++◌, IfOk, IsTrue, None, drop, filter, is_some, length, not};
ghost use Rattle.std.specs.Option.{option_copied, option_map};
ghost use Rattle.cat_codes.specs.Code.{keys_ascend};
ghost use Rattle.cat_model.specs.Base.{is_among};
ghost use Rattle.cat_names.specs.declared.hash.Hash.{Hash};
ghost use Rattle.cat_ordered.specs.Maps.{first_of};
ghost use Rattle.cat_tables.specs.HashOrder.{hash_cmp};
ghost use Rattle.cat_tables.specs.Tables.{are_distinct, value_of};

use crate::adding::sorted_changes;
use crate::batch::Batch;
use crate::removing::{ascending, removals};
use cat_codes::fault::NoMemory;
use cat_names::hash::Hash;
use cat_ordered::ordered_map::OrderedMap;
use cat_ordered::walk::Walk;
use std::alloc::{AllocError, Global};
use std::marker::Model;

/// A value, and how many were added before it.
#[derive(Drop)]
pub(crate) struct Placed<V> {
    pub(crate) place: usize,
    pub(crate) value: V,
}

/// Values under distinct hashes, in the order in which they were added. A table is never changed:
/// one with more or fewer values shares with it all values that stay, and all but the path to each
/// that comes or goes. Contracts see the list, the newest first.
#[derive(Drop)]
pub struct Table<V: Drop> {
    pub(crate) placed: OrderedMap<Hash, Placed<V>>,
    /// How many values were ever added. What goes leaves its place empty.
    pub(crate) next: usize,
}

impl<V: Drop> Model for Table<V> {
    ghost use Rattle.std.specs.Prelude.{List};
    ghost use Rattle.cat_names.specs.declared.hash.Hash.{Hash};
    ghost use Rattle.cat_tables.specs.Arrivals.{IsPlaced, arrived};

    ghost Value = { List (Hash × V) };

    ghost view = { λ t. arrived t.next t.placed };

    ghost invariant = { λ t. IsPlaced t.next t.placed };
}

impl<V: Drop> Clone for Table<V> {
    ghost is_clone = { λ a b. b ≡ a };

    /// The same table, which shares all values. It takes memory for one list of owners, unless the
    /// table is empty: one owner for each 4,096 to 262,144 values.
    fn clone(&self) -> Result<Table<V>, AllocError> {
        Ok(Table {
            placed: self.placed.clone()?,
            next: self.next,
        })
    }
}

/// A walk over the hashes of a table, in the order of their bytes. It is seen as the list of those
/// that are still to come, and takes no memory.
#[derive(Drop)]
pub struct HashWalk<'a, V: Drop> {
    rest: Walk<'a, Hash, Placed<V>>,
}

impl<'a, V: Drop> Model for HashWalk<'a, V> {
    ghost use Rattle.std.specs.Prelude.{List, map};
    ghost use Rattle.cat_names.specs.declared.hash.Hash.{Hash};

    ghost Value = { List Hash };

    ghost view = { λ w. map (λ x. x.0) w.rest };
}

impl<'a, V: Drop> HashWalk<'a, V> {
    /// The next hash, past which the walk goes.
    pub fn next(&mut self) -> Option<&'a Hash>
        ensures found { option_copied result ≡ first_of self.old }
        ensures left { self.new ≡ drop 1 self.old }
    {
        match self.rest.next() {
            None => None,
            Some(pair) => Some(pair.key()),
        }
    }
}

impl<V: Drop> Table<V> {
    /// No values. It takes no memory.
    pub fn new(alloc: Global) -> Table<V>
        ensures { result ≡ [] }
    {
        Table {
            placed: OrderedMap::new(alloc),
            next: 0,
        }
    }

    /// What holds of each table: no hash comes twice.
    pub fn known(&self)
        ensures { IsTrue (are_distinct self.now) }
    {
        let _ = &self.placed;
    }

    /// How many values there are.
    pub fn len(&self) -> usize
        ensures { result ≡ length self.now }
    {
        self.placed.len()
    }

    /// The value of a hash.
    pub fn get(&self, hash: &Hash) -> Option<&V>
        ensures { option_map (λ v. v.now) result ≡ value_of self.now hash.now }
    {
        match self.placed.get(hash) {
            None => None,
            Some(placed) => Some(&placed.value),
        }
    }

    /// The table with the values of a batch, under hashes that are not there, above its own.
    pub fn with(&self, alloc: Global, more: Batch<V>) -> Result<Table<V>, NoMemory>
        requires { IsTrue (are_distinct (more.list ++ self.now)) }
        ensures { IfOk result (λ table. table ≡ more.list ++ self.now) }
    {
        let next = self.next.checked_add(more.len()).ok_or(NoMemory)?;
        let changes = sorted_changes(alloc, self.next, more.items)?;
        Ok(Table {
            placed: self.placed.with_changes(alloc, changes.as_slice())?,
            next,
        })
    }

    /// The table with the values of a batch, as by [`Table::with`]. One value is put in the table's
    /// own memory where no other table shares it.
    pub fn into_with(self, alloc: Global, more: Batch<V>) -> Result<Table<V>, NoMemory>
        requires { IsTrue (are_distinct (more.list ++ self)) }
        ensures { IfOk result (λ table. table ≡ more.list ++ self) }
    {
        let next = self.next.checked_add(more.len()).ok_or(NoMemory)?;
        let changes = sorted_changes(alloc, self.next, more.items)?;
        Ok(Table {
            placed: self.placed.into_changes(alloc, changes.as_slice())?,
            next,
        })
    }

    /// The table without the values of these hashes, which may come in any order and more than
    /// once, and need not be there. The order of the others stays. It sorts the hashes once.
    pub fn without(&self, alloc: Global, hashes: &[Hash]) -> Result<Table<V>, NoMemory>
        ensures { IfOk result
            (λ table. table ≡ filter (λ x. not (is_among hashes.now x.0)) self.now) }
    {
        self.placed.known();
        let sorted = ascending(alloc, hashes)?;
        let changes = removals(alloc, sorted)?;
        Ok(Table {
            placed: self.placed.with_changes(alloc, changes.as_slice())?,
            next: self.next,
        })
    }

    /// A walk over the hashes, in the order of their bytes. It takes no memory.
    pub fn hashes(&self) -> HashWalk<'_, V>
        ensures all { (hash : Hash) → is_among result hash ≡ is_some (value_of self.now hash) }
        ensures order { IsTrue (keys_ascend hash_cmp None result) }
    {
        self.placed.known();
        HashWalk {
            rest: self.placed.walk(),
        }
    }
}
