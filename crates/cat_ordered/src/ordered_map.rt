//! Ordered maps.

ghost use Rattle.std.specs.Prelude.{◌≡◌, ◌==◌, ◌+◌, ◌*◌, ◌^◌, ◌<◌, ◌≤◌, [], None, IfOk, IsTrue, length, take, drop};
ghost use Rattle.std.specs.Option.{option_map};
ghost use Rattle.cat_codes.specs.Code.{ascends};
ghost use Rattle.cat_ordered.specs.Maps.{IsMap, value_of, after_changes, first_of, from_key};
ghost use Rattle.cat_ordered.specs.Places.{place_of};

use crate::block::Block;
use crate::change::Change;
use crate::owned::Grown;
use crate::pair::Pair;
use crate::run::Run;
use crate::seek::Seek;
use crate::walk::Walk;
use crate::{growing, owned, pieces};
use std::alloc::{AllocError, Global};
use std::marker::Model;
use std::sync::Arc;

/// Keys and their values, keys ascending, each once. Copies share all pairs, and a changed map
/// shares with the old one all blocks but those that a change meets.
#[derive(Drop)]
pub struct OrderedMap<K: Ord + Drop, V: Drop> {
    root: Vec<Arc<Run<K, V, Run<K, V, Block<K, V>>>>>,
    len: usize,
}

impl<K: Ord + Drop, V: Drop> Model for OrderedMap<K, V> {
    ghost use Rattle.std.specs.Prelude.{List, ◌*◌};
    ghost use Rattle.std.specs.List.{flat_map};
    ghost use Rattle.cat_ordered.specs.Pieces.{IsOrdered};
    ghost use Rattle.cat_ordered.specs.Shared.{values};

    ghost Value = { List (K × V) };

    ghost view = { λ m. flat_map (λ r. r.entries) (values m.root.items) };

    ghost invariant = { λ m. IsOrdered K.cmp (λ r. r.entries) (λ r. r.size) (16 * (16 * 16))
        (values m.root.items) m.len };
}

impl<K: Ord + Drop, V: Drop> Clone for OrderedMap<K, V> {
    ghost is_clone = { λ a b. b ≡ a };

    /// The same map, which shares all pairs. It takes memory for one list of owners, unless the map
    /// is empty: one owner for each 4,096 to 262,144 pairs.
    fn clone(&self) -> Result<OrderedMap<K, V>, AllocError> {
        let mut root = Vec::with_capacity(*self.root.allocator(), self.root.len())?;
        growing::share_all(&mut root, self.root.as_slice())?;
        Ok(OrderedMap {
            root,
            len: self.len,
        })
    }
}

impl<K: Ord + Drop, V: Drop> OrderedMap<K, V> {
    /// The map without keys. It takes no memory.
    pub fn new(alloc: Global) -> OrderedMap<K, V>
        ensures { result ≡ [] }
    {
        OrderedMap {
            root: Vec::new(alloc),
            len: 0,
        }
    }

    /// What holds of each map: keys ascend, each once.
    pub fn known(&self)
        ensures { IsMap K.cmp self.now }
    {
        let _ = &self.root;
    }

    /// How many keys there are.
    pub fn len(&self) -> usize
        ensures { result ≡ length self.now }
    {
        self.len
    }

    /// Whether there are no keys.
    pub fn is_empty(&self) -> bool
        ensures { result ≡ (length self.now == 0) }
    {
        self.len == 0
    }

    /// The value of a key, and a count of the keys that it was compared with: at most
    /// `2 * log2(n + 1)` for a map of n keys.
    pub fn get_counted<Q: Seek<K>>(&self, key: &Q) -> (Option<&V>, u32)
        ensures value { option_map (λ v. v.now) result.0
            ≡ value_of K.cmp self.now (Q.sought key.now) }
        ensures cost { 2 ^ result.1 ≤ (length self.now + 1) ^ 2 }
    {
        pieces::found(self.root.as_slice(), key)
    }

    /// The value of a key.
    pub fn get(&self, key: &K) -> Option<&V>
        ensures { option_map (λ v. v.now) result ≡ value_of K.cmp self.now key.now }
    {
        self.get_counted(key).0
    }

    /// The value of a key that is sought by something that stands for it.
    pub fn get_sought<Q: Seek<K>>(&self, key: &Q) -> Option<&V>
        ensures { option_map (λ v. v.now) result ≡ value_of K.cmp self.now (Q.sought key.now) }
    {
        self.get_counted(key).0
    }

    /// The map after changes whose keys ascend, and how many pairs were copied.
    pub fn with_changes_counted(
        &self,
        alloc: Global,
        changes: &[Change<K, V>],
    ) -> Result<(OrderedMap<K, V>, u64), AllocError>
        requires { IsTrue (ascends K.cmp None changes.now) }
        ensures map { IfOk result (λ made. made.0 ≡ after_changes K.cmp changes.now self.now) }
        ensures few { IfOk result (λ made. made.1 ≤ 512 * length changes.now) }
    {
        if changes.is_empty() {
            return Ok((self.clone()?, 0));
        }
        let made = growing::changed(alloc, self.root.as_slice(), changes)?;
        let Some(len) = pieces::total::<K, V, Run<K, V, Run<K, V, Block<K, V>>>>(
            made.pieces.as_slice(),
        ) else {
            return Err(AllocError);
        };
        let map = OrderedMap {
            root: made.pieces,
            len,
        };
        Ok((map, made.copied))
    }

    /// The map after changes whose keys ascend. Refused for want of memory, or where no number can
    /// say how many keys there would be.
    pub fn with_changes(
        &self,
        alloc: Global,
        changes: &[Change<K, V>],
    ) -> Result<OrderedMap<K, V>, AllocError>
        requires { IsTrue (ascends K.cmp None changes.now) }
        ensures { IfOk result (λ map. map ≡ after_changes K.cmp changes.now self.now) }
    {
        let (map, _) = self.with_changes_counted(alloc, changes)?;
        Ok(map)
    }

    /// The map after changes whose keys ascend, as by [`OrderedMap::with_changes`]. By one change
    /// the parts of the map that it meets are changed in their own memory where no other map shares
    /// them.
    pub fn into_changes(
        self,
        alloc: Global,
        changes: &[Change<K, V>],
    ) -> Result<OrderedMap<K, V>, AllocError>
        requires { IsTrue (ascends K.cmp None changes.now) }
        ensures { IfOk result (λ map. map ≡ after_changes K.cmp changes.now self) }
    {
        if changes.is_empty() {
            return Ok(self);
        }
        let Grown { made, len } = owned::into_changed(alloc, self.root, self.len, changes)?;
        let Some(len) = pieces::counted::<K, V, Run<K, V, Run<K, V, Block<K, V>>>>(
            made.pieces.as_slice(),
            len,
        ) else {
            return Err(AllocError);
        };
        Ok(OrderedMap {
            root: made.pieces,
            len,
        })
    }

    /// The pairs from a place on, up to the end of their block.
    pub(crate) fn block_at(&self, at: usize) -> &[Pair<K, V>]
        requires { at < length self.now }
        ensures some { 0 < length result.now }
        ensures front { result.now ≡ take (length result.now) (drop at self.now) }
    {
        pieces::rest(self.root.as_slice(), at)
    }

    /// How many keys are below this one.
    fn rank(&self, key: &K) -> usize
        ensures place { result ≡ place_of K.cmp self.now key.now }
        ensures bound { result ≤ length self.now }
    {
        pieces::rank(self.root.as_slice(), self.len, key)
    }

    /// A walk over all pairs.
    pub fn walk(&self) -> Walk<'_, K, V>
        ensures { result ≡ self.now }
    {
        Walk::from_place(self, 0)
    }

    /// A walk over the pairs from a key on.
    pub fn walk_from(&self, key: &K) -> Walk<'_, K, V>
        ensures { result ≡ from_key K.cmp self.now key.now }
    {
        Walk::from_place(self, self.rank(key))
    }

    /// The first pair whose key isn't below this one.
    pub fn first_at_or_after(&self, key: &K) -> Option<&Pair<K, V>>
        ensures { option_map (λ pair. pair.now) result
            ≡ first_of (from_key K.cmp self.now key.now) }
    {
        self.walk_from(key).peek()
    }
}
