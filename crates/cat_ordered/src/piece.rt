//! What each level of a map can do with one of its pieces.

ghost use Rattle.std.specs.Prelude.{◌≡◌, ℕ, ◌+◌, ◌*◌, ◌^◌, ◌<◌, ◌≤◌, List, [], Some, None, IfOk, IsTrue, length, take, drop};
ghost use Rattle.std.specs.Option.{option_map};
ghost use Rattle.cat_codes.specs.Code.{ascends};
ghost use Rattle.cat_ordered.specs.Maps.{IsMap, value_of, first_key, after_changes};
ghost use Rattle.cat_ordered.specs.Pieces.{Makes, Joins};
ghost use Rattle.cat_ordered.specs.Places.{place_of};
ghost use Rattle.cat_ordered.specs.Shared.{values};

use crate::change::Change;
use crate::pair::Pair;
use crate::seek::Seek;
use std::alloc::{AllocError, Global};
use std::sync::Arc;

/// The fewest parts of a piece that has neighbours.
pub(crate) const LEAST: usize = 16;

/// The most parts of a piece that is made: of more, pieces of [`LEAST`] are cut off. Contracts hold
/// for twice as many.
pub(crate) const MOST: usize = 32;

/// Pieces that were made, and how many pairs were copied to make them.
#[derive(Drop)]
pub(crate) struct Made<P> {
    pub(crate) pieces: Vec<Arc<P>>,
    pub(crate) copied: u64,
}

/// A sorted part of a map: a block of pairs, or a run of smaller pieces.
pub(crate) trait Piece<K: Ord, V>: Drop {
    /// Its pairs, keys ascending.
    ghost entries: { Self → List (K × V) };

    /// How many parts it has.
    ghost size: { Self → ℕ };

    /// How many pairs it has at least, where it has 16 parts or more.
    ghost least: { ℕ };

    /// How many pairs are copied for a change at most.
    ghost rate: { ℕ };

    /// A piece without pairs.
    fn empty(alloc: Global) -> Self
        ensures no_pairs { entries result ≡ [] }
        ensures no_parts { size result ≡ 0 };

    /// How many pairs it has.
    fn len(&self) -> usize
        ensures { result ≡ length (entries self.now) };

    /// How many parts it has.
    fn parts(&self) -> usize
        ensures { result ≡ size self.now };

    /// Its lowest key.
    fn first(&self) -> &K
        requires { 0 < length (entries self.now) }
        ensures { first_key (entries self.now) ≡ Some result.now };

    /// The value of a key, and how many keys it was compared with.
    fn get<Q: Seek<K>>(&self, key: &Q) -> (Option<&V>, u32)
        requires { IsMap K.cmp (entries self.now) }
        ensures value { option_map (λ v. v.now) result.0
            ≡ value_of K.cmp (entries self.now) (Q.sought key.now) }
        ensures cost { 2 ^ result.1
            ≤ (length (entries self.now) + 1) * (length (entries self.now) + 1) }
        ensures most { 0 < size self.now → size self.now ≤ 64 → 2 ^ result.1 ≤ least * least };

    /// How many keys are below this one.
    fn rank(&self, key: &K) -> usize
        requires { IsMap K.cmp (entries self.now) }
        ensures { result ≡ place_of K.cmp (entries self.now) key.now };

    /// The pairs from a place on, up to the end of their block.
    fn rest(&self, at: usize) -> &[Pair<K, V>]
        requires { at < length (entries self.now) }
        ensures some { 0 < length result.now }
        ensures front { result.now ≡ take (length result.now) (drop at (entries self.now)) };

    /// The pieces that it becomes by changes, whose keys ascend.
    fn changed(&self, alloc: Global, changes: &[Change<K, V>]) -> Result<Made<Self>, AllocError>
        requires map { IsMap K.cmp (entries self.now) }
        requires ascend { IsTrue (ascends K.cmp None changes.now) }
        requires some { 0 < length changes.now }
        requires fits { size self.now ≤ 64 }
        ensures made { IfOk result
            (λ made. Makes entries size least (after_changes K.cmp changes.now (entries self.now))
            (values made.pieces.items)) }
        ensures few { IfOk result (λ made. made.copied ≤ rate * length changes.now) };

    /// The pieces that it becomes by changes, as by [`Piece::changed`]. By one change it is changed
    /// in its own memory, and so is each of its parts that nobody else owns.
    fn into_changed(self, alloc: Global, changes: &[Change<K, V>]) -> Result<Made<Self>, AllocError>
        requires map { IsMap K.cmp (entries self) }
        requires ascend { IsTrue (ascends K.cmp None changes.now) }
        requires some { 0 < length changes.now }
        requires fits { size self ≤ 64 }
        ensures made { IfOk result
            (λ made. Makes entries size least (after_changes K.cmp changes.now (entries self))
            (values made.pieces.items)) }
        ensures few { IfOk result (λ made. made.copied ≤ rate * length changes.now) };

    /// One or two pieces in place of this one and its neighbour.
    fn joined(&self, alloc: Global, next: &Self) -> Result<Made<Self>, AllocError>
        requires left { size self.now ≤ 64 }
        requires right { size next.now ≤ 64 }
        ensures made { IfOk result
            (λ made. Joins entries size least self.now next.now (values made.pieces.items)) }
        ensures few { IfOk result (λ made. made.copied ≤ 128) };
}
