//! Walks over maps.

ghost use Rattle.std.specs.Prelude.{◌≡◌, ◌<◌, ◌≤◌, ◌++◌, length, drop};
ghost use Rattle.std.specs.Option.{option_map};
ghost use Rattle.cat_ordered.specs.Maps.{first_of};
ghost use Rattle.cat_ordered.specs.Walks.{IsWalk};

use crate::block::rest_of;
use crate::ordered_map::OrderedMap;
use crate::pair::Pair;
use std::marker::Model;

/// A walk over pairs of a map, keys ascending. It is seen as the list of the pairs that are still
/// to come, and takes no memory.
#[derive(Drop)]
pub struct Walk<'a, K: Ord + Drop, V: Drop> {
    map: &'a OrderedMap<K, V>,
    block: &'a [Pair<K, V>],
    next: usize,
}

impl<'a, K: Ord + Drop, V: Drop> Model for Walk<'a, K, V> {
    ghost use Rattle.std.specs.Prelude.{List, ◌++◌, drop};
    ghost use Rattle.cat_ordered.specs.Walks.{IsWalk};

    ghost Value = { List (K × V) };

    ghost view = { λ w. w.block.now ++ drop w.next w.map.now };

    ghost invariant = { λ w. IsWalk w.map.now w.block.now w.next };
}

/// The pairs from a place on, up to the end of their block, and the place of what follows; none at
/// the end of the map.
fn block_from<'a, K: Ord + Drop, V: Drop>(
    map: &'a OrderedMap<K, V>,
    at: usize,
) -> (&'a [Pair<K, V>], usize)
    requires { at ≤ length map.now }
    ensures whole { result.0.now ++ drop result.1 map.now ≡ drop at map.now }
    ensures walk { IsWalk map.now result.0.now result.1 }
{
    let len = map.len();
    if at >= len {
        return (&[], at);
    }
    let block = map.block_at(at);
    let next = at + block.len();
    (block, next)
}

/// What is left of a block after its first pair, or else the next block, and the place of what
/// follows.
fn stepped<'a, K: Ord + Drop, V: Drop>(
    map: &'a OrderedMap<K, V>,
    block: &'a [Pair<K, V>],
    next: usize,
) -> (&'a [Pair<K, V>], usize)
    requires some { 0 < length block.now }
    requires within { next ≤ length map.now }
    ensures left { result.0.now ++ drop result.1 map.now ≡ drop 1 (block.now ++ drop next map.now) }
    ensures walk { IsWalk map.now result.0.now result.1 }
{
    let rest = rest_of(block, 1);
    if rest.is_empty() {
        return block_from(map, next);
    }
    (rest, next)
}

/// The first of some pairs.
fn first_pair<K, V>(pairs: &[Pair<K, V>]) -> Option<&Pair<K, V>>
    ensures { option_map (λ pair. pair.now) result ≡ first_of pairs.now }
{
    match pairs {
        [] => None,
        [first, ..] => Some(first),
    }
}

impl<'a, K: Ord + Drop, V: Drop> Walk<'a, K, V> {
    /// The walk over the pairs from a place on.
    pub(crate) fn from_place(map: &'a OrderedMap<K, V>, at: usize) -> Walk<'a, K, V>
        requires { at ≤ length map.now }
        ensures { result ≡ drop at map.now }
    {
        let (block, next) = block_from(map, at);
        Walk { map, block, next }
    }

    /// The next pair; the walk stays where it is.
    pub fn peek(&self) -> Option<&'a Pair<K, V>>
        ensures { option_map (λ pair. pair.now) result ≡ first_of self.now }
    {
        let block = self.block;
        first_pair(block)
    }

    /// The next pair, past which the walk goes.
    pub fn next(&mut self) -> Option<&'a Pair<K, V>>
        ensures found { option_map (λ pair. pair.now) result ≡ first_of self.old }
        ensures left { self.new ≡ drop 1 self.old }
    {
        let first = self.peek();
        let block = self.block;
        if block.is_empty() {
            return first;
        }
        let (rest, next) = stepped(self.map, block, self.next);
        self.block = rest;
        self.next = next;
        first
    }
}
