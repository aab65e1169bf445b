//! Blocks of pairs.

ghost use Rattle.std.specs.Prelude.{◌≡◌, ◌+◌, ◌*◌, ◌^◌, ◌<◌, ◌≤◌, ◌++◌, None, IfOk, OnOk, IsTrue, true, false, length, take, drop};
ghost use Rattle.std.specs.Option.{option_map};
ghost use Rattle.std.specs.Ordering.{is_lt, is_eq};
ghost use Rattle.cat_codes.specs.Code.{ascends};
ghost use Rattle.cat_ordered.specs.Maps.{IsMap, value_of, present, after_change, after_changes};
ghost use Rattle.cat_ordered.specs.Pieces.{Cuts};
ghost use Rattle.cat_ordered.specs.Places.{place_of};
ghost use Rattle.cat_ordered.specs.Places;
ghost use Rattle.cat_ordered.specs.Shared.{values};

use crate::change::Change;
use crate::next::next_of;
use crate::pair::Pair;
use crate::piece::{LEAST, MOST, Made, Piece};
use crate::seek::Seek;
use std::alloc::{AllocError, Global};
use std::sync::Arc;

/// Pairs, keys ascending.
#[derive(Drop)]
pub(crate) struct Block<K, V> {
    pairs: Vec<Pair<K, V>>,
}

fn is_below<K: Ord, V, Q: Seek<K>>(pair: &Pair<K, V>, key: &Q) -> bool
    ensures { result ≡ is_lt (K.cmp pair.now.0 (Q.sought key.now)) }
{
    key.order(pair.key()).is_lt()
}

fn has_key<K: Ord, V, Q: Seek<K>>(pair: &Pair<K, V>, key: &Q) -> bool
    ensures { result ≡ is_eq (K.cmp pair.now.0 (Q.sought key.now)) }
{
    key.order(pair.key()).is_eq()
}

/// How many keys are below this one, and how many keys it was compared with.
fn place<K: Ord, V, Q: Seek<K>>(pairs: &[Pair<K, V>], key: &Q) -> (usize, u32)
    requires { IsMap K.cmp pairs.now }
    ensures place { result.0 ≡ place_of K.cmp pairs.now (Q.sought key.now) }
    ensures bound { result.0 ≤ length pairs.now }
    ensures cost { 0 < length pairs.now → 2 ^ result.1 ≤ 2 * length pairs.now }
{
    let mut low = 0;
    let mut high = pairs.len();
    let mut count = 0u32;
    while low < high {
        let middle = low + (high - low) / 2;
        count = count.saturating_add(1);
        if is_below(&pairs[middle], key) {
            low = middle + 1;
        } else {
            high = middle;
        }
    }
    (low, count)
}

/// The value of a key, and how many keys it was compared with.
fn value_at<'a, K: Ord, V, Q: Seek<K>>(pairs: &'a [Pair<K, V>], key: &Q) -> (Option<&'a V>, u32)
    requires { IsMap K.cmp pairs.now }
    ensures value { option_map (λ v. v.now) result.0 ≡ value_of K.cmp pairs.now (Q.sought key.now) }
    ensures cost { 2 ^ result.1 ≤ (length pairs.now + 1) * (length pairs.now + 1) }
    ensures most { 0 < length pairs.now → length pairs.now ≤ 64 → 2 ^ result.1 ≤ 16 * 16 }
{
    if pairs.is_empty() {
        return (None, 0);
    }
    let (at, count) = place(pairs, key);
    if at >= pairs.len() {
        return (None, count);
    }
    let pair = &pairs[at];
    let count = count.saturating_add(1);
    if has_key(pair, key) {
        (Some(pair.value()), count)
    } else {
        (None, count)
    }
}

/// The first pairs.
fn front_of<K, V>(pairs: &[Pair<K, V>], n: usize) -> &[Pair<K, V>]
    requires { n ≤ length pairs.now }
    ensures { result.now ≡ take n pairs.now }
{
    &pairs[..n]
}

/// The pairs from a place on.
pub(crate) fn rest_of<K, V>(pairs: &[Pair<K, V>], n: usize) -> &[Pair<K, V>]
    requires { n ≤ length pairs.now }
    ensures { result.now ≡ drop n pairs.now }
{
    &pairs[n..]
}

/// The pairs above a key, given its place.
fn above<'a, K: Ord, V>(pairs: &'a [Pair<K, V>], at: usize, key: &K) -> &'a [Pair<K, V>]
    requires { at ≡ place_of K.cmp pairs.now key.now }
    ensures { result.now ≡ Places.above K.cmp pairs.now key.now }
{
    if at >= pairs.len() {
        return rest_of(pairs, pairs.len());
    }
    let pair = &pairs[at];
    if has_key(pair, key) {
        rest_of(pairs, at + 1)
    } else {
        rest_of(pairs, at)
    }
}

/// Adds the pairs, which are shared.
fn copy_into<K: Drop, V: Drop>(
    out: &mut Vec<Pair<K, V>>,
    pairs: &[Pair<K, V>],
) -> Result<(), AllocError>
    ensures { OnOk result (out.new.items ≡ out.old.items ++ pairs.now) }
{
    for pair in pairs {
        out.push(pair.share()?)?;
    }
    Ok(())
}

/// Adds what a change leaves of its key.
fn put<K: Drop, V: Drop>(out: &mut Vec<Pair<K, V>>, change: &Change<K, V>) -> Result<(), AllocError>
    ensures { OnOk result (out.new.items ≡ out.old.items ++ present change.now) }
{
    match change.pair()? {
        None => Ok(()),
        Some(pair) => {
            out.push(pair)?;
            Ok(())
        }
    }
}

/// Adds the pairs below a change and what it leaves of its key, and gives the pairs above.
fn take_up<'a, K: Ord + Drop, V: Drop>(
    out: &mut Vec<Pair<K, V>>,
    left: &'a [Pair<K, V>],
    change: &Change<K, V>,
) -> Result<&'a [Pair<K, V>], AllocError>
    requires { IsMap K.cmp left.now }
    ensures { IfOk result
        (λ rest. (rest.now ≡ Places.above K.cmp left.now change.now.0)
        × (out.new.items
        ≡ out.old.items ++ (Places.below K.cmp left.now change.now.0 ++ present change.now))) }
{
    let key = change.key();
    let (at, _) = place(left, key);
    copy_into(out, front_of(left, at))?;
    put(out, change)?;
    Ok(above(left, at, key))
}

/// The pairs after changes, whose keys ascend.
fn changed_pairs<K: Ord + Drop, V: Drop>(
    alloc: Global,
    pairs: &[Pair<K, V>],
    changes: &[Change<K, V>],
) -> Result<Vec<Pair<K, V>>, AllocError>
    requires map { IsMap K.cmp pairs.now }
    requires ascend { IsTrue (ascends K.cmp None changes.now) }
    ensures { IfOk result (λ v. v.items ≡ after_changes K.cmp changes.now pairs.now) }
{
    let mut out = Vec::with_capacity(alloc, pairs.len().saturating_add(changes.len()))?;
    let mut left = pairs;
    for change in changes {
        left = take_up(&mut out, left, change)?;
    }
    copy_into(&mut out, left)?;
    Ok(out)
}

/// Whether the key is there, given its place.
fn is_there<K: Ord, V>(pairs: &[Pair<K, V>], at: usize, key: &K) -> bool
    requires { at ≡ place_of K.cmp pairs.now key.now }
    ensures there { result ≡ true
        → (at < length pairs.now) × (drop (at + 1) pairs.now ≡ Places.above K.cmp pairs.now key.now) }
    ensures other { result ≡ false → drop at pairs.now ≡ Places.above K.cmp pairs.now key.now }
{
    if at >= pairs.len() {
        return false;
    }
    has_key(&pairs[at], key)
}

/// Puts what a change leaves of its key in place of a pair.
fn set_at<K: Drop, V: Drop>(
    pairs: &mut Vec<Pair<K, V>>,
    at: usize,
    change: &Change<K, V>,
) -> Result<(), AllocError>
    requires { at < length pairs.old.items }
    ensures { OnOk result
        (pairs.new.items
        ≡ take at pairs.old.items ++ (present change.now ++ drop (at + 1) pairs.old.items)) }
{
    match change.pair()? {
        None => {
            drop(pairs.remove(at));
            Ok(())
        }
        Some(pair) => {
            pairs[at] = pair;
            Ok(())
        }
    }
}

/// Puts in what a change leaves of its key.
fn insert_at<K: Drop, V: Drop>(
    pairs: &mut Vec<Pair<K, V>>,
    at: usize,
    change: &Change<K, V>,
) -> Result<(), AllocError>
    requires { at ≤ length pairs.old.items }
    ensures { OnOk result
        (pairs.new.items
        ≡ take at pairs.old.items ++ (present change.now ++ drop at pairs.old.items)) }
{
    match change.pair()? {
        None => Ok(()),
        Some(pair) => {
            pairs.insert(at, pair)?;
            Ok(())
        }
    }
}

/// Makes a change in the pairs' own memory.
fn change_pairs<K: Ord + Drop, V: Drop>(
    pairs: &mut Vec<Pair<K, V>>,
    change: &Change<K, V>,
) -> Result<(), AllocError>
    requires { IsMap K.cmp pairs.old.items }
    ensures { OnOk result (pairs.new.items ≡ after_change K.cmp change.now pairs.old.items) }
{
    let key = change.key();
    let (at, _) = place(pairs.as_slice(), key);
    if is_there(pairs.as_slice(), at, key) {
        set_at(pairs, at, change)?;
        Ok(())
    } else {
        insert_at(pairs, at, change)?;
        Ok(())
    }
}

/// Pairs that are too many for one block, as blocks of 16 and a last one of at most 32.
fn cut_blocks<K: Drop, V: Drop>(
    alloc: Global,
    pairs: Vec<Pair<K, V>>,
) -> Result<Vec<Arc<Block<K, V>>>, AllocError>
    requires { 32 < length pairs.items }
    ensures { IfOk result
        (λ v. Cuts (λ b. b.pairs.items) (λ b. length b.pairs.items) 16 pairs.items
        (length pairs.items) (values v.items)) }
{
    let mut out = Vec::new(alloc);
    let mut rest = pairs.into_iter();
    while rest.len() > MOST {
        let front = next_of(alloc, &mut rest, LEAST)?;
        out.push(Arc::new(alloc, Block { pairs: front })?)?;
    }
    let left = rest.len();
    let last = next_of(alloc, &mut rest, left)?;
    out.push(Arc::new(alloc, Block { pairs: last })?)?;
    Ok(out)
}

/// Pairs as blocks of at most 32.
fn blocks<K: Drop, V: Drop>(
    alloc: Global,
    pairs: Vec<Pair<K, V>>,
) -> Result<Vec<Arc<Block<K, V>>>, AllocError>
    ensures { IfOk result
        (λ v. Cuts (λ b. b.pairs.items) (λ b. length b.pairs.items) 16 pairs.items
        (length pairs.items) (values v.items)) }
{
    if pairs.len() > MOST {
        return cut_blocks(alloc, pairs);
    }
    let mut out = Vec::new(alloc);
    if pairs.is_empty() {
        return Ok(out);
    }
    out.push(Arc::new(alloc, Block { pairs })?)?;
    Ok(out)
}

/// The pairs of one block and those of the next.
fn joined_pairs<K: Drop, V: Drop>(
    alloc: Global,
    first: &[Pair<K, V>],
    next: &[Pair<K, V>],
) -> Result<Vec<Pair<K, V>>, AllocError>
    ensures { IfOk result (λ v. v.items ≡ first.now ++ next.now) }
{
    let mut pairs = Vec::with_capacity(alloc, first.len().saturating_add(next.len()))?;
    copy_into(&mut pairs, first)?;
    copy_into(&mut pairs, next)?;
    Ok(pairs)
}

/// Pairs that were copied, as blocks of at most 32.
fn copied_blocks<K: Drop, V: Drop>(
    alloc: Global,
    pairs: Vec<Pair<K, V>>,
) -> Result<Made<Block<K, V>>, AllocError>
    ensures cut { IfOk result
        (λ made. Cuts (λ b. b.pairs.items) (λ b. length b.pairs.items) 16 pairs.items
        (length pairs.items) (values made.pieces.items)) }
    ensures copied { IfOk result (λ made. made.copied ≡ length pairs.items) }
{
    let copied = pairs.len() as u64;
    let pieces = blocks(alloc, pairs)?;
    Ok(Made { pieces, copied })
}

impl<K: Ord + Drop, V: Drop> Piece<K, V> for Block<K, V> {
    ghost entries = { λ b. b.pairs.items };

    ghost size = { λ b. length b.pairs.items };

    ghost least = { 16 };

    ghost rate = { 65 };

    fn empty(alloc: Global) -> Block<K, V> {
        Block {
            pairs: Vec::new(alloc),
        }
    }

    fn len(&self) -> usize {
        self.pairs.len()
    }

    fn parts(&self) -> usize {
        self.pairs.len()
    }

    fn first(&self) -> &K {
        self.pairs[0].key()
    }

    fn get<Q: Seek<K>>(&self, key: &Q) -> (Option<&V>, u32) {
        value_at(self.pairs.as_slice(), key)
    }

    fn rank(&self, key: &K) -> usize {
        let (at, _) = place(self.pairs.as_slice(), key);
        at
    }

    fn rest(&self, at: usize) -> &[Pair<K, V>] {
        rest_of(self.pairs.as_slice(), at)
    }

    fn changed(
        &self,
        alloc: Global,
        changes: &[Change<K, V>],
    ) -> Result<Made<Block<K, V>>, AllocError> {
        let pairs = changed_pairs(alloc, self.pairs.as_slice(), changes)?;
        let made = copied_blocks(alloc, pairs)?;
        Ok(made)
    }

    fn into_changed(
        self,
        alloc: Global,
        changes: &[Change<K, V>],
    ) -> Result<Made<Block<K, V>>, AllocError> {
        if changes.len() > 1 {
            let made = self.changed(alloc, changes)?;
            return Ok(made);
        }
        let mut pairs = self.pairs;
        change_pairs(&mut pairs, &changes[0])?;
        Ok(Made {
            pieces: blocks(alloc, pairs)?,
            copied: 0,
        })
    }

    fn joined(&self, alloc: Global, next: &Block<K, V>) -> Result<Made<Block<K, V>>, AllocError> {
        let pairs = joined_pairs(alloc, self.pairs.as_slice(), next.pairs.as_slice())?;
        let made = copied_blocks(alloc, pairs)?;
        Ok(made)
    }
}
