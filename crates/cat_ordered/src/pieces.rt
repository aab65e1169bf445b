//! Looking up in lists of pieces that make a map.

ghost use Rattle.std.specs.Prelude.{◌≡◌, ◌⊎◌, ◌<◌, ◌≤◌, ◌+◌, ◌*◌, ◌^◌, None, IfSome, MatchOption, true, false, length, take, drop};
ghost use Rattle.std.specs.Arc.{arc_value};
ghost use Rattle.std.specs.List.{flat_map};
ghost use Rattle.std.specs.Option.{option_map};
ghost use Rattle.cat_ordered.specs.Maps.{IsMap, value_of};
ghost use Rattle.cat_ordered.specs.Maps;
ghost use Rattle.cat_ordered.specs.Pieces.{AreFine};
ghost use Rattle.cat_ordered.specs.Places.{place_of};
ghost use Rattle.cat_ordered.specs.Shared.{values};

use crate::pair::Pair;
use crate::piece::Piece;
use crate::seek::Seek;
use std::sync::Arc;

/// Whether a piece begins with a key that isn't above this one.
pub(crate) fn begins_by<K: Ord, V, P: Piece<K, V>, Q: Seek<K>>(piece: &Arc<P>, key: &Q) -> bool
    requires { 0 < length (P.entries (arc_value piece.now)) }
    ensures { result ≡ Maps.begins_by K.cmp (P.entries (arc_value piece.now)) (Q.sought key.now) }
{
    key.order(piece.first()).is_le()
}

/// The last piece whose first key isn't above a key, or the first one, and how many keys it was
/// compared with.
pub(crate) fn seat<K: Ord, V, P: Piece<K, V>, Q: Seek<K>>(
    pieces: &[Arc<P>],
    key: &Q,
) -> (usize, u32)
    requires some { 0 < length pieces.now }
    requires fine { AreFine P.entries P.size P.least (values pieces.now) }
    ensures within { result.0 < length pieces.now }
    ensures before { (result.0 ≡ 0)
        ⊎ (Maps.begins_by K.cmp (flat_map P.entries (drop result.0 (values pieces.now)))
        (Q.sought key.now)
        ≡ true) }
    ensures after { Maps.begins_by K.cmp
        (flat_map P.entries (drop (result.0 + 1) (values pieces.now))) (Q.sought key.now)
        ≡ false }
    ensures cost { 2 ^ result.1 < 2 * length pieces.now }
{
    let mut low = 0;
    let mut high = pieces.len();
    let mut count = 0u32;
    while high - low > 1 {
        let middle = low + (high - low) / 2;
        count = count.saturating_add(1);
        if begins_by(&pieces[middle], key) {
            low = middle;
        } else {
            high = middle;
        }
    }
    (low, count)
}

/// The value of a key, and how many keys it was compared with.
pub(crate) fn found<'a, K: Ord, V, P: Piece<K, V>, Q: Seek<K>>(
    pieces: &'a [Arc<P>],
    key: &Q,
) -> (Option<&'a V>, u32)
    requires fine { AreFine P.entries P.size P.least (values pieces.now) }
    requires map { IsMap K.cmp (flat_map P.entries (values pieces.now)) }
    ensures value { option_map (λ v. v.now) result.0
        ≡ value_of K.cmp (flat_map P.entries (values pieces.now)) (Q.sought key.now) }
    ensures cost { 2 ^ result.1
        ≤ (length (flat_map P.entries (values pieces.now)) + 1) *
        (length (flat_map P.entries (values pieces.now)) + 1) }
    ensures most { 0 < length pieces.now
        → length pieces.now ≤ 64
        → 2 ^ result.1 ≤ 16 * P.least * (16 * P.least) }
{
    if pieces.is_empty() {
        return (None, 0);
    }
    let (at, searched) = seat(pieces, key);
    let (value, compared) = pieces[at].get(key);
    (value, searched.saturating_add(compared))
}

/// How many pairs the piece has.
pub(crate) fn len_of<K: Ord, V, P: Piece<K, V>>(piece: &Arc<P>) -> usize
    ensures { result ≡ length (P.entries (arc_value piece.now)) }
{
    piece.len()
}

/// How many pairs the pieces have, where a number can say it.
pub(crate) fn total<K: Ord, V, P: Piece<K, V>>(pieces: &[Arc<P>]) -> Option<usize>
    ensures { MatchOption result (2 ^ 64 ≤ length (flat_map P.entries (values pieces.now)))
        (λ n. n ≡ length (flat_map P.entries (values pieces.now))) }
{
    let mut sum = 0usize;
    for piece in pieces {
        let Some(more) = sum.checked_add(len_of::<K, V, P>(piece)) else {
            return None;
        };
        sum = more;
    }
    Some(sum)
}

/// How many pairs the pieces have, where a number can say it. They are counted unless it is known.
pub(crate) fn counted<K: Ord, V, P: Piece<K, V>>(
    pieces: &[Arc<P>],
    known: Option<usize>,
) -> Option<usize>
    requires { IfSome known (λ n. n ≡ length (flat_map P.entries (values pieces.now))) }
    ensures { MatchOption result (2 ^ 64 ≤ length (flat_map P.entries (values pieces.now)))
        (λ n. n ≡ length (flat_map P.entries (values pieces.now))) }
{
    match known {
        None => total::<K, V, P>(pieces),
        Some(len) => Some(len),
    }
}

/// The first pieces.
pub(crate) fn front_of<P>(pieces: &[Arc<P>], n: usize) -> &[Arc<P>]
    requires { n ≤ length pieces.now }
    ensures { result.now ≡ take n pieces.now }
{
    &pieces[..n]
}

/// How many keys are below this one, of pieces with so many pairs.
pub(crate) fn rank<K: Ord, V, P: Piece<K, V>>(pieces: &[Arc<P>], len: usize, key: &K) -> usize
    requires fine { AreFine P.entries P.size P.least (values pieces.now) }
    requires map { IsMap K.cmp (flat_map P.entries (values pieces.now)) }
    requires count { len ≡ length (flat_map P.entries (values pieces.now)) }
    ensures { result ≡ place_of K.cmp (flat_map P.entries (values pieces.now)) key.now }
{
    if pieces.is_empty() {
        return 0;
    }
    let (at, _) = seat(pieces, key);
    let Some(before) = total::<K, V, P>(front_of(pieces, at)) else {
        unreachable!()
    };
    before + pieces[at].rank(key)
}

/// The pairs from a place on, up to the end of their block.
pub(crate) fn rest<'a, K: Ord, V, P: Piece<K, V>>(
    pieces: &'a [Arc<P>],
    at: usize,
) -> &'a [Pair<K, V>]
    requires { at < length (flat_map P.entries (values pieces.now)) }
    ensures some { 0 < length result.now }
    ensures front { result.now
        ≡ take (length result.now) (drop at (flat_map P.entries (values pieces.now))) }
{
    let mut left = at;
    for piece in pieces {
        let len = len_of::<K, V, P>(piece);
        if left < len {
            return piece.rest(left);
        }
        left -= len;
    }
    unreachable!()
}
