//! Lists of pieces that changes make.

ghost use Rattle.std.specs.Prelude.{◌≡◌, ◌⊎◌, ◌<◌, ◌≤◌, ◌+◌, ◌*◌, ◌++◌, [], ◌∷◌, None, IfOk, OnOk, IsTrue, true, false, length, take, drop};
ghost use Rattle.std.specs.Arc.{arc_value};
ghost use Rattle.std.specs.List.{flat_map};
ghost use Rattle.cat_codes.specs.Code.{ascends};
ghost use Rattle.cat_ordered.specs.Maps.{IsMap, after_changes, share_of};
ghost use Rattle.cat_ordered.specs.Pieces.{IsPiece, AreFine, debt, Makes, Appends, AppendsAll};
ghost use Rattle.cat_ordered.specs.Shared.{values};

use crate::change::Change;
use crate::piece::{LEAST, Made, Piece};
use crate::pieces::{begins_by, front_of, seat};
use std::alloc::{AllocError, Global};
use std::sync::Arc;

/// Adds owners of the pieces.
pub(crate) fn share_all<P: Drop>(out: &mut Vec<Arc<P>>, pieces: &[Arc<P>]) -> Result<(), AllocError>
    ensures { OnOk result (values out.new.items ≡ values out.old.items ++ values pieces.now) }
{
    for piece in pieces {
        out.push(Arc::try_clone(piece)?)?;
    }
    Ok(())
}

/// Whether both have the fewest parts that pieces with neighbours have, or more.
fn are_large<K: Ord, V, P: Piece<K, V>>(a: &Arc<P>, b: &Arc<P>) -> bool
    ensures large { result ≡ true
        → (16 ≤ P.size (arc_value a.now)) × (16 ≤ P.size (arc_value b.now)) }
    ensures small { result ≡ false
        → 16 ≤ P.size (arc_value a.now)
        → 16 ≤ P.size (arc_value b.now)
        → ⊥ }
{
    a.parts() >= LEAST && b.parts() >= LEAST
}

/// Adds an owner of the piece.
fn push_owner<P: Drop>(out: &mut Vec<Arc<P>>, piece: &Arc<P>) -> Result<(), AllocError>
    ensures { OnOk result
        (values out.new.items ≡ values out.old.items ++ arc_value piece.now ∷ []) }
{
    out.push(Arc::try_clone(piece)?)?;
    Ok(())
}

/// Adds the piece that was last and the next one, joined where one of them is small, and answers
/// how many pairs were copied.
fn append_after<K: Ord, V, P: Piece<K, V>>(
    alloc: Global,
    out: &mut Vec<Arc<P>>,
    last: Arc<P>,
    next: &Arc<P>,
) -> Result<u64, AllocError>
    requires fine { AreFine P.entries P.size P.least (values out.old.items ++ arc_value last ∷ []) }
    requires piece { IsPiece (P.entries (arc_value next.now)) (P.size (arc_value next.now))
        P.least }
    ensures { IfOk result
        (λ copied. Appends P.entries P.size P.least (values out.old.items ++ arc_value last ∷ [])
        (arc_value next.now) (values out.new.items) copied) }
{
    if are_large::<K, V, P>(&last, next) {
        out.push(last)?;
        push_owner(out, next)?;
        return Ok(0);
    }
    let joined = last.joined(alloc, next)?;
    share_all(out, joined.pieces.as_slice())?;
    Ok(joined.copied)
}

/// Adds a piece, joined with the last one where one of them is small, and answers how many pairs
/// were copied.
fn append<K: Ord, V, P: Piece<K, V>>(
    alloc: Global,
    out: &mut Vec<Arc<P>>,
    next: &Arc<P>,
) -> Result<u64, AllocError>
    requires fine { AreFine P.entries P.size P.least (values out.old.items) }
    requires piece { IsPiece (P.entries (arc_value next.now)) (P.size (arc_value next.now))
        P.least }
    ensures { IfOk result
        (λ copied. Appends P.entries P.size P.least (values out.old.items) (arc_value next.now)
        (values out.new.items) copied) }
{
    match out.pop() {
        None => {
            push_owner(out, next)?;
            Ok(0)
        }
        Some(last) => {
            let copied = append_after::<K, V, P>(alloc, out, last, next)?;
            Ok(copied)
        }
    }
}

/// Adds pieces, the first one joined where it or the last one is small, and answers how many pairs
/// were copied.
pub(crate) fn append_all<K: Ord, V, P: Piece<K, V>>(
    alloc: Global,
    out: &mut Vec<Arc<P>>,
    pieces: &[Arc<P>],
) -> Result<u64, AllocError>
    requires fine { AreFine P.entries P.size P.least (values out.old.items) }
    requires pieces { AreFine P.entries P.size P.least (values pieces.now) }
    ensures { IfOk result
        (λ copied. AppendsAll P.entries P.size P.least (values out.old.items) (values pieces.now)
        (values out.new.items) copied) }
{
    if pieces.is_empty() {
        return Ok(0);
    }
    let copied = append::<K, V, P>(alloc, out, &pieces[0])?;
    share_all(out, rest_of(pieces, 1))?;
    Ok(copied)
}

/// How many changes come before the pieces that follow.
fn share<K: Ord, V, P: Piece<K, V>>(changes: &[Change<K, V>], others: &[Arc<P>]) -> usize
    requires { AreFine P.entries P.size P.least (values others.now) }
    ensures share { result ≡ share_of K.cmp changes.now (flat_map P.entries (values others.now)) }
    ensures bound { result ≤ length changes.now }
{
    if others.is_empty() {
        return changes.len();
    }
    let next = &others[0];
    for (i, change) in changes.iter().enumerate() {
        if begins_by(next, change.key()) {
            return i;
        }
    }
    changes.len()
}

/// The pieces from a place on.
fn rest_of<P>(pieces: &[Arc<P>], n: usize) -> &[Arc<P>]
    requires { n ≤ length pieces.now }
    ensures { result.now ≡ drop n pieces.now }
{
    &pieces[n..]
}

/// The first changes.
fn first_changes<K, V>(changes: &[Change<K, V>], n: usize) -> &[Change<K, V>]
    requires { n ≤ length changes.now }
    ensures { result.now ≡ take n changes.now }
{
    &changes[..n]
}

/// The changes from a place on.
fn other_changes<K, V>(changes: &[Change<K, V>], n: usize) -> &[Change<K, V>]
    requires { n ≤ length changes.now }
    ensures { result.now ≡ drop n changes.now }
{
    &changes[n..]
}

/// Adds what changes make of a piece, and answers how many pairs were copied.
fn add<K: Ord, V, P: Piece<K, V>>(
    alloc: Global,
    out: &mut Vec<Arc<P>>,
    piece: &Arc<P>,
    changes: &[Change<K, V>],
) -> Result<u64, AllocError>
    requires fine { AreFine P.entries P.size P.least (values out.old.items) }
    requires piece { IsPiece (P.entries (arc_value piece.now)) (P.size (arc_value piece.now))
        P.least }
    requires map { IsMap K.cmp (P.entries (arc_value piece.now)) }
    requires ascend { IsTrue (ascends K.cmp None changes.now) }
    requires some { 0 < length changes.now }
    ensures made { OnOk result
        (Makes P.entries P.size P.least
        (flat_map P.entries (values out.old.items)
        ++ after_changes K.cmp changes.now (P.entries (arc_value piece.now)))
        (values out.new.items)) }
    ensures spent { IfOk result
        (λ copied. copied + debt P.entries P.size P.least (values out.new.items)
        ≤ debt P.entries P.size P.least (values out.old.items)
        + (P.rate + 128) * length changes.now) }
{
    let made = piece.changed(alloc, changes)?;
    let appended = append_all::<K, V, P>(alloc, out, made.pieces.as_slice())?;
    Ok(made.copied.saturating_add(appended))
}

/// The pieces after changes, whose keys ascend; those that no change meets are shared.
pub(crate) fn changed<K: Ord, V, P: Piece<K, V>>(
    alloc: Global,
    pieces: &[Arc<P>],
    changes: &[Change<K, V>],
) -> Result<Made<P>, AllocError>
    requires fine { AreFine P.entries P.size P.least (values pieces.now) }
    requires map { IsMap K.cmp (flat_map P.entries (values pieces.now)) }
    requires ascend { IsTrue (ascends K.cmp None changes.now) }
    requires some { 0 < length changes.now }
    ensures made { IfOk result
        (λ made. Makes P.entries P.size P.least
        (after_changes K.cmp changes.now (flat_map P.entries (values pieces.now)))
        (values made.pieces.items)) }
    ensures few { IfOk result (λ made. made.copied ≤ (P.rate + 128) * length changes.now) }
{
    if pieces.is_empty() {
        let made = P::empty(alloc).changed(alloc, changes)?;
        return Ok(made);
    }
    let mut out = Vec::with_capacity(alloc, pieces.len().saturating_add(1))?;
    let mut copied = 0u64;
    let mut rest = pieces;
    let mut left = changes;
    while !left.is_empty() {
        let (at, _) = seat(rest, left[0].key());
        let front = front_of(rest, at);
        let others = rest_of(rest, at + 1);
        let later = other_changes(left, 1);
        let n = 1 + share(later, others);
        let first = first_changes(left, n);
        let joined = append_all::<K, V, P>(alloc, &mut out, front)?;
        let copies = add(alloc, &mut out, &rest[at], first)?;
        copied = copied.saturating_add(joined).saturating_add(copies);
        rest = others;
        left = other_changes(left, n);
    }
    let last = append_all::<K, V, P>(alloc, &mut out, rest)?;
    Ok(Made {
        pieces: out,
        copied: copied.saturating_add(last),
    })
}
