//! Lists of pieces that a change makes in the pieces' own memory.

ghost use Rattle.std.specs.Prelude.{◌≡◌, ◌<◌, ◌≤◌, ◌+◌, ◌*◌, ◌++◌, None, IfOk, IfSome, IsTrue, true, length, take, drop};
ghost use Rattle.std.specs.Arc.{arc_value};
ghost use Rattle.std.specs.List.{flat_map};
ghost use Rattle.cat_codes.specs.Code.{ascends};
ghost use Rattle.cat_ordered.specs.Maps.{IsMap, after_changes};
ghost use Rattle.cat_ordered.specs.Pieces.{ArePieces, AreLarge, AreFine, Makes, Inserts};
ghost use Rattle.cat_ordered.specs.Shared.{values};

use crate::change::Change;
use crate::growing::{append_all, changed};
use crate::piece::{LEAST, Made, Piece};
use crate::pieces::{len_of, seat};
use std::alloc::{AllocError, Global};
use std::sync::Arc;

/// Pieces that changes made, and how many pairs they have, where that is known without counting.
#[derive(Drop)]
pub(crate) struct Grown<P> {
    pub(crate) made: Made<P>,
    pub(crate) len: Option<usize>,
}

/// What changes make of a piece, in its own memory where nobody else owns it.
fn changed_piece<K: Ord, V, P: Piece<K, V>>(
    alloc: Global,
    piece: Arc<P>,
    changes: &[Change<K, V>],
) -> Result<Made<P>, AllocError>
    requires map { IsMap K.cmp (P.entries (arc_value piece)) }
    requires ascend { IsTrue (ascends K.cmp None changes.now) }
    requires some { 0 < length changes.now }
    requires fits { P.size (arc_value piece) ≤ 64 }
    ensures made { IfOk result
        (λ made. Makes P.entries P.size P.least
        (after_changes K.cmp changes.now (P.entries (arc_value piece)))
        (values made.pieces.items)) }
    ensures few { IfOk result (λ made. made.copied ≤ P.rate * length changes.now) }
{
    match Arc::try_unwrap(piece) {
        Ok(own) => {
            let made = own.into_changed(alloc, changes)?;
            Ok(made)
        }
        Err(shared) => {
            let made = shared.changed(alloc, changes)?;
            Ok(made)
        }
    }
}

/// Whether it is one piece, which may have neighbours.
fn is_one_large<K: Ord, V, P: Piece<K, V>>(pieces: &[Arc<P>]) -> bool
    requires { AreFine P.entries P.size P.least (values pieces.now) }
    ensures { result ≡ true
        → (length pieces.now ≡ 1) × AreLarge P.entries P.size P.least (values pieces.now) }
{
    if pieces.len() != 1 {
        return false;
    }
    pieces[0].parts() >= LEAST
}

/// Puts the only piece of a list in its place among others.
fn insert_one<P: Drop>(
    others: Vec<Arc<P>>,
    at: usize,
    one: Vec<Arc<P>>,
) -> Result<Vec<Arc<P>>, AllocError>
    requires within { at ≤ length others.items }
    requires one { length one.items ≡ 1 }
    ensures { IfOk result
        (λ v. values v.items
        ≡ take at (values others.items) ++ (values one.items ++ drop at (values others.items))) }
{
    let mut pieces = others;
    let mut left = one;
    let Some(piece) = left.pop() else {
        unreachable!()
    };
    pieces.insert(at, piece)?;
    Ok(pieces)
}

/// Puts pieces in their place among others, joined with their neighbours where one is small.
fn insert_all<K: Ord, V, P: Piece<K, V>>(
    alloc: Global,
    others: Vec<Arc<P>>,
    at: usize,
    made: Made<P>,
) -> Result<Made<P>, AllocError>
    requires within { at ≤ length others.items }
    requires pieces { ArePieces P.entries P.size P.least (values others.items) }
    requires large { AreLarge P.entries P.size P.least (values others.items) }
    requires fine { AreFine P.entries P.size P.least (values made.pieces.items) }
    ensures inserts { IfOk result
        (λ all. Inserts P.entries P.size P.least (values others.items) at
        (values made.pieces.items) (values all.pieces.items)) }
    ensures few { IfOk result (λ all. all.copied ≤ made.copied + 128) }
{
    let mut out = others;
    let back = out.split_off(at)?;
    let joined = append_all::<K, V, P>(alloc, &mut out, made.pieces.as_slice())?;
    let last = append_all::<K, V, P>(alloc, &mut out, back.as_slice())?;
    Ok(Made {
        pieces: out,
        copied: made.copied.saturating_add(joined).saturating_add(last),
    })
}

/// Puts what a piece became in its place among the others, which have so many pairs.
fn put_back<K: Ord, V, P: Piece<K, V>>(
    alloc: Global,
    others: Vec<Arc<P>>,
    at: usize,
    len: usize,
    made: Made<P>,
) -> Result<Grown<P>, AllocError>
    requires within { at ≤ length others.items }
    requires pieces { ArePieces P.entries P.size P.least (values others.items) }
    requires large { AreLarge P.entries P.size P.least (values others.items) }
    requires count { len ≡ length (flat_map P.entries (values others.items)) }
    requires fine { AreFine P.entries P.size P.least (values made.pieces.items) }
    ensures inserts { IfOk result
        (λ grown. Inserts P.entries P.size P.least (values others.items) at
        (values made.pieces.items) (values grown.made.pieces.items)) }
    ensures few { IfOk result (λ grown. grown.made.copied ≤ made.copied + 128) }
    ensures count { IfOk result
        (λ grown. IfSome grown.len
        (λ n. n ≡ length (flat_map P.entries (values grown.made.pieces.items)))) }
{
    if others.is_empty() {
        return Ok(Grown { made, len: None });
    }
    if is_one_large::<K, V, P>(made.pieces.as_slice()) {
        let Some(len) = len.checked_add(len_of::<K, V, P>(&made.pieces[0])) else {
            return Err(AllocError);
        };
        let pieces = insert_one(others, at, made.pieces)?;
        let copied = made.copied;
        return Ok(Grown {
            made: Made { pieces, copied },
            len: Some(len),
        });
    }
    let made = insert_all::<K, V, P>(alloc, others, at, made)?;
    Ok(Grown { made, len: None })
}

/// The pieces, which have so many pairs, after one change: that which it meets is changed in its
/// own memory where nobody else owns it, and the others stay as they are.
fn change_one<K: Ord, V, P: Piece<K, V>>(
    alloc: Global,
    pieces: Vec<Arc<P>>,
    len: usize,
    changes: &[Change<K, V>],
) -> Result<Grown<P>, AllocError>
    requires fine { AreFine P.entries P.size P.least (values pieces.items) }
    requires map { IsMap K.cmp (flat_map P.entries (values pieces.items)) }
    requires count { len ≡ length (flat_map P.entries (values pieces.items)) }
    requires pieces { 0 < length pieces.items }
    requires ascend { IsTrue (ascends K.cmp None changes.now) }
    requires one { length changes.now ≡ 1 }
    ensures made { IfOk result
        (λ grown. Makes P.entries P.size P.least
        (after_changes K.cmp changes.now (flat_map P.entries (values pieces.items)))
        (values grown.made.pieces.items)) }
    ensures few { IfOk result (λ grown. grown.made.copied ≤ P.rate + 128) }
    ensures count { IfOk result
        (λ grown. IfSome grown.len
        (λ n. n ≡ length (flat_map P.entries (values grown.made.pieces.items)))) }
{
    let (at, _) = seat(pieces.as_slice(), changes[0].key());
    let mut others = pieces;
    let piece = others.remove(at);
    let left = len - len_of::<K, V, P>(&piece);
    let made = changed_piece(alloc, piece, changes)?;
    let grown = put_back::<K, V, P>(alloc, others, at, left, made)?;
    Ok(grown)
}

/// The pieces, which have so many pairs, after changes, whose keys ascend, as by [`changed`]. By
/// one change the pieces that it meets are changed in their own memory where nobody else owns them.
pub(crate) fn into_changed<K: Ord, V, P: Piece<K, V>>(
    alloc: Global,
    pieces: Vec<Arc<P>>,
    len: usize,
    changes: &[Change<K, V>],
) -> Result<Grown<P>, AllocError>
    requires fine { AreFine P.entries P.size P.least (values pieces.items) }
    requires map { IsMap K.cmp (flat_map P.entries (values pieces.items)) }
    requires count { len ≡ length (flat_map P.entries (values pieces.items)) }
    requires ascend { IsTrue (ascends K.cmp None changes.now) }
    requires some { 0 < length changes.now }
    ensures made { IfOk result
        (λ grown. Makes P.entries P.size P.least
        (after_changes K.cmp changes.now (flat_map P.entries (values pieces.items)))
        (values grown.made.pieces.items)) }
    ensures few { IfOk result
        (λ grown. grown.made.copied ≤ (P.rate + 128) * length changes.now) }
    ensures count { IfOk result
        (λ grown. IfSome grown.len
        (λ n. n ≡ length (flat_map P.entries (values grown.made.pieces.items)))) }
{
    if pieces.is_empty() {
        let made = changed(alloc, pieces.as_slice(), changes)?;
        return Ok(Grown { made, len: None });
    }
    if changes.len() > 1 {
        let made = changed(alloc, pieces.as_slice(), changes)?;
        return Ok(Grown { made, len: None });
    }
    let grown = change_one(alloc, pieces, len, changes)?;
    Ok(grown)
}
