//! Runs of pieces.

ghost use Rattle.std.specs.Prelude.{◌≡◌, ◌*◌, ◌+◌, ◌<◌, ◌≤◌, None, IfOk, IfSome, IsTrue, length};
ghost use Rattle.std.specs.List.{flat_map};
ghost use Rattle.cat_ordered.specs.Pieces.{AreFine, Cuts};
ghost use Rattle.cat_ordered.specs.Shared.{values};

use crate::change::Change;
use crate::next::next_of;
use crate::owned::Grown;
use crate::pair::Pair;
use crate::piece::{LEAST, MOST, Made, Piece};
use crate::seek::Seek;
use crate::{growing, owned, pieces};
use std::alloc::{AllocError, Global};
use std::marker::{Model, PhantomData};
use std::sync::Arc;

/// Pieces in the order of their keys, which versions of a map share, and how many pairs they have.
#[derive(Drop)]
pub(crate) struct Run<K: Ord, V, P: Piece<K, V>> {
    pieces: Vec<Arc<P>>,
    len: usize,
    of: PhantomData<(K, V)>,
}

impl<K: Ord, V, P: Piece<K, V>> Model for Run<K, V, P> {
    ghost use Rattle.std.specs.Prelude.{length};
    ghost use Rattle.std.specs.List.{flat_map};
    ghost use Rattle.cat_ordered.specs.Pieces.{Shape, IsRun};
    ghost use Rattle.cat_ordered.specs.Shared.{values};

    ghost Value = { Shape K V };

    ghost view = { λ r. record {
      entries = flat_map P.entries (values r.pieces.items);
      size = length r.pieces.items;
    } };

    ghost invariant = { λ r. IsRun P.entries P.size P.least (values r.pieces.items) r.len };
}

/// A run of pieces; refused where no number can say how many pairs they have.
fn run_of<K: Ord, V, P: Piece<K, V>>(pieces: Vec<Arc<P>>) -> Result<Run<K, V, P>, AllocError>
    requires { AreFine P.entries P.size P.least (values pieces.items) }
    ensures { IfOk result
        (λ r. r
        ≡ record {
          entries = flat_map P.entries (values pieces.items);
          size = length pieces.items;
        }) }
{
    let Some(len) = pieces::total::<K, V, P>(pieces.as_slice()) else {
        return Err(AllocError);
    };
    Ok(Run {
        pieces,
        len,
        of: PhantomData,
    })
}

/// Pieces that are too many for one run, as runs of 16 and a last one of at most 32.
fn cut_runs<K: Ord, V, P: Piece<K, V>>(
    alloc: Global,
    pieces: Vec<Arc<P>>,
) -> Result<Vec<Arc<Run<K, V, P>>>, AllocError>
    requires fine { AreFine P.entries P.size P.least (values pieces.items) }
    requires many { 32 < length pieces.items }
    ensures { IfOk result
        (λ v. Cuts (λ r. r.entries) (λ r. r.size) (16 * P.least)
        (flat_map P.entries (values pieces.items)) (length pieces.items) (values v.items)) }
{
    let mut out = Vec::new(alloc);
    let mut rest = pieces.into_iter();
    while rest.len() > MOST {
        let front = next_of(alloc, &mut rest, LEAST)?;
        let run = run_of(front)?;
        out.push(Arc::new(alloc, run)?)?;
    }
    let left = rest.len();
    let last = next_of(alloc, &mut rest, left)?;
    let run = run_of(last)?;
    out.push(Arc::new(alloc, run)?)?;
    Ok(out)
}

/// Pieces as runs of at most 32.
fn runs<K: Ord, V, P: Piece<K, V>>(
    alloc: Global,
    pieces: Vec<Arc<P>>,
) -> Result<Vec<Arc<Run<K, V, P>>>, AllocError>
    requires { AreFine P.entries P.size P.least (values pieces.items) }
    ensures { IfOk result
        (λ v. Cuts (λ r. r.entries) (λ r. r.size) (16 * P.least)
        (flat_map P.entries (values pieces.items)) (length pieces.items) (values v.items)) }
{
    if pieces.len() > MOST {
        return cut_runs(alloc, pieces);
    }
    let mut out = Vec::new(alloc);
    if pieces.is_empty() {
        return Ok(out);
    }
    let run = run_of(pieces)?;
    out.push(Arc::new(alloc, run)?)?;
    Ok(out)
}

/// Pieces as one run, given how many pairs they have.
fn one_run<K: Ord, V, P: Piece<K, V>>(
    alloc: Global,
    pieces: Vec<Arc<P>>,
    len: usize,
) -> Result<Vec<Arc<Run<K, V, P>>>, AllocError>
    requires fine { AreFine P.entries P.size P.least (values pieces.items) }
    requires some { 0 < length pieces.items }
    requires few { length pieces.items ≤ 64 }
    requires count { len ≡ length (flat_map P.entries (values pieces.items)) }
    ensures { IfOk result
        (λ v. Cuts (λ r. r.entries) (λ r. r.size) (16 * P.least)
        (flat_map P.entries (values pieces.items)) (length pieces.items) (values v.items)) }
{
    let run = Run {
        pieces,
        len,
        of: PhantomData,
    };
    let mut out = Vec::new(alloc);
    out.push(Arc::new(alloc, run)?)?;
    Ok(out)
}

/// Pieces as runs of at most 32. They aren't counted where it is known how many pairs they have,
/// and one run is enough.
fn counted_runs<K: Ord, V, P: Piece<K, V>>(
    alloc: Global,
    pieces: Vec<Arc<P>>,
    len: Option<usize>,
) -> Result<Vec<Arc<Run<K, V, P>>>, AllocError>
    requires fine { AreFine P.entries P.size P.least (values pieces.items) }
    requires count { IfSome len (λ n. n ≡ length (flat_map P.entries (values pieces.items))) }
    ensures { IfOk result
        (λ v. Cuts (λ r. r.entries) (λ r. r.size) (16 * P.least)
        (flat_map P.entries (values pieces.items)) (length pieces.items) (values v.items)) }
{
    let Some(len) = len else {
        return runs(alloc, pieces);
    };
    if pieces.is_empty() {
        return runs(alloc, pieces);
    }
    if pieces.len() > MOST {
        return runs(alloc, pieces);
    }
    one_run(alloc, pieces, len)
}

impl<K: Ord, V, P: Piece<K, V>> Piece<K, V> for Run<K, V, P> {
    ghost entries = { λ r. r.entries };

    ghost size = { λ r. r.size };

    ghost least = { 16 * P.least };

    ghost rate = { P.rate + 128 };

    fn empty(alloc: Global) -> Run<K, V, P> {
        Run {
            pieces: Vec::new(alloc),
            len: 0,
            of: PhantomData,
        }
    }

    fn len(&self) -> usize {
        self.len
    }

    fn parts(&self) -> usize {
        self.pieces.len()
    }

    fn first(&self) -> &K {
        self.pieces[0].first()
    }

    fn get<Q: Seek<K>>(&self, key: &Q) -> (Option<&V>, u32) {
        pieces::found(self.pieces.as_slice(), key)
    }

    fn rank(&self, key: &K) -> usize {
        pieces::rank(self.pieces.as_slice(), self.len, key)
    }

    fn rest(&self, at: usize) -> &[Pair<K, V>] {
        pieces::rest(self.pieces.as_slice(), at)
    }

    fn changed(
        &self,
        alloc: Global,
        changes: &[Change<K, V>],
    ) -> Result<Made<Run<K, V, P>>, AllocError> {
        let made = growing::changed(alloc, self.pieces.as_slice(), changes)?;
        Ok(Made {
            pieces: runs(alloc, made.pieces)?,
            copied: made.copied,
        })
    }

    fn into_changed(
        self,
        alloc: Global,
        changes: &[Change<K, V>],
    ) -> Result<Made<Run<K, V, P>>, AllocError> {
        let Grown { made, len } = owned::into_changed(alloc, self.pieces, self.len, changes)?;
        Ok(Made {
            pieces: counted_runs(alloc, made.pieces, len)?,
            copied: made.copied,
        })
    }

    fn joined(&self, alloc: Global, next: &Run<K, V, P>) -> Result<Made<Run<K, V, P>>, AllocError> {
        let room = self.pieces.len().saturating_add(next.pieces.len());
        let mut out = Vec::with_capacity(alloc, room)?;
        growing::share_all(&mut out, self.pieces.as_slice())?;
        let copied = growing::append_all::<K, V, P>(alloc, &mut out, next.pieces.as_slice())?;
        Ok(Made {
            pieces: runs(alloc, out)?,
            copied,
        })
    }
}
