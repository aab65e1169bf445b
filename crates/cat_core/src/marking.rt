//! What sweeps keep of a catalogue.

ghost use Rattle.std.specs.Prelude.{◌≡◌, ◌≤◌, ◌+◌, IfOk, OnOk, length};
ghost use Rattle.cat_model.specs.Base.{is_among};
ghost use Rattle.cat_mark.specs.Marks.{AddsAll, is_marked, live_of};
ghost use Rattle.cat_mark.specs.Walked.{HaveWalked};
ghost use Rattle.cat_core.specs.Sweeping.{rooted};

use crate::rooting::roots_taken;
use cat_codes::fault::NoMemory;
use cat_mark::{Marks, Roots};
use cat_model::reference::Reference;
use cat_model::sweep::Sweep;
use cat_names::hash::Hash;
use cat_state::catalogue::Catalogue;
use std::alloc::Global;

/// Marks each of the contents.
fn mark_contents(marks: &mut Marks, hashes: &[Hash]) -> Result<(), NoMemory>
    ensures { OnOk result (AddsAll marks.old.set marks.new.set hashes.now) }
{
    for hash in hashes {
        marks.add(*hash)?;
    }
    Ok(())
}

/// Marks what roots keep.
pub(crate) fn mark_roots(
    marks: &mut Marks,
    catalogue: &Catalogue,
    roots: &Roots,
) -> Result<(), NoMemory>
    requires { HaveWalked catalogue.now.commits marks.old }
    ensures { OnOk result
        (AddsAll marks.old.set marks.new.set (live_of catalogue.now.commits roots.now)) }
{
    let heads = roots.heads.as_slice();
    marks.mark_heads(catalogue.commits(), catalogue.maps(), heads)?;
    mark_contents(marks, roots.hashes.as_slice())
}

/// What is live now, what is live from the references that the entries since a sweep's opening
/// took, and what its names keep. The entries go on from a place.
pub(crate) fn marks_of(
    alloc: Global,
    catalogue: &Catalogue,
    first: u32,
    taken: &[Option<Reference>],
    sweep: &Sweep,
) -> Result<Marks, NoMemory>
    requires since { first ≤ sweep.now.opened }
    requires opened { sweep.now.opened ≤ first + length taken.now }
    ensures { IfOk result
        (λ marks. (hash : Hash)
        → is_marked marks.set hash
        ≡ is_among (rooted first catalogue.now taken.now sweep.now) hash) }
{
    let since = (sweep.opened - first) as usize;
    let roots = roots_taken(
        alloc,
        &sweep.policy,
        catalogue.references(),
        &taken[since..],
        sweep.commits.as_slice(),
        sweep.contents.as_slice(),
    )?;
    let mut marks = Marks::empty(alloc);
    mark_roots(&mut marks, catalogue, &roots)?;
    Ok(marks)
}
