//! What roots keep, marked on a view.

ghost use Rattle.std.specs.Prelude.{◌≤◌, OnOk};
ghost use Rattle.cat_mark.specs.Marks.{AddsAll, live_of};
ghost use Rattle.cat_mark.specs.Walked.{HaveWalked};

use cat_codes::fault::NoMemory;
use cat_core::View;
use cat_mark::{Marks, Roots};
use std::alloc::Global;
use std::thread::Threads;

/// Marks what roots keep, by so many workers, where what was walked before was walked on a
/// catalogue with these commits or fewer. The view is given up as soon as it isn't needed.
pub(crate) fn mark<R: Threads + Sync>(
    rt: &R,
    alloc: Global,
    marks: &mut Marks,
    roots: Roots,
    view: View,
    workers: u32,
) -> Result<(), NoMemory>
    requires some { 1 ≤ workers }
    requires few { workers ≤ 64 }
    requires walked { HaveWalked view.commits marks.old }
    ensures adds { OnOk result (AddsAll marks.old.set marks.new.set (live_of view.commits roots)) }
    ensures walked { OnOk result (HaveWalked view.commits marks.new) }
{
    let catalogue = view.catalogue();
    let marked = marks.mark_all(
        rt,
        alloc,
        catalogue.commits(),
        catalogue.maps(),
        &roots,
        workers,
    );
    drop(view);
    marked
}
