//! Checkpoints.
ghost use Rattle.std.specs.Prelude.{◌≡◌};
ghost use Rattle.cat_desk.specs.Pass.{Keeps, mark_of, number_of};
ghost use Rattle.cat_model.specs.Mark.{Grows};
ghost use Rattle.cat_work.specs.Answers.{Knows, NoDraftIsNew, sweeps_in};
ghost use Rattle.cat_work.specs.Checkpoints.{ChecksTo};
ghost use Rattle.cat_work.specs.Passes.{IsAlone, IsReady};

use cat_core::Store;
use cat_desk::{Desk, Pass};
use cat_keeper::Keeper;
use cat_model::refusal::Refused;
use cat_model::reply::Told;
use std::alloc::Global;
use std::sync::Wait;

/// Makes the present state the journal's base, as the mark then tells. It makes no entry, reads no
/// clock and opens no draft.
pub fn checkpoint<R: Wait, K: Keeper>(
    rt: &R,
    alloc: Global,
    desk: &Desk<Store<K>>,
    pass: &mut Pass,
) -> Result<Told, Refused>
    requires ready { IsReady desk.now pass.old }
    ensures kept { Keeps desk.now pass.old pass.new }
    ensures ready { IsReady desk.now pass.new }
    ensures known { Knows desk.now pass.old pass.new result }
    ensures grows { Grows (mark_of pass.old) (mark_of pass.new) }
    ensures checks { ChecksTo desk.now pass.old pass.new result }
    ensures undrafted { NoDraftIsNew (number_of pass.old) (mark_of pass.old) (mark_of pass.new) }
    ensures unswept { IsAlone pass.old
        → sweeps_in (mark_of pass.new) ≡ sweeps_in (mark_of pass.old) }
{
    let mut held = desk.enter(rt, pass);
    held.value.history();
    held.value.sweep_is_told();
    let told = held.value.checkpoint(alloc, pass.number());
    held.value.history();
    desk.leave(held, pass);
    told
}
