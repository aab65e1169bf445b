//! The turns of a collection: each finds the store in one state and leaves it in another.

ghost use Rattle.std.specs.Prelude.{◌≡◌, ◌<◌, ◌≤◌, IfErr, IfOk, IsTrue, OnErr, length};
ghost use Rattle.cat_checks.specs.Histories.{IsLegalFrom};
ghost use Rattle.cat_desk.specs.Pass.{IsFree, Keeps, known, seen, turn_of};
ghost use Rattle.cat_frames.specs.Sweeps.{resolved_is_logged};
ghost use Rattle.cat_collect.specs.Turns.{DrainsIn, DropsIn, Holds, IsOpenIn, LeavesIn, OpensNone, OpensSweep, SettlesIn};
ghost use Rattle.cat_model.specs.Turns.{place_after};

use cat_codes::fault::NoMemory;
use cat_core::{Store, Sweep, View};
use cat_desk::{Desk, Pass};
use cat_keeper::Keeper;
use cat_mark::{Marks, Roots};
use cat_model::cutoff::Resolved;
use cat_model::moment::Moment;
use cat_model::refusal::Refused;
use cat_model::reply::Told;
use std::alloc::Global;
use std::sync::Wait;

/// Opens a sweep.
pub(crate) fn open<R: Wait, K: Keeper>(
    rt: &R,
    alloc: Global,
    desk: &Desk<Store<K>>,
    pass: &mut Pass,
    policy: Resolved,
) -> Result<(Sweep, Roots, View), Refused>
    requires free { IsFree desk.now pass.old }
    requires few { length policy.cutoffs ≤ 1000 }
    requires logged { IsTrue (resolved_is_logged policy) }
    ensures kept { Keeps desk.now pass.old pass.new }
    ensures known { (known pass.old ≤ place_after desk.now.opened (seen pass.new))
        × (known pass.new ≡ place_after desk.now.opened (seen pass.new)) }
    ensures turn { turn_of pass.old < turn_of pass.new }
    ensures legal { IsLegalFrom desk.now.opened (seen pass.new) }
    ensures opened { IfOk result
        (λ t. OpensSweep K desk.now policy pass.old pass.new t.0 t.1 t.2) }
    ensures refused { IfErr result (λ r. OpensNone K desk.now pass.old pass.new r) }
{
    let mut held = desk.enter(rt, pass);
    held.value.history();
    held.value.sweep_is_told();
    let opened = held.value.open_sweep(alloc, pass.number(), policy);
    held.value.history();
    held.value.sweep_is_told();
    desk.leave(held, pass);
    opened
}

/// Asks for the roots of what the sweep has to keep beside what they were given before.
pub(crate) fn drain<R: Wait, K: Keeper>(
    rt: &R,
    alloc: Global,
    desk: &Desk<Store<K>>,
    pass: &mut Pass,
    sweep: &Sweep,
) -> Result<(Roots, View), NoMemory>
    requires free { IsFree desk.now pass.old }
    requires own { IsOpenIn pass.old sweep.now }
    ensures kept { Keeps desk.now pass.old pass.new }
    ensures known { (known pass.old ≤ place_after desk.now.opened (seen pass.new))
        × (known pass.new ≡ place_after desk.now.opened (seen pass.new)) }
    ensures turn { turn_of pass.old < turn_of pass.new }
    ensures legal { IsLegalFrom desk.now.opened (seen pass.new) }
    ensures drained { IfOk result (λ t. DrainsIn K desk.now pass.old pass.new t.0 t.1) }
    ensures stays { OnErr result (LeavesIn K desk.now pass.old pass.new) }
{
    let mut held = desk.enter(rt, pass);
    held.value.history();
    held.value.sweep_is_told();
    let drained = held.value.drain(alloc, sweep);
    held.value.history();
    held.value.sweep_is_told();
    desk.leave(held, pass);
    drained
}

/// Settles a sweep by its marks.
pub(crate) fn settle<R: Wait, K: Keeper>(
    rt: &R,
    alloc: Global,
    desk: &Desk<Store<K>>,
    pass: &mut Pass,
    sweep: Sweep,
    marks: Marks,
    moment: Moment,
) -> Result<Told, Refused>
    requires free { IsFree desk.now pass.old }
    requires holds { Holds desk.now pass.old sweep marks }
    ensures kept { Keeps desk.now pass.old pass.new }
    ensures known { (known pass.old ≤ place_after desk.now.opened (seen pass.new))
        × (known pass.new ≡ place_after desk.now.opened (seen pass.new)) }
    ensures turn { turn_of pass.old < turn_of pass.new }
    ensures legal { IsLegalFrom desk.now.opened (seen pass.new) }
    ensures settled { SettlesIn K desk.now pass.old pass.new moment result }
{
    let mut held = desk.enter(rt, pass);
    held.value.history();
    held.value.sweep_is_told();
    let settled = held.value.sweep(alloc, sweep, marks, moment);
    held.value.history();
    held.value.sweep_is_told();
    desk.leave(held, pass);
    settled
}

/// Drops a sweep.
pub(crate) fn give_up<R: Wait, K: Keeper>(
    rt: &R,
    desk: &Desk<Store<K>>,
    pass: &mut Pass,
    sweep: Sweep,
)
    requires free { IsFree desk.now pass.old }
    requires own { IsOpenIn pass.old sweep }
    ensures kept { Keeps desk.now pass.old pass.new }
    ensures known { (known pass.old ≤ place_after desk.now.opened (seen pass.new))
        × (known pass.new ≡ place_after desk.now.opened (seen pass.new)) }
    ensures turn { turn_of pass.old < turn_of pass.new }
    ensures legal { IsLegalFrom desk.now.opened (seen pass.new) }
    ensures dropped { DropsIn K desk.now pass.old pass.new }
{
    let mut held = desk.enter(rt, pass);
    held.value.history();
    held.value.sweep_is_told();
    held.value.drop_sweep(sweep);
    held.value.history();
    held.value.sweep_is_told();
    desk.leave(held, pass);
}
