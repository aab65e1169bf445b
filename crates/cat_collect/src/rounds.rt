//! The opening of a collection, and the rounds between it and the settling.

ghost use Rattle.std.specs.Prelude.{◌≡◌, ◌<◌, ◌≤◌, ℕ, IfErr, IfOk, IsTrue, length, Err};
ghost use Rattle.cat_checks.specs.Histories.{IsLegalFrom};
ghost use Rattle.cat_desk.specs.Pass.{IsFree, Keeps, known, left_by, seen, turn_of};
ghost use Rattle.cat_desk.specs.declared.pass.Pass.{Pass};
ghost use Rattle.cat_frames.specs.Sweeps.{resolved_is_logged};
ghost use Rattle.cat_model.specs.declared.cutoff.Resolved.{Resolved};
ghost use Rattle.cat_model.specs.Drafts.{nothing_open};
ghost use Rattle.cat_collect.specs.Turns.{Comes, GoesAfter, GoesWith, Going, Holds, is_nothing, out_of_memory};
ghost use Rattle.cat_model.specs.Turns.{place_after};

use crate::marking::mark;
use crate::turns::{drain, give_up, open};
use cat_core::{Store, Sweep};
use cat_desk::{Desk, Gate, Pass};
use cat_keeper::Keeper;
use cat_mark::{Marks, Roots};
use cat_model::cutoff::Resolved;
use cat_model::refusal::{Refusal, Refused};
use std::alloc::Global;
use std::sync::Wait;
use std::thread::Threads;

/// A sweep that is open, and the marks of all that its caller was given. It must be spent.
pub(crate) struct Marking {
    pub(crate) sweep: Sweep,
    pub(crate) marks: Marks,
}

/// What a round comes to.
pub(crate) enum Round {
    /// Memory ran out, and the sweep is dropped.
    Failed,
    /// Nothing was missing.
    Still(Marking),
    /// What was missing is marked.
    On(Marking),
}

/// The refusal for want of memory, which has no place.
pub(crate) fn out_of_memory() -> Refused
    ensures { result ≡ out_of_memory }
{
    Refused {
        place: None,
        why: Refusal::NoMemory,
    }
}

/// Whether roots keep nothing.
fn is_nothing(roots: &Roots) -> bool
    ensures { result ≡ is_nothing roots.now }
{
    roots.heads.len() == 0 && roots.hashes.len() == 0
}

/// Opens the sweep, and marks what its roots keep.
pub(crate) fn begin<R: Wait + Threads + Sync, K: Keeper>(
    rt: &R,
    alloc: Global,
    desk: &Desk<Store<K>>,
    pass: &mut Pass,
    policy: Resolved,
    workers: u32,
) -> Result<Marking, Refused>
    requires free { IsFree desk.now pass.old }
    requires none { left_by pass.old ≡ nothing_open }
    requires few { length policy.cutoffs ≤ 1000 }
    requires logged { IsTrue (resolved_is_logged policy) }
    requires workers { (1 ≤ workers) × (workers ≤ 64) }
    ensures kept { Keeps desk.now pass.old pass.new }
    ensures known { (known pass.old ≤ place_after desk.now.opened (seen pass.new))
        × (known pass.new ≡ place_after desk.now.opened (seen pass.new)) }
    ensures turn { turn_of pass.old < turn_of pass.new }
    ensures legal { IsLegalFrom desk.now.opened (seen pass.new) }
    ensures begun { IfOk result (λ m. GoesWith desk.now policy pass.old pass.new m) }
    ensures refused { IfErr result
        (λ r. (moment : ℕ) → Comes desk.now policy moment pass.old pass.new (Err r)) }
{
    match open(rt, alloc, desk, pass, policy) {
        Ok((sweep, roots, view)) => {
            let mut marks = Marks::empty(alloc);
            match mark(rt, alloc, &mut marks, roots, view, workers) {
                Ok(()) => Ok(Marking { sweep, marks }),
                Err(_) => {
                    drop(marks);
                    give_up(rt, desk, pass, sweep);
                    Err(out_of_memory())
                }
            }
        }
        Err(refused) => Err(refused),
    }
}

/// A round: the gate is asked, and what was made and named since the last turn is marked.
pub(crate) fn next_round<R: Wait + Threads + Sync, K: Keeper, G: Gate>(
    rt: &R,
    alloc: Global,
    desk: &Desk<Store<K>>,
    pass: &mut Pass,
    gate: &mut G,
    number: u32,
    workers: u32,
    marking: Marking,
) -> Round
    requires free { IsFree desk.now pass.old }
    requires gate { G.ready gate.old }
    requires workers { (1 ≤ workers) × (workers ≤ 64) }
    requires holds { Holds desk.now pass.old marking.sweep marking.marks }
    ensures kept { Keeps desk.now pass.old pass.new }
    ensures gate { G.ready gate.new × (G.desks gate.new ≡ G.desks gate.old) }
    ensures known { (known pass.old ≤ place_after desk.now.opened (seen pass.new))
        × (known pass.new ≡ place_after desk.now.opened (seen pass.new)) }
    ensures turn { turn_of pass.old < turn_of pass.new }
    ensures legal { IsLegalFrom desk.now.opened (seen pass.new) }
    ensures goes { (policy : Resolved) (first : Pass) → Going desk.now policy first pass.old
        → GoesAfter desk.now policy first pass.new result }
{
    let Marking { sweep, mut marks } = marking;
    gate.between(pass, number);
    let Ok((roots, view)) = drain(rt, alloc, desk, pass, &sweep) else {
        drop(marks);
        give_up(rt, desk, pass, sweep);
        return Round::Failed;
    };
    if is_nothing(&roots) {
        drop(roots);
        drop(view);
        return Round::Still(Marking { sweep, marks });
    }
    match mark(rt, alloc, &mut marks, roots, view, workers) {
        Ok(()) => Round::On(Marking { sweep, marks }),
        Err(_) => {
            drop(marks);
            give_up(rt, desk, pass, sweep);
            Round::Failed
        }
    }
}
