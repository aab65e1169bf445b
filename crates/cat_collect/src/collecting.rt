//! Collections.

ghost use Rattle.std.specs.Prelude.{◌≡◌, ◌≤◌, IsTrue, length};
ghost use Rattle.cat_checks.specs.Histories.{IsLegalFrom};
ghost use Rattle.cat_desk.specs.Pass.{Keeps, mark_of, seen};
ghost use Rattle.cat_frames.specs.Sweeps.{resolved_is_logged};
ghost use Rattle.cat_model.specs.Mark.{Grows};
ghost use Rattle.cat_policy.specs.Policies.{HasCounts, HasFew};
ghost use Rattle.cat_work.specs.Answers.{Knows};
ghost use Rattle.cat_work.specs.Passes.{IsReady};
ghost use Rattle.cat_collect.specs.Answers.{CollectsTo};
ghost use Rattle.cat_collect.specs.Turns.{Comes};

use crate::rounds::{Marking, Round, begin, next_round, out_of_memory};
use crate::turns::settle;
use cat_core::Store;
use cat_desk::{Desk, Gate, Pass};
use cat_io::Clock;
use cat_keeper::Keeper;
use cat_model::cutoff::Resolved;
use cat_model::moment::Moment;
use cat_model::refusal::Refused;
use cat_model::reply::Told;
use cat_policy::Policy;
use std::alloc::Global;
use std::sync::Wait;
use std::thread::Threads;

/// So many rounds come before the settling at most.
const MOST_ROUNDS: u32 = 4;

/// Collects under a policy at a moment.
fn collect_at<R: Wait + Threads + Sync, K: Keeper, G: Gate>(
    rt: &R,
    alloc: Global,
    desk: &Desk<Store<K>>,
    pass: &mut Pass,
    gate: &mut G,
    policy: Resolved,
    workers: u32,
    moment: Moment,
) -> Result<Told, Refused>
    requires ready { IsReady desk.now pass.old }
    requires gate { G.ready gate.old }
    requires few { length policy.cutoffs ≤ 1000 }
    requires logged { IsTrue (resolved_is_logged policy) }
    requires workers { (1 ≤ workers) × (workers ≤ 64) }
    ensures kept { Keeps desk.now pass.old pass.new }
    ensures legal { IsLegalFrom desk.now.opened (seen pass.new) }
    ensures gate { G.ready gate.new × (G.desks gate.new ≡ G.desks gate.old) }
    ensures known { Knows desk.now pass.old pass.new result }
    ensures comes { Comes desk.now policy moment pass.old pass.new result }
{
    let mut marking = match begin(rt, alloc, desk, pass, policy, workers) {
        Ok(marking) => marking,
        Err(refused) => return Err(refused),
    };
    for number in 1..=MOST_ROUNDS {
        match next_round(rt, alloc, desk, pass, gate, number, workers, marking) {
            Round::Failed => return Err(out_of_memory()),
            Round::Still(Marking { sweep, marks }) => {
                return settle(rt, alloc, desk, pass, sweep, marks, moment);
            }
            Round::On(next) => marking = next,
        }
    }
    let Marking { sweep, marks } = marking;
    settle(rt, alloc, desk, pass, sweep, marks, moment)
}

/// Removes the contents that nothing keeps under a policy, as its cutoffs are at the moment of the
/// call: a sweep is opened, and it is settled. Where the gate is asked, the pass has no turn. The
/// code marks what is kept between turns, by so many workers. `SweepOpen` where another caller's
/// sweep is open.
pub fn collect<R: Wait + Threads + Sync, K: Keeper, G: Gate, C: Clock>(
    rt: &R,
    alloc: Global,
    desk: &Desk<Store<K>>,
    pass: &mut Pass,
    gate: &mut G,
    clock: &mut C,
    policy: &Policy,
    workers: u32,
) -> Result<Told, Refused>
    requires few { HasFew policy.now }
    requires counts { HasCounts policy.now }
    requires ready { IsReady desk.now pass.old }
    requires gate { G.ready gate.old }
    requires workers { (1 ≤ workers) × (workers ≤ 64) }
    ensures kept { Keeps desk.now pass.old pass.new }
    ensures ready { IsReady desk.now pass.new }
    ensures gate { G.ready gate.new × (G.desks gate.new ≡ G.desks gate.old) }
    ensures known { Knows desk.now pass.old pass.new result }
    ensures grows { Grows (mark_of pass.old) (mark_of pass.new) }
    ensures collects { CollectsTo desk.now policy.now (C.ahead clock.old) (C.ahead clock.new)
        pass.old pass.new result }
{
    let moment = Moment::from_micros(clock.now());
    match policy.resolve(alloc, moment) {
        Ok(policy) => collect_at(rt, alloc, desk, pass, gate, policy, workers, moment),
        Err(_) => Err(out_of_memory()),
    }
}
