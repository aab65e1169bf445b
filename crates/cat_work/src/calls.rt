//! Calls that change the catalogue, on a pass.
ghost use Rattle.std.specs.Prelude.{◌≡◌, ◌≤◌, true, IsTrue};
ghost use Rattle.sha2.specs.Sha256.{sha256};
ghost use Rattle.cat_checks.specs.Histories.{IsLegalFrom};
ghost use Rattle.cat_desk.specs.Pass.{Keeps, mark_of, seen};
ghost use Rattle.cat_model.specs.Mark.{Grows};
ghost use Rattle.cat_model.specs.Step.{opens_draft};
ghost use Rattle.cat_model.specs.WellMade.{is_well_made};
ghost use Rattle.cat_work.specs.Answers.{AnswersTo, Knows};
ghost use Rattle.cat_work.specs.Passes.{IsReady};
ghost use Rattle.cat_work.specs.Turns.{Comes, IsCommit, IsMerge, IsTransplant};

use crate::attempts::{attempt, begin};
use crate::finish::finish;
use crate::referring::refer;
use crate::trying::Tried;
use cat_core::Store;
use cat_desk::{Desk, Gate, Pass};
use cat_io::Clock;
use cat_keeper::Keeper;
use cat_model::command::Command;
use cat_model::moment::Moment;
use cat_model::refusal::Refused;
use cat_model::reply::Told;
use std::alloc::Global;
use std::sync::Wait;

/// Makes a call that opens a draft, in as many attempts as the caller allows, at a moment. Where the
/// gate is asked, the pass has no turn. The code builds between the turns.
fn make_at<R: Wait, K: Keeper, G: Gate>(
    rt: &R,
    alloc: Global,
    desk: &Desk<Store<K>>,
    pass: &mut Pass,
    gate: &mut G,
    attempts: u32,
    moment: Moment,
    command: &Command,
) -> Result<Told, Refused>
    requires opens { opens_draft command.now ≡ true }
    requires well_made { IsTrue (is_well_made sha256 command.now) }
    requires ready { IsReady desk.now pass.old }
    requires gate { G.ready gate.old }
    requires attempts { (1 ≤ attempts) × (attempts ≤ 64) }
    ensures kept { Keeps desk.now pass.old pass.new }
    ensures legal { IsLegalFrom desk.now.opened (seen pass.new) }
    ensures gate { G.ready gate.new × (G.desks gate.new ≡ G.desks gate.old) }
    ensures known { Knows desk.now pass.old pass.new result }
    ensures comes { Comes desk.now command.now pass.old pass.new attempts moment result }
{
    let mut trying = match begin(rt, alloc, desk, pass, attempts, command) {
        Ok(trying) => trying,
        Err(refused) => return Err(refused),
    };
    for number in 1..attempts {
        match attempt(rt, alloc, desk, pass, gate, number, moment, trying) {
            Tried::Ended(answer) => return answer,
            Tried::On(next) => trying = next,
        }
    }
    finish(rt, alloc, desk, pass, gate, attempts, moment, trying)
}

/// Makes a call that opens a draft.
fn make<R: Wait, K: Keeper, G: Gate, C: Clock>(
    rt: &R,
    alloc: Global,
    desk: &Desk<Store<K>>,
    pass: &mut Pass,
    gate: &mut G,
    clock: &mut C,
    attempts: u32,
    command: &Command,
) -> Result<Told, Refused>
    requires opens { opens_draft command.now ≡ true }
    requires well_made { IsTrue (is_well_made sha256 command.now) }
    requires ready { IsReady desk.now pass.old }
    requires gate { G.ready gate.old }
    requires attempts { (1 ≤ attempts) × (attempts ≤ 64) }
    ensures kept { Keeps desk.now pass.old pass.new }
    ensures ready { IsReady desk.now pass.new }
    ensures gate { G.ready gate.new × (G.desks gate.new ≡ G.desks gate.old) }
    ensures known { Knows desk.now pass.old pass.new result }
    ensures grows { Grows (mark_of pass.old) (mark_of pass.new) }
    ensures answers { AnswersTo desk.now command.now attempts (C.ahead clock.old)
        (C.ahead clock.new) pass.old pass.new result }
{
    let moment = Moment::from_micros(clock.now());
    make_at(rt, alloc, desk, pass, gate, attempts, moment, command)
}

/// Commits to a branch.
pub fn commit<R: Wait, K: Keeper, G: Gate, C: Clock>(
    rt: &R,
    alloc: Global,
    desk: &Desk<Store<K>>,
    pass: &mut Pass,
    gate: &mut G,
    clock: &mut C,
    attempts: u32,
    command: &Command,
) -> Result<Told, Refused>
    requires kind { IsCommit command.now }
    requires well_made { IsTrue (is_well_made sha256 command.now) }
    requires ready { IsReady desk.now pass.old }
    requires gate { G.ready gate.old }
    requires attempts { (1 ≤ attempts) × (attempts ≤ 64) }
    ensures kept { Keeps desk.now pass.old pass.new }
    ensures ready { IsReady desk.now pass.new }
    ensures gate { G.ready gate.new × (G.desks gate.new ≡ G.desks gate.old) }
    ensures known { Knows desk.now pass.old pass.new result }
    ensures grows { Grows (mark_of pass.old) (mark_of pass.new) }
    ensures answers { AnswersTo desk.now command.now attempts (C.ahead clock.old)
        (C.ahead clock.new) pass.old pass.new result }
{
    make(rt, alloc, desk, pass, gate, clock, attempts, command)
}

/// Merges a commit into a branch.
pub fn merge<R: Wait, K: Keeper, G: Gate, C: Clock>(
    rt: &R,
    alloc: Global,
    desk: &Desk<Store<K>>,
    pass: &mut Pass,
    gate: &mut G,
    clock: &mut C,
    attempts: u32,
    command: &Command,
) -> Result<Told, Refused>
    requires kind { IsMerge command.now }
    requires well_made { IsTrue (is_well_made sha256 command.now) }
    requires ready { IsReady desk.now pass.old }
    requires gate { G.ready gate.old }
    requires attempts { (1 ≤ attempts) × (attempts ≤ 64) }
    ensures kept { Keeps desk.now pass.old pass.new }
    ensures ready { IsReady desk.now pass.new }
    ensures gate { G.ready gate.new × (G.desks gate.new ≡ G.desks gate.old) }
    ensures known { Knows desk.now pass.old pass.new result }
    ensures grows { Grows (mark_of pass.old) (mark_of pass.new) }
    ensures answers { AnswersTo desk.now command.now attempts (C.ahead clock.old)
        (C.ahead clock.new) pass.old pass.new result }
{
    make(rt, alloc, desk, pass, gate, clock, attempts, command)
}

/// Applies commits of another reference to a branch.
pub fn transplant<R: Wait, K: Keeper, G: Gate, C: Clock>(
    rt: &R,
    alloc: Global,
    desk: &Desk<Store<K>>,
    pass: &mut Pass,
    gate: &mut G,
    clock: &mut C,
    attempts: u32,
    command: &Command,
) -> Result<Told, Refused>
    requires kind { IsTransplant command.now }
    requires well_made { IsTrue (is_well_made sha256 command.now) }
    requires ready { IsReady desk.now pass.old }
    requires gate { G.ready gate.old }
    requires attempts { (1 ≤ attempts) × (attempts ≤ 64) }
    ensures kept { Keeps desk.now pass.old pass.new }
    ensures ready { IsReady desk.now pass.new }
    ensures gate { G.ready gate.new × (G.desks gate.new ≡ G.desks gate.old) }
    ensures known { Knows desk.now pass.old pass.new result }
    ensures grows { Grows (mark_of pass.old) (mark_of pass.new) }
    ensures answers { AnswersTo desk.now command.now attempts (C.ahead clock.old)
        (C.ahead clock.new) pass.old pass.new result }
{
    make(rt, alloc, desk, pass, gate, clock, attempts, command)
}

/// Makes any call that changes the catalogue: one that opens a draft in as many attempts as the
/// caller allows, any other in one turn.
pub fn call<R: Wait, K: Keeper, G: Gate, C: Clock>(
    rt: &R,
    alloc: Global,
    desk: &Desk<Store<K>>,
    pass: &mut Pass,
    gate: &mut G,
    clock: &mut C,
    attempts: u32,
    command: &Command,
) -> Result<Told, Refused>
    requires well_made { IsTrue (is_well_made sha256 command.now) }
    requires ready { IsReady desk.now pass.old }
    requires gate { G.ready gate.old }
    requires attempts { (1 ≤ attempts) × (attempts ≤ 64) }
    ensures kept { Keeps desk.now pass.old pass.new }
    ensures ready { IsReady desk.now pass.new }
    ensures gate { G.ready gate.new × (G.desks gate.new ≡ G.desks gate.old) }
    ensures known { Knows desk.now pass.old pass.new result }
    ensures grows { Grows (mark_of pass.old) (mark_of pass.new) }
    ensures answers { AnswersTo desk.now command.now attempts (C.ahead clock.old)
        (C.ahead clock.new) pass.old pass.new result }
{
    match command {
        Command::Create(_) | Command::Assign(_) | Command::Delete(_) => {
            refer(rt, alloc, desk, pass, clock, command)
        }
        Command::Commit(_) => commit(rt, alloc, desk, pass, gate, clock, attempts, command),
        Command::Merge(_) => merge(rt, alloc, desk, pass, gate, clock, attempts, command),
        Command::Transplant(_) => transplant(rt, alloc, desk, pass, gate, clock, attempts, command),
    }
}
