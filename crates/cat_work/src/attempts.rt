//! The attempts of a call that opens a draft.
ghost use Rattle.std.specs.Prelude.{◌≡◌, ◌≤◌, ◌<◌, ◌+◌, true, IfOk, IfErr, IsTrue, vec_len, vec_capacity};
ghost use Rattle.sha2.specs.Sha256.{sha256};
ghost use Rattle.cat_checks.specs.Histories.{IsLegalFrom};
ghost use Rattle.cat_core.specs.Drafts.{command_in};
ghost use Rattle.cat_desk.specs.Pass.{IsFree, Keeps, known, seen, turn_of};
ghost use Rattle.cat_model.specs.Step.{opens_draft};
ghost use Rattle.cat_model.specs.WellMade.{is_well_made};
ghost use Rattle.cat_work.specs.Answers.{KnowsAt};
ghost use Rattle.cat_work.specs.Turns.{Begins, BeginsNone, Tries, TriesOn, out_of_memory};
ghost use Rattle.cat_model.specs.Turns.{place_after};

use crate::trying::{Tried, Trying};
use crate::turns::{give_up, open, settle};
use cat_core::{Settled, Store};
use cat_desk::{Desk, Gate, Pass};
use cat_keeper::Keeper;
use cat_model::command::Command;
use cat_model::moment::Moment;
use cat_model::refusal::{Refusal, Refused};
use std::alloc::Global;
use std::sync::Wait;

/// The refusal for want of memory, which has no place.
pub(crate) fn out_of_memory() -> Refused
    ensures { result ≡ out_of_memory }
{
    Refused {
        place: None,
        why: Refusal::NoMemory,
    }
}

/// Opens the draft, once there is room for the heads of all attempts.
pub(crate) fn begin<'a, R: Wait, K: Keeper>(
    rt: &R,
    alloc: Global,
    desk: &Desk<Store<K>>,
    pass: &mut Pass,
    attempts: u32,
    command: &'a Command,
) -> Result<Trying<'a>, Refused>
    requires free { IsFree desk.now pass.old }
    requires well_made { IsTrue (is_well_made sha256 command.now) }
    requires opens { opens_draft command.now ≡ true }
    requires attempts { attempts ≤ 64 }
    ensures kept { Keeps desk.now pass.old pass.new }
    ensures begun { IfOk result
        (λ t. Begins K desk.now command.now pass.old pass.new t
        × (attempts + 1 ≤ vec_capacity t.pairs)) }
    ensures known { IfOk result
        (λ _. (known pass.old ≤ place_after desk.now.opened (seen pass.new))
        × (known pass.new ≡ place_after desk.now.opened (seen pass.new))) }
    ensures turn { IfOk result (λ _. turn_of pass.old < turn_of pass.new) }
    ensures legal { IfOk result (λ _. IsLegalFrom desk.now.opened (seen pass.new)) }
    ensures refused { IfErr result
        (λ r. BeginsNone K desk.now command.now pass.old pass.new r
        × KnowsAt desk.now pass.old pass.new r.place
        × (IsLegalFrom desk.now.opened (seen pass.old)
        → IsLegalFrom desk.now.opened (seen pass.new))) }
{
    let Ok(mut pairs) = Vec::with_capacity(alloc, attempts as usize + 1) else {
        return Err(out_of_memory());
    };
    match open(rt, alloc, desk, pass, command) {
        Ok((draft, view)) => {
            let head = draft.head_in(&view);
            let Ok(()) = pairs.push((view.place(), head)) else {
                unreachable!()
            };
            Ok(Trying { draft, view, pairs })
        }
        Err(refused) => Err(refused),
    }
}

/// An attempt that isn't the last. The view is given up before the gate is asked.
pub(crate) fn attempt<'a, R: Wait, K: Keeper, G: Gate>(
    rt: &R,
    alloc: Global,
    desk: &Desk<Store<K>>,
    pass: &mut Pass,
    gate: &mut G,
    number: u32,
    moment: Moment,
    trying: Trying<'a>,
) -> Tried<'a>
    requires free { IsFree desk.now pass.old }
    requires gate { G.ready gate.old }
    requires well_made { IsTrue (is_well_made sha256 (command_in trying.draft)) }
    requires tries { Tries desk.now pass.old trying.draft trying.view trying.pairs.items }
    requires room { vec_len trying.pairs < vec_capacity trying.pairs }
    ensures kept { Keeps desk.now pass.old pass.new }
    ensures gate { G.ready gate.new × (G.desks gate.new ≡ G.desks gate.old) }
    ensures known { (known pass.old ≤ place_after desk.now.opened (seen pass.new))
        × (known pass.new ≡ place_after desk.now.opened (seen pass.new)) }
    ensures turn { turn_of pass.old < turn_of pass.new }
    ensures legal { IsLegalFrom desk.now.opened (seen pass.new) }
    ensures tried { TriesOn K desk.now pass.old pass.new moment trying.entry result }
{
    let Trying {
        draft,
        view,
        mut pairs,
    } = trying;
    let built = draft.build(alloc, &view);
    drop(view);
    let Ok(built) = built else {
        give_up(rt, desk, pass, draft);
        return Tried::Ended(Err(out_of_memory()));
    };
    gate.between(pass, number);
    match settle(rt, alloc, desk, pass, draft, built, moment) {
        Settled::Done(told) => Tried::Ended(Ok(told)),
        Settled::Refused(refused) => Tried::Ended(Err(refused)),
        Settled::Moved(draft, view) => {
            let head = draft.head_in(&view);
            let Ok(()) = pairs.push((view.place(), head)) else {
                unreachable!()
            };
            Tried::On(Trying { draft, view, pairs })
        }
    }
}
