//! Calls on references.
ghost use Rattle.std.specs.Prelude.{ℕ, ◌≡◌, ◌<◌, ◌≤◌, false, IsTrue};
ghost use Rattle.sha2.specs.Sha256.{sha256};
ghost use Rattle.cat_checks.specs.Histories.{IsLegalFrom};
ghost use Rattle.cat_desk.specs.Pass.{Keeps, all_left_by, known, mark_of, number_of, seen, turn_of};
ghost use Rattle.cat_io.specs.Clocks.{Ticks};
ghost use Rattle.cat_model.specs.Book.{call_on};
ghost use Rattle.cat_model.specs.Drafts.{nothing_open};
ghost use Rattle.cat_model.specs.Mark.{Grows};
ghost use Rattle.cat_model.specs.Step.{opens_draft};
ghost use Rattle.cat_model.specs.WellMade.{is_well_made};
ghost use Rattle.cat_work.specs.Answers.{Answers, AnswersAlone, Knows, NoDraftIsNew, rests_in};
ghost use Rattle.cat_work.specs.Passes.{IsAlone, IsReady, book_of};
ghost use Rattle.cat_work.specs.Turns.{Comes};
ghost use Rattle.cat_model.specs.Turns.{place_after};

use cat_core::Store;
use cat_desk::{Desk, Pass};
use cat_io::Clock;
use cat_keeper::Keeper;
use cat_model::command::Command;
use cat_model::moment::Moment;
use cat_model::refusal::Refused;
use cat_model::reply::Told;
use std::alloc::Global;
use std::sync::Wait;

/// Makes, moves or removes a reference at a moment.
fn refer_at<R: Wait, K: Keeper>(
    rt: &R,
    alloc: Global,
    desk: &Desk<Store<K>>,
    pass: &mut Pass,
    moment: Moment,
    command: &Command,
) -> Result<Told, Refused>
    requires kind { opens_draft command.now ≡ false }
    requires well_made { IsTrue (is_well_made sha256 command.now) }
    requires ready { IsReady desk.now pass.old }
    ensures kept { Keeps desk.now pass.old pass.new }
    ensures known { (known pass.old ≤ place_after desk.now.opened (seen pass.new))
        × (known pass.new ≡ place_after desk.now.opened (seen pass.new)) }
    ensures turn { turn_of pass.old < turn_of pass.new }
    ensures legal { IsLegalFrom desk.now.opened (seen pass.new) }
    ensures comes { (attempts : ℕ)
        → Comes desk.now command.now pass.old pass.new attempts moment result }
{
    let mut held = desk.enter(rt, pass);
    held.value.history();
    let answer = held.value.refer(alloc, pass.number(), moment, command);
    held.value.history();
    desk.leave(held, pass);
    answer
}

/// Makes, moves or removes a reference, in one turn.
pub fn refer<R: Wait, K: Keeper, C: Clock>(
    rt: &R,
    alloc: Global,
    desk: &Desk<Store<K>>,
    pass: &mut Pass,
    clock: &mut C,
    command: &Command,
) -> Result<Told, Refused>
    requires kind { opens_draft command.now ≡ false }
    requires well_made { IsTrue (is_well_made sha256 command.now) }
    requires ready { IsReady desk.now pass.old }
    ensures kept { Keeps desk.now pass.old pass.new }
    ensures ready { IsReady desk.now pass.new }
    ensures known { Knows desk.now pass.old pass.new result }
    ensures grows { Grows (mark_of pass.old) (mark_of pass.new) }
    ensures answers { (moment : ℕ) × Ticks (C.ahead clock.old) (C.ahead clock.new) moment
        × ((attempts : ℕ)
        → Answers desk.now (number_of pass.old) command.now moment attempts (known pass.old)
        (mark_of pass.old) (mark_of pass.new) (seen pass.old) (seen pass.new) result)
        × (IsAlone pass.old
        → AnswersAlone (number_of pass.old)
        (call_on sha256 (number_of pass.old) (book_of desk.now pass.old) command.now moment)
        (book_of desk.now pass.old) (book_of desk.now pass.new) (mark_of pass.old).fault
        (mark_of pass.new).fault result)
        × (IsAlone pass.old
        → all_left_by pass.old ≡ nothing_open
        → all_left_by pass.new ≡ nothing_open) }
    ensures unswept { IsAlone pass.old
        → rests_in (mark_of pass.new) ≡ rests_in (mark_of pass.old) }
    ensures undrafted { NoDraftIsNew (number_of pass.old) (mark_of pass.old) (mark_of pass.new) }
{
    let moment = Moment::from_micros(clock.now());
    refer_at(rt, alloc, desk, pass, moment, command)
}
