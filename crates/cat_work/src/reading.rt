//! Calls that read.
ghost use Rattle.std.specs.Prelude.{◌≡◌, ◌<◌, ◌≤◌};
ghost use Rattle.sha2.specs.Sha256.{sha256};
ghost use Rattle.cat_desk.specs.Log.{Follows};
ghost use Rattle.cat_desk.specs.Marks.{Linked};
ghost use Rattle.cat_desk.specs.Pass.{Keeps, all_left_by, known, mark_of, number_of, seen, turn_of};
ghost use Rattle.cat_model.specs.Book.{Reads};
ghost use Rattle.cat_model.specs.Mark.{Grows};
ghost use Rattle.cat_work.specs.Passes.{IsAlone, IsReady, book_of};
ghost use Rattle.cat_model.specs.Turns.{place_after};

use cat_core::Store;
use cat_desk::{Desk, Pass};
use cat_keeper::Keeper;
use cat_model::ask::Ask;
use cat_model::refusal::Refused;
use cat_model::reply::Told;
use std::alloc::Global;
use std::sync::Wait;

/// Answers a reading call, in one turn.
pub fn read<R: Wait, K: Keeper>(
    rt: &R,
    alloc: Global,
    desk: &Desk<Store<K>>,
    pass: &mut Pass,
    ask: &Ask,
) -> Result<Told, Refused>
    requires ready { IsReady desk.now pass.old }
    ensures kept { Keeps desk.now pass.old pass.new }
    ensures ready { IsReady desk.now pass.new }
    ensures known { (known pass.old ≤ place_after desk.now.opened (seen pass.new))
        × (known pass.new ≡ place_after desk.now.opened (seen pass.new)) }
    ensures turn { turn_of pass.old < turn_of pass.new }
    ensures grows { Grows (mark_of pass.old) (mark_of pass.new) }
    ensures linked { Linked (number_of pass.old) (mark_of pass.old) (mark_of pass.new) }
    ensures still { IsAlone pass.old → mark_of pass.new ≡ mark_of pass.old }
    ensures follows { Follows (number_of pass.old) (seen pass.old) (seen pass.new) }
    ensures reads { Reads sha256 (book_of desk.now pass.new) ask.now result }
    ensures alone { IsAlone pass.old
        → (book_of desk.now pass.new ≡ book_of desk.now pass.old)
        × ((mark_of pass.new).fault ≡ (mark_of pass.old).fault)
        × (all_left_by pass.new ≡ all_left_by pass.old) }
{
    let held = desk.enter(rt, pass);
    held.value.history();
    let told = held.value.read(alloc, ask);
    desk.leave(held, pass);
    told
}
