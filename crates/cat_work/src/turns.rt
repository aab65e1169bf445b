//! The turns of a call: each finds the store in one state and leaves it in another.
ghost use Rattle.std.specs.Prelude.{◌≡◌, ◌<◌, ◌≤◌, ◌∷◌, [], None, true, IfOk, IfErr, IsTrue};
ghost use Rattle.sha2.specs.Sha256.{sha256};
ghost use Rattle.cat_decisions.specs.Builds.{IsBuilt, IsGivenBy};
ghost use Rattle.cat_checks.specs.Histories.{IsLegalFrom};
ghost use Rattle.cat_core.specs.Drafts.{command_in, open_draft_of};
ghost use Rattle.cat_desk.specs.Pass.{IsFree, Keeps, known, left_by, number_of, seen, turn_of};
ghost use Rattle.cat_model.specs.Step.{opens_draft};
ghost use Rattle.cat_model.specs.WellMade.{is_well_made};
ghost use Rattle.cat_work.specs.Passes.{state_of};
ghost use Rattle.cat_work.specs.Turns.{DropsIn, Opens, OpensNone, SettlesIn};
ghost use Rattle.cat_model.specs.Turns.{place_after};

use cat_core::{Built, Draft, Settled, Store, View};
use cat_desk::{Desk, Pass};
use cat_keeper::Keeper;
use cat_model::command::Command;
use cat_model::moment::Moment;
use cat_model::refusal::Refused;
use std::alloc::Global;
use std::sync::Wait;

/// Opens a draft.
pub(crate) fn open<'a, R: Wait, K: Keeper>(
    rt: &R,
    alloc: Global,
    desk: &Desk<Store<K>>,
    pass: &mut Pass,
    command: &'a Command,
) -> Result<(Draft<'a>, View), Refused>
    requires free { IsFree desk.now pass.old }
    requires well_made { IsTrue (is_well_made sha256 command.now) }
    requires opens { opens_draft command.now ≡ true }
    ensures kept { Keeps desk.now pass.old pass.new }
    ensures known { (known pass.old ≤ place_after desk.now.opened (seen pass.new))
        × (known pass.new ≡ place_after desk.now.opened (seen pass.new)) }
    ensures turn { turn_of pass.old < turn_of pass.new }
    ensures legal { IsLegalFrom desk.now.opened (seen pass.new) }
    ensures opened { IfOk result (λ t. Opens K desk.now command.now pass.old pass.new t.0 t.1) }
    ensures refused { IfErr result (λ r. OpensNone K desk.now command.now pass.old pass.new r) }
{
    let mut held = desk.enter(rt, pass);
    held.value.history();
    let opened = held.value.open_draft(alloc, pass.number(), command);
    held.value.history();
    desk.leave(held, pass);
    opened
}

/// Settles a draft.
pub(crate) fn settle<'a, R: Wait, K: Keeper>(
    rt: &R,
    alloc: Global,
    desk: &Desk<Store<K>>,
    pass: &mut Pass,
    draft: Draft<'a>,
    built: Built,
    moment: Moment,
) -> Settled<'a>
    requires free { IsFree desk.now pass.old }
    requires well_made { IsTrue (is_well_made sha256 (command_in draft)) }
    requires given { IsGivenBy draft.number draft.call }
    requires own { (left_by pass.old ≡ record { drafts = open_draft_of draft ∷ []; sweep = None })
        × (draft.caller ≡ number_of pass.old) }
    requires built { IsBuilt (state_of desk.now (seen pass.old)) draft.call built }
    ensures kept { Keeps desk.now pass.old pass.new }
    ensures known { (known pass.old ≤ place_after desk.now.opened (seen pass.new))
        × (known pass.new ≡ place_after desk.now.opened (seen pass.new)) }
    ensures turn { turn_of pass.old < turn_of pass.new }
    ensures legal { IsLegalFrom desk.now.opened (seen pass.new) }
    ensures settled { SettlesIn K desk.now pass.old pass.new draft.entry built moment result }
{
    let mut held = desk.enter(rt, pass);
    held.value.history();
    let settled = held.value.settle(alloc, draft, built, moment);
    held.value.history();
    desk.leave(held, pass);
    settled
}

/// Drops a draft.
pub(crate) fn give_up<R: Wait, K: Keeper>(
    rt: &R,
    desk: &Desk<Store<K>>,
    pass: &mut Pass,
    draft: Draft<'_>,
)
    requires free { IsFree desk.now pass.old }
    requires own { (left_by pass.old ≡ record { drafts = open_draft_of draft ∷ []; sweep = None })
        × (draft.caller ≡ number_of pass.old) }
    ensures kept { Keeps desk.now pass.old pass.new }
    ensures known { (known pass.old ≤ place_after desk.now.opened (seen pass.new))
        × (known pass.new ≡ place_after desk.now.opened (seen pass.new)) }
    ensures turn { turn_of pass.old < turn_of pass.new }
    ensures legal { IsLegalFrom desk.now.opened (seen pass.new) }
    ensures dropped { DropsIn K desk.now pass.old pass.new draft.entry }
{
    let mut held = desk.enter(rt, pass);
    held.value.history();
    held.value.drop_draft(draft);
    held.value.history();
    desk.leave(held, pass);
}
