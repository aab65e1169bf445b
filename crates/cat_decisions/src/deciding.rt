//! What calls that open drafts come to.

ghost use Rattle.std.specs.Prelude.{ℕ, ◌≡◌, Ok, IsTrue};
ghost use Rattle.sha2.specs.Sha256.{sha256};
ghost use Rattle.cat_names.specs.declared.hash.Hash.{Hash as HashValue};
ghost use Rattle.cat_model.specs.declared.command.Command.TheVariants as commands;
ghost use Rattle.cat_model.specs.Merges.{step_merge};
ghost use Rattle.cat_model.specs.Step.{opening, step};
ghost use Rattle.cat_model.specs.Transplants.{step_transplant};
ghost use Rattle.cat_model.specs.WellMade.{is_well_made};
ghost use Rattle.cat_decisions.specs.Decisions.{Decides};
ghost use Rattle.cat_decisions.specs.Builds.{IsBuilt, IsGivenBy, IsMergedAt, IsTransplantedAt, command_of};

use crate::building::{Built, Work};
use crate::call::Call;
use crate::commit::settle_commit;
use crate::decision::Decision;
use crate::drafts::Draft;
use crate::merge::settle_merge;
use crate::opening::{open_merge, open_transplant};
use crate::transplant::settle_transplant;
use cat_model::command::{Merge, Transplant};
use cat_model::moment::Moment;
use cat_state::catalogue::Catalogue;
use cat_state::failure::Failure;
use std::alloc::Global;

/// What a merge comes to, as it was planned upon its branch's head.
fn decide_merge(
    alloc: Global,
    catalogue: &Catalogue,
    opened: u32,
    moment: Moment,
    merge: &Merge,
    draft: Draft,
) -> Result<Decision, Failure>
    requires opened { opening sha256 catalogue.now (commands.Merge merge.now) ≡ Ok tt }
    requires planned { (head : HashValue) × IsMergedAt catalogue.now merge.now head draft }
    ensures decides { (number : ℕ)
        → Decides number catalogue.now (commands.Merge merge.now)
        (step_merge sha256 catalogue.now merge.now opened moment) result }
{
    let Ok((branch, source)) = open_merge(catalogue, merge) else {
        unreachable!()
    };
    settle_merge(
        alloc, catalogue, opened, moment, merge, branch, &source, draft,
    )
}

/// What a transplant comes to, as it was planned upon its branch's head.
fn decide_transplant(
    alloc: Global,
    catalogue: &Catalogue,
    opened: u32,
    moment: Moment,
    transplant: &Transplant,
    draft: Draft,
) -> Result<Decision, Failure>
    requires opened { opening sha256 catalogue.now (commands.Transplant transplant.now) ≡ Ok tt }
    requires planned { (head : HashValue)
        × IsTransplantedAt catalogue.now transplant.now head draft }
    ensures decides { (number : ℕ)
        → Decides number catalogue.now (commands.Transplant transplant.now)
        (step_transplant sha256 catalogue.now transplant.now opened moment) result }
{
    let Ok(branch) = open_transplant(catalogue, transplant) else {
        unreachable!()
    };
    settle_transplant(alloc, catalogue, opened, moment, transplant, branch, draft)
}

/// What a call comes to at a moment, in its draft, which was opened at a place, by what was built
/// on its branch's head.
pub fn decide(
    alloc: Global,
    catalogue: &Catalogue,
    number: u64,
    opened: u32,
    moment: Moment,
    call: Call<'_>,
    built: Built,
) -> Result<Decision, Failure>
    requires well_made { IsTrue (is_well_made sha256 (command_of call)) }
    requires given { IsGivenBy number call }
    requires opened { opening sha256 catalogue.now (command_of call) ≡ Ok tt }
    requires built { IsBuilt catalogue.now call built }
    ensures decides { Decides number catalogue.now (command_of call.entry)
        (step sha256 catalogue.now (command_of call.entry)
        (record { draft = number; opened = opened; moment = moment })) result }
{
    let Built { head: _, work } = built;
    match call {
        Call::Commit(request, given) => match work {
            Work::Judged(judged) => {
                settle_commit(alloc, catalogue, number, moment, request, given, judged)
            }
            Work::Planned(_) => unreachable!(),
        },
        Call::Merge(merge) => match work {
            Work::Judged(_) => unreachable!(),
            Work::Planned(draft) => decide_merge(alloc, catalogue, opened, moment, merge, draft),
        },
        Call::Transplant(transplant) => match work {
            Work::Judged(_) => unreachable!(),
            Work::Planned(draft) => {
                decide_transplant(alloc, catalogue, opened, moment, transplant, draft)
            }
        },
    }
}
