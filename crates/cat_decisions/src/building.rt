//! What calls make of their branch's head.

ghost use Rattle.std.specs.Prelude.{ℕ, ◌≡◌, Ok, IfOk, IsTrue};
ghost use Rattle.sha2.specs.Sha256.{sha256};
ghost use Rattle.cat_model.specs.Distinct.{are_distinct};
ghost use Rattle.cat_model.specs.Step.{opening};
ghost use Rattle.cat_model.specs.WellMade.{is_well_made};
ghost use Rattle.cat_model.specs.declared.command.Command.TheVariants as commands;
ghost use Rattle.cat_decisions.specs.Builds.{HasHead, IsBuilt, IsGivenBy, IsJudgedAt, IsMergedAt, IsTransplantedAt, command_of};

use crate::call::Call;
use crate::drafts::Draft;
use crate::merge::draft_merge;
use crate::opening::{open_commit, open_merge, open_transplant};
use crate::transplant::draft_transplant;
use cat_codes::fault::NoMemory;
use cat_model::command::{CommitRequest, Merge, Transplant};
use cat_model::op::Op;
use cat_names::hash::Hash;
use cat_rules::judging::{Judged, judge};
use cat_state::catalogue::Catalogue;
use cat_state::view::View;
use std::alloc::Global;

/// What a call makes of a head.
#[derive(Drop)]
pub enum Work {
    /// A commit's operations, judged.
    Judged(Judged),
    /// The plans of a merge or of a transplant.
    Planned(Draft),
}

/// What a call makes of a head of its branch.
#[derive(Drop)]
pub struct Built {
    pub head: Hash,
    pub work: Work,
}

/// A commit's operations, judged by the maps at the commit that it expects and at its branch's
/// head, with that head.
fn judge_at_head(
    alloc: Global,
    catalogue: &Catalogue,
    request: &CommitRequest,
    ops: &[Op],
) -> Result<(Hash, Judged), NoMemory>
    requires opened { opening sha256 catalogue.now (commands.Commit request.now) ≡ Ok tt }
    requires distinct { IsTrue (are_distinct ops.now) }
    ensures { IfOk result (λ made. IsJudgedAt catalogue.now request.now ops.now made.0 made.1) }
{
    let Ok((branch, expected)) = open_commit(catalogue, request) else {
        unreachable!()
    };
    let before = catalogue.map_at(&expected)?;
    let head = catalogue.map_at(&branch.head)?;
    catalogue.map_is_well_formed(&branch.head);
    let judged = judge(alloc, &before, &head, ops)?;
    Ok((branch.head, judged))
}

/// What a merge plans upon its branch's head, with that head.
fn merge_at_head(
    alloc: Global,
    catalogue: &Catalogue,
    merge: &Merge,
) -> Result<(Hash, Draft), NoMemory>
    requires opened { opening sha256 catalogue.now (commands.Merge merge.now) ≡ Ok tt }
    ensures { IfOk result (λ made. IsMergedAt catalogue.now merge.now made.0 made.1) }
{
    let Ok((branch, source)) = open_merge(catalogue, merge) else {
        unreachable!()
    };
    let draft = draft_merge(alloc, catalogue, merge, branch, &source)?;
    Ok((branch.head, draft))
}

/// What a transplant plans upon its branch's head, with that head.
fn transplant_at_head(
    alloc: Global,
    catalogue: &Catalogue,
    transplant: &Transplant,
) -> Result<(Hash, Draft), NoMemory>
    requires opened { opening sha256 catalogue.now (commands.Transplant transplant.now) ≡ Ok tt }
    ensures { IfOk result (λ made. IsTransplantedAt catalogue.now transplant.now made.0 made.1) }
{
    let Ok(branch) = open_transplant(catalogue, transplant) else {
        unreachable!()
    };
    let draft = draft_transplant(alloc, catalogue, transplant, branch)?;
    Ok((branch.head, draft))
}

/// What the call makes of its branch's head in the view. This reads the view alone, and may be done
/// while others change the catalogue.
pub fn build(alloc: Global, view: &View, call: &Call<'_>) -> Result<Built, NoMemory>
    requires opened { opening sha256 view.now (command_of call.now) ≡ Ok tt }
    requires well_made { IsTrue (is_well_made sha256 (command_of call.now)) }
    requires given { (number : ℕ) × IsGivenBy number call.now }
    ensures { IfOk result (IsBuilt view.now call.now) }
{
    let catalogue = view.catalogue();
    match call {
        Call::Commit(request, given) => {
            let (head, judged) = judge_at_head(alloc, catalogue, request, given.ops.as_slice())?;
            let work = Work::Judged(judged);
            Ok(Built { head, work })
        }
        Call::Merge(merge) => {
            let (head, draft) = merge_at_head(alloc, catalogue, merge)?;
            let work = Work::Planned(draft);
            Ok(Built { head, work })
        }
        Call::Transplant(transplant) => {
            let (head, draft) = transplant_at_head(alloc, catalogue, transplant)?;
            let work = Work::Planned(draft);
            Ok(Built { head, work })
        }
    }
}

/// The head of the call's branch.
pub fn head_of(catalogue: &Catalogue, call: &Call<'_>) -> Hash
    requires opened { opening sha256 catalogue.now (command_of call.now) ≡ Ok tt }
    ensures { HasHead catalogue.now (command_of call.now) result }
{
    let Ok(branch) = catalogue.named(call.branch()) else {
        unreachable!()
    };
    branch.head
}
