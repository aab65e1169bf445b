//! What plans upon a branch come to.

ghost use Rattle.std.specs.Prelude.{◌≡◌, [], IfErr, IfOk, IsTrue, true, false};
ghost use Rattle.sha2.specs.Sha256.{sha256};
ghost use Rattle.cat_model.specs.Merges.{all_set, step_applied, step_planned, step_unless_conflicts, with_planned};
ghost use Rattle.cat_state.specs.Giving.{Fails, Gives};
ghost use Rattle.cat_state.specs.Keeping.{IsHeldAt, has_contents};
ghost use Rattle.cat_decisions.specs.Drafts.{AreDrafted, all_conflicts_in, all_details_in, all_planned, changing, plans_for};
ghost use Rattle.cat_decisions.specs.Settling.{AreAdded, HasRoom, Settles, decision_of, making_of, reply_at, told_or_refused};

use crate::changing::with_changes;
use crate::counting::needs_room;
use crate::decision::{Decision, Making, at_head};
use crate::drafts::Draft;
use crate::gathering::{all_conflicts, all_details};
use cat_codes::fault::NoMemory;
use cat_codes::seq::Seq;
use cat_merge::plan::Planned;
use cat_model::command::Command;
use cat_model::conflict::Conflict;
use cat_model::merging::Detail;
use cat_model::moment::Moment;
use cat_model::reference::Reference;
use cat_model::refusal::Refusal;
use cat_model::reply::{Merged, Reply};
use cat_names::hash::Hash;
use cat_state::additions::Additions;
use cat_state::catalogue::Catalogue;
use cat_state::change::{Change, ReferenceChange};
use cat_state::failure::Failure;
use std::alloc::Global;

/// The reply that leaves a branch as it is.
fn unmoved(
    branch: &Reference,
    ancestor: Option<Hash>,
    details: Seq<Detail>,
    was_successful: bool,
) -> Result<Merged, NoMemory>
    ensures { IfOk result
        (λ m. m ≡ reply_at ancestor details branch.now branch.now.head false was_successful) }
{
    Ok(Merged {
        common_ancestor: ancestor,
        details,
        effective_target: branch.head,
        target: at_head(branch, branch.head)?,
        was_applied: false,
        was_successful,
    })
}

/// A branch at its new head, and the reply.
fn moved(
    branch: &Reference,
    ancestor: Option<Hash>,
    details: Seq<Detail>,
    head: Hash,
) -> Result<(Reference, Merged), NoMemory>
    ensures branch { IfOk result (λ m. m.0 ≡ record branch.now { head = head }) }
    ensures reply { IfOk result (λ m. m.1 ≡ reply_at ancestor details branch.now head true true) }
{
    let reference = at_head(branch, head)?;
    let merged = Merged {
        common_ancestor: ancestor,
        details,
        effective_target: branch.head,
        target: at_head(branch, head)?,
        was_applied: true,
        was_successful: true,
    };
    Ok((reference, merged))
}

/// Commits that are made, up to a head.
fn making(
    branch: &Reference,
    ancestor: Option<Hash>,
    details: Seq<Detail>,
    command: Command,
    head: Hash,
    additions: Additions,
) -> Result<Making, NoMemory>
    ensures { IfOk result
        (λ m. m ≡ making_of ancestor details branch.now command (head, additions)) }
{
    match moved(branch, ancestor, details, head) {
        Ok((reference, merged)) => Ok(Making {
            change: Change {
                additions,
                reference: ReferenceChange::Moved(reference),
            },
            command,
            head: Some(head),
            reply: Reply::Merged(merged),
        }),
        Err(fault) => {
            // By calls, so that the proof doesn't take each kind of command apart here.
            drop(additions);
            drop(command);
            Err(fault)
        }
    }
}

/// What commits come to, if there are any: they are made unless the call is only tried.
fn decided(
    branch: &Reference,
    ancestor: Option<Hash>,
    details: Seq<Detail>,
    dry_run: bool,
    command: Command,
    added: Option<(Hash, Additions)>,
) -> Result<Decision, NoMemory>
    ensures { IfOk result (λ d. d ≡ decision_of ancestor details branch.now dry_run command added) }
{
    if dry_run {
        drop(added);
        drop(command);
        let merged = unmoved(branch, ancestor, details, true)?;
        return Ok(Decision::Told(Reply::Merged(merged)));
    }
    match added {
        Some((head, additions)) => {
            let making = making(branch, ancestor, details, command, head, additions)?;
            Ok(Decision::Made(making))
        }
        None => {
            drop(command);
            let merged = unmoved(branch, ancestor, details, true)?;
            Ok(Decision::Told(Reply::Merged(merged)))
        }
    }
}

/// What the commits of those plans add that change something, if there are any, behind the hash of
/// the last one. Other bytes that are there under one of their hashes refuse them.
fn added(
    alloc: Global,
    catalogue: &Catalogue,
    moment: Moment,
    head: &Hash,
    planned: Vec<Planned>,
) -> Result<Option<(Hash, Additions)>, Failure>
    requires drafted { AreDrafted catalogue.now head.now planned.items }
    requires held { IsHeldAt catalogue.now head.now }
    requires set { IsTrue
        (has_contents catalogue.now.present (all_set (all_planned planned.items))) }
    requires room { HasRoom catalogue.now head.now planned.items }
    requires conflicts { all_conflicts_in planned.items ≡ [] }
    ensures added { IfOk result (AreAdded moment catalogue.now head.now (changing planned.items)) }
    ensures refused { IfErr result
        (λ failure. Fails failure
        (with_planned sha256 moment catalogue.now head.now
        (all_planned (changing planned.items)))) }
{
    let made = with_changes(alloc, planned)?;
    if made.len() == 0 {
        drop(made);
        return Ok(None);
    }
    let added = catalogue.planned_additions(alloc, moment, head, made)?;
    Ok(Some(added))
}

/// What plans without conflicts come to: commits of those that change something, if there are any.
fn apply(
    alloc: Global,
    catalogue: &Catalogue,
    opened: u32,
    moment: Moment,
    branch: &Reference,
    draft: Draft,
    details: Seq<Detail>,
) -> Result<Decision, Failure>
    requires drafted { AreDrafted catalogue.now branch.now.head draft.planned.items }
    requires held { IsHeldAt catalogue.now branch.now.head }
    requires room { HasRoom catalogue.now branch.now.head draft.planned.items }
    requires conflicts { all_conflicts_in draft.planned.items ≡ [] }
    requires details { details ≡ all_details_in draft.planned.items }
    ensures step { Settles catalogue.now draft.command
        (step_applied sha256 catalogue.now
        (plans_for draft branch.now opened moment)) result }
{
    if let Err(failure) = catalogue.needs_set_contents(alloc, draft.planned.as_slice(), opened) {
        drop(draft);
        return Err(failure);
    }
    let Draft {
        ancestor,
        planned,
        asked,
        command,
    } = draft;
    match added(alloc, catalogue, moment, &branch.head, planned) {
        Ok(added) => {
            let decision = decided(branch, ancestor, details, asked.dry_run, command, added)?;
            Ok(decision)
        }
        Err(failure) => {
            // By a call, so that the proof doesn't take each kind of command apart here.
            drop(command);
            Err(failure)
        }
    }
}

/// Conflicts refuse, or are the reply.
fn clash(
    branch: &Reference,
    draft: &Draft,
    details: Seq<Detail>,
    conflicts: Seq<Conflict>,
) -> Result<Merged, Failure>
    ensures { Gives result
        (told_or_refused draft.now.asked.conflicts_as_result
        (reply_at draft.now.ancestor details branch.now branch.now.head false false) conflicts) }
{
    if !draft.asked.conflicts_as_result {
        return Err(Failure::Refused(Refusal::Conflicts(conflicts)));
    }
    let clashing = unmoved(branch, draft.ancestor, details, false)?;
    Ok(clashing)
}

/// What plans come to by their conflicts.
fn by_conflicts(
    alloc: Global,
    catalogue: &Catalogue,
    opened: u32,
    moment: Moment,
    branch: &Reference,
    draft: Draft,
    details: Seq<Detail>,
    conflicts: Seq<Conflict>,
) -> Result<Decision, Failure>
    requires drafted { AreDrafted catalogue.now branch.now.head draft.planned.items }
    requires held { IsHeldAt catalogue.now branch.now.head }
    requires room { HasRoom catalogue.now branch.now.head draft.planned.items }
    requires details { details ≡ all_details_in draft.planned.items }
    requires conflicts { conflicts ≡ all_conflicts_in draft.planned.items }
    ensures step { Settles catalogue.now draft.command
        (step_unless_conflicts sha256 catalogue.now
        (plans_for draft branch.now opened moment)
        (all_conflicts_in draft.planned.items)) result }
{
    if conflicts.len() == 0 {
        return apply(alloc, catalogue, opened, moment, branch, draft, details);
    }
    let told = clash(branch, &draft, details, conflicts);
    // By a call, so that the proof doesn't take the draft apart at each way out.
    drop(draft);
    let clashing = told?;
    Ok(Decision::Told(Reply::Merged(clashing)))
}

/// The details and the conflicts of plans.
fn found(alloc: Global, planned: &[Planned]) -> Result<(Seq<Detail>, Seq<Conflict>), NoMemory>
    ensures details { IfOk result (λ f. f.0 ≡ all_details_in planned.now) }
    ensures conflicts { IfOk result (λ f. f.1 ≡ all_conflicts_in planned.now) }
{
    let details = all_details(alloc, planned)?;
    let conflicts = all_conflicts(alloc, planned)?;
    Ok((details, conflicts))
}

/// What plans come to that there is room for.
fn unless_conflicts(
    alloc: Global,
    catalogue: &Catalogue,
    opened: u32,
    moment: Moment,
    branch: &Reference,
    draft: Draft,
) -> Result<Decision, Failure>
    requires drafted { AreDrafted catalogue.now branch.now.head draft.planned.items }
    requires held { IsHeldAt catalogue.now branch.now.head }
    requires room { HasRoom catalogue.now branch.now.head draft.planned.items }
    ensures step { Settles catalogue.now draft.command
        (step_unless_conflicts sha256 catalogue.now
        (plans_for draft branch.now opened moment)
        (all_conflicts_in draft.planned.items)) result }
{
    match found(alloc, draft.planned.as_slice()) {
        Ok((details, conflicts)) => {
            by_conflicts(
                alloc, catalogue, opened, moment, branch, draft, details, conflicts,
            )
        }
        Err(fault) => {
            // By a call, so that the proof doesn't take the draft apart here.
            drop(draft);
            Err(Failure::from(fault))
        }
    }
}

/// What a draft that was opened at a place comes to at a moment: conflicts refuse, or are the
/// reply; contents that plans set and that are gone refuse; else there are commits of the plans
/// that change something.
pub(crate) fn settle(
    alloc: Global,
    catalogue: &Catalogue,
    opened: u32,
    moment: Moment,
    branch: &Reference,
    draft: Draft,
) -> Result<Decision, Failure>
    requires drafted { AreDrafted catalogue.now branch.now.head draft.planned.items }
    requires held { IsHeldAt catalogue.now branch.now.head }
    ensures step { Settles catalogue.now draft.command
        (step_planned sha256 catalogue.now
        (plans_for draft branch.now opened moment)) result }
{
    match needs_room(catalogue, branch, draft.planned.as_slice()) {
        Ok(()) => unless_conflicts(alloc, catalogue, opened, moment, branch, draft),
        Err(failure) => {
            drop(draft);
            Err(failure)
        }
    }
}
