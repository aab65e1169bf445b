//! Merges of a commit into a branch.

ghost use Rattle.std.specs.Prelude.{ℕ, ◌≡◌, ◌∷◌, [], Some, Ok, IfOk};
ghost use Rattle.sha2.specs.Sha256.{sha256};
ghost use Rattle.cat_model.specs.Chain.{entries};
ghost use Rattle.cat_model.specs.Merges.{merge_opening, step_merge};
ghost use Rattle.cat_model.specs.Plan as plans;
ghost use Rattle.cat_merge.specs.Planned.{planned};
ghost use Rattle.cat_model.specs.declared.command.Command.TheVariants as commands;
ghost use Rattle.cat_state.specs.Keeping.{IsHeldAt};
ghost use Rattle.cat_decisions.specs.Decisions.{Decides};
ghost use Rattle.cat_decisions.specs.Drafts.{AreKnown, ArePlans, IsMergeDraft};

use crate::decision::Decision;
use crate::differing::changed_since;
use crate::drafts::{Asked, Draft};
use crate::logged::logged_merge;
use crate::settling::settle;
use cat_codes::fault::NoMemory;
use cat_merge::plan::{Plan, Planned, plan_merge};
use cat_model::command::Merge;
use cat_model::merging::Modes;
use cat_model::moment::Moment;
use cat_model::reference::Reference;
use cat_names::hash::Hash;
use cat_state::catalogue::Catalogue;
use cat_state::copies::copy_meta;
use cat_state::failure::Failure;
use std::alloc::Global;

/// The plan of a merge of a commit into another, from their base.
fn plan_from(
    alloc: Global,
    catalogue: &Catalogue,
    modes: &Modes,
    ancestor: &Hash,
    source: &Hash,
    head: &Hash,
) -> Result<Plan, NoMemory>
    ensures exact { IfOk result
        (λ p. planned p
        ≡ plans.plan (entries catalogue.now.commits ancestor.now)
        (entries catalogue.now.commits source.now) (entries catalogue.now.commits head.now)
        modes.now) }
    ensures plans { IfOk result (λ p. ArePlans catalogue.now head.now (p ∷ [])) }
{
    let before = catalogue.map_at(ancestor)?;
    let merged = catalogue.map_at(source)?;
    let changed = changed_since(alloc, catalogue, source, ancestor, &before, &merged)?;
    let target = catalogue.map_at(head)?;
    catalogue.map_is_well_formed(head);
    let made = plan_merge(alloc, &before, &merged, &target, modes, changed);
    // By calls, once, so that the proof has no maps at the ways out below.
    drop(before);
    drop(merged);
    drop(target);
    let plan = made?;
    Ok(plan)
}

/// The plan of a merge, with its other parent and its meta.
fn one_planned(
    alloc: Global,
    merge: &Merge,
    source: &Hash,
    plan: Plan,
) -> Result<Vec<Planned>, NoMemory>
    ensures { IfOk result
        (λ out. out.items
        ≡ record { merge_parent = Some source.now; meta = merge.now.meta; plan = plan } ∷ []) }
{
    let meta = copy_meta(&merge.meta)?;
    let mut planned = Vec::new(alloc);
    planned.push(Planned {
        merge_parent: Some(*source),
        meta,
        plan,
    })?;
    Ok(planned)
}

/// What a merge of a commit into a branch plans, from their base.
pub fn draft_merge(
    alloc: Global,
    catalogue: &Catalogue,
    merge: &Merge,
    branch: &Reference,
    source: &Hash,
) -> Result<Draft, NoMemory>
    requires known { AreKnown catalogue.now branch.now.head source.now }
    ensures { IfOk result
        (λ draft. IsMergeDraft catalogue.now merge.now branch.now source.now draft) }
{
    let ancestor = catalogue.base(alloc, source, &branch.head)?;
    let plan = plan_from(
        alloc,
        catalogue,
        &merge.modes,
        &ancestor,
        source,
        &branch.head,
    )?;
    let planned = one_planned(alloc, merge, source, plan)?;
    Ok(Draft {
        ancestor: Some(ancestor),
        planned,
        asked: Asked {
            dry_run: merge.dry_run,
            conflicts_as_result: merge.conflicts_as_result,
        },
        command: logged_merge(merge)?,
    })
}

/// What the draft of a merge that was opened at a place comes to at a moment.
pub fn settle_merge(
    alloc: Global,
    catalogue: &Catalogue,
    opened: u32,
    moment: Moment,
    merge: &Merge,
    branch: &Reference,
    source: &Hash,
    draft: Draft,
) -> Result<Decision, Failure>
    requires opened { merge_opening sha256 catalogue.now merge.now ≡ Ok (branch.now, source.now) }
    requires held { IsHeldAt catalogue.now branch.now.head }
    requires drafted { IsMergeDraft catalogue.now merge.now branch.now source.now draft }
    ensures decides { (number : ℕ)
        → Decides number catalogue.now (commands.Merge merge.now)
        (step_merge sha256 catalogue.now merge.now opened moment) result }
{
    let _ = merge;
    let _ = source;
    settle(alloc, catalogue, opened, moment, branch, draft)
}
