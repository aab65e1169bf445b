//! Commits of a reference applied to a branch.

ghost use Rattle.std.specs.Prelude.{ℕ, ◌≡◌, ◌++◌, ◌∷◌, [], Ok, IfOk, IsTrue, OnOk, map};
ghost use Rattle.sha2.specs.Sha256.{sha256};
ghost use Rattle.cat_model.specs.Chain.{entries};
ghost use Rattle.cat_model.specs.State.{is_known};
ghost use Rattle.cat_model.specs.Transplants.{change_made, commits_at, plan_each, step_transplant, transplant_opening};
ghost use Rattle.cat_merge.specs.Planned.{AreTouched, planned, step_of};
ghost use Rattle.cat_model.specs.declared.command.Command.TheVariants as commands;
ghost use Rattle.cat_state.specs.Keeping.{IsHeldAt};
ghost use Rattle.cat_decisions.specs.Decisions.{Decides};
ghost use Rattle.cat_decisions.specs.Drafts.{ArePlans, IsTransplantDraft, meta_of, paired};

use crate::decision::Decision;
use crate::drafts::{Asked, Draft};
use crate::logged::logged_transplant;
use crate::settling::settle;
use cat_codes::fault::NoMemory;
use cat_merge::plan::{Plan, Planned};
use cat_merge::transplant::{Step, plan_transplant};
use cat_model::command::Transplant;
use cat_model::commit::Meta;
use cat_model::merging::Modes;
use cat_model::moment::Moment;
use cat_model::reference::Reference;
use cat_names::hash::Hash;
use cat_state::catalogue::Catalogue;
use cat_state::copies::copy_meta;
use cat_state::failure::Failure;
use std::alloc::Global;

/// Adds what the commit of a hash changed, if there is one.
fn add_step(
    alloc: Global,
    catalogue: &Catalogue,
    out: &mut Vec<Step>,
    hash: &Hash,
) -> Result<(), NoMemory>
    ensures exact { OnOk result
        (map step_of out.new.items
        ≡ map step_of out.old.items
        ++ map (change_made catalogue.now.commits)
        (commits_at catalogue.now.commits (hash.now ∷ []))) }
    ensures touched { AreTouched out.old.items → OnOk result (AreTouched out.new.items) }
{
    if let Some(commit) = catalogue.commit(hash) {
        let touched = catalogue.commits().touched_at(alloc, hash, commit)?;
        out.push(Step {
            base: catalogue.map_at(&commit.parent)?,
            source: catalogue.map_at(hash)?,
            touched,
        })?;
    }
    Ok(())
}

/// What commits changed.
fn steps(alloc: Global, catalogue: &Catalogue, hashes: &[Hash]) -> Result<Vec<Step>, NoMemory>
    ensures exact { IfOk result
        (λ steps. map step_of steps.items
        ≡ map (change_made catalogue.now.commits) (commits_at catalogue.now.commits hashes.now)) }
    ensures touched { IfOk result (λ steps. AreTouched steps.items) }
{
    let mut out = Vec::new(alloc);
    for hash in hashes {
        add_step(alloc, catalogue, &mut out, hash)?;
    }
    Ok(out)
}

/// Adds the meta of the commit of a hash, if there is one.
fn add_meta(catalogue: &Catalogue, out: &mut Vec<Meta>, hash: &Hash) -> Result<(), NoMemory>
    ensures { OnOk result
        (out.new.items
        ≡ out.old.items ++ map meta_of (commits_at catalogue.now.commits (hash.now ∷ []))) }
{
    if let Some(commit) = catalogue.commit(hash) {
        out.push(copy_meta(&commit.meta)?)?;
    }
    Ok(())
}

/// The metas of commits.
fn metas(alloc: Global, catalogue: &Catalogue, hashes: &[Hash]) -> Result<Vec<Meta>, NoMemory>
    ensures { IfOk result
        (λ metas. metas.items ≡ map meta_of (commits_at catalogue.now.commits hashes.now)) }
{
    let mut out = Vec::new(alloc);
    for hash in hashes {
        add_meta(catalogue, &mut out, hash)?;
    }
    Ok(out)
}

/// Plans, each with the meta of its commit.
fn pair(alloc: Global, metas: Vec<Meta>, plans: Vec<Plan>) -> Result<Vec<Planned>, NoMemory>
    ensures { IfOk result (λ out. out.items ≡ paired metas.items plans.items) }
{
    let mut out = Vec::new(alloc);
    let mut metas = metas.into_iter();
    for plan in plans {
        let Some(meta) = metas.next() else {
            return Ok(out);
        };
        out.push(Planned {
            merge_parent: None,
            meta,
            plan,
        })?;
    }
    Ok(out)
}

/// The plans of commits' changes onto a head, in turn.
fn plan_onto(
    alloc: Global,
    catalogue: &Catalogue,
    modes: &Modes,
    steps: &[Step],
    head: &Hash,
) -> Result<Vec<Plan>, NoMemory>
    requires touched { AreTouched steps.now }
    ensures exact { IfOk result
        (λ plans. map planned plans.items
        ≡ plan_each modes.now (entries catalogue.now.commits head.now) (map step_of steps.now)) }
    ensures plans { IfOk result (λ plans. ArePlans catalogue.now head.now plans.items) }
{
    let target = catalogue.map_at(head)?;
    catalogue.map_is_well_formed(head);
    let plans = plan_transplant(alloc, steps, &target, modes)?;
    Ok(plans)
}

/// What a transplant plans onto its branch.
pub fn draft_transplant(
    alloc: Global,
    catalogue: &Catalogue,
    transplant: &Transplant,
    branch: &Reference,
) -> Result<Draft, NoMemory>
    requires known { IsTrue (is_known sha256 catalogue.now branch.now.head) }
    ensures { IfOk result
        (λ draft. IsTransplantDraft catalogue.now transplant.now branch.now draft) }
{
    let hashes = transplant.hashes.as_slice();
    let steps = steps(alloc, catalogue, hashes)?;
    let plans = plan_onto(
        alloc,
        catalogue,
        &transplant.modes,
        steps.as_slice(),
        &branch.head,
    )?;
    let metas = metas(alloc, catalogue, hashes)?;
    let planned = pair(alloc, metas, plans)?;
    Ok(Draft {
        ancestor: None,
        planned,
        asked: Asked {
            dry_run: transplant.dry_run,
            conflicts_as_result: transplant.conflicts_as_result,
        },
        command: logged_transplant(transplant)?,
    })
}

/// What the draft of a transplant that was opened at a place comes to at a moment.
pub fn settle_transplant(
    alloc: Global,
    catalogue: &Catalogue,
    opened: u32,
    moment: Moment,
    transplant: &Transplant,
    branch: &Reference,
    draft: Draft,
) -> Result<Decision, Failure>
    requires opened { transplant_opening sha256 catalogue.now transplant.now ≡ Ok branch.now }
    requires held { IsHeldAt catalogue.now branch.now.head }
    requires drafted { IsTransplantDraft catalogue.now transplant.now branch.now draft }
    ensures decides { (number : ℕ)
        → Decides number catalogue.now (commands.Transplant transplant.now)
        (step_transplant sha256 catalogue.now transplant.now opened moment) result }
{
    let _ = transplant;
    settle(alloc, catalogue, opened, moment, branch, draft)
}
