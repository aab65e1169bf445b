//! The details and the conflicts of all plans, in the order of the plans.

ghost use Rattle.std.specs.Prelude.{◌≡◌, ◌++◌, IfOk, OnOk};
ghost use Rattle.cat_decisions.specs.Drafts.{all_conflicts_in, all_details_in};

use cat_codes::fault::NoMemory;
use cat_codes::seq::Seq;
use cat_merge::plan::Planned;
use cat_model::conflict::Conflict;
use cat_model::merging::Detail;
use std::alloc::{AllocError, Global};

fn copy_detail(detail: &Detail) -> Result<Detail, AllocError>
    ensures { IfOk result (λ copy. copy ≡ detail.now) }
{
    detail.clone()
}

fn copy_conflict(conflict: &Conflict) -> Result<Conflict, AllocError>
    ensures { IfOk result (λ copy. copy ≡ conflict.now) }
{
    conflict.clone()
}

fn add_details(out: &mut Seq<Detail>, details: &[Detail]) -> Result<(), NoMemory>
    ensures { OnOk result (out.new ≡ out.old ++ details.now) }
{
    for detail in details {
        out.push(copy_detail(detail)?)?;
    }
    Ok(())
}

fn add_conflicts(out: &mut Seq<Conflict>, conflicts: &[Conflict]) -> Result<(), NoMemory>
    ensures { OnOk result (out.new ≡ out.old ++ conflicts.now) }
{
    for conflict in conflicts {
        out.push(copy_conflict(conflict)?)?;
    }
    Ok(())
}

/// The details of plans.
pub(crate) fn all_details(alloc: Global, planned: &[Planned]) -> Result<Seq<Detail>, NoMemory>
    ensures { IfOk result (λ list. list ≡ all_details_in planned.now) }
{
    let mut out = Seq::new(alloc);
    for one in planned {
        add_details(&mut out, one.plan.details.as_slice())?;
    }
    Ok(out)
}

/// The conflicts of plans.
pub(crate) fn all_conflicts(alloc: Global, planned: &[Planned]) -> Result<Seq<Conflict>, NoMemory>
    ensures { IfOk result (λ list. list ≡ all_conflicts_in planned.now) }
{
    let mut out = Seq::new(alloc);
    for one in planned {
        add_conflicts(&mut out, one.plan.conflicts.as_slice())?;
    }
    Ok(out)
}
