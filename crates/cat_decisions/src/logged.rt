//! Calls as they are logged: without what they say of their source's kind, and without what they
//! ask beside.

ghost use Rattle.std.specs.Prelude.{◌≡◌, None, IfOk};
ghost use Rattle.cat_model.specs.declared.command.Command.TheVariants as commands;
ghost use Rattle.cat_decisions.specs.Drafts as drafts;

use cat_codes::fault::NoMemory;
use cat_model::command::{Assign, Command, Create, Delete, Merge, Transplant};
use std::alloc::AllocError;

/// The call as it is logged.
pub(crate) fn logged_create(create: &Create) -> Result<Command, AllocError>
    ensures { IfOk result (λ c. c ≡ commands.Create (record create.now { source_kind = None })) }
{
    let name = create.name.clone()?;
    let source = create.source.clone()?;
    Ok(Command::Create(Create {
        name,
        kind: create.kind,
        source,
        source_kind: None,
    }))
}

/// The call as it is logged.
pub(crate) fn logged_assign(assign: &Assign) -> Result<Command, AllocError>
    ensures { IfOk result (λ c. c ≡ commands.Assign (record assign.now { source_kind = None })) }
{
    let name = assign.name.clone()?;
    let source = assign.source.clone()?;
    Ok(Command::Assign(Assign {
        name,
        kind: assign.kind,
        expected: assign.expected,
        source,
        source_kind: None,
    }))
}

/// The call as it is logged.
pub(crate) fn logged_delete(delete: &Delete) -> Result<Command, AllocError>
    ensures { IfOk result (λ c. c ≡ commands.Delete delete.now) }
{
    let name = delete.name.clone()?;
    Ok(Command::Delete(Delete {
        name,
        kind: delete.kind,
        expected: delete.expected,
    }))
}

/// The merge as it is logged.
pub(crate) fn logged_merge(merge: &Merge) -> Result<Command, NoMemory>
    ensures { IfOk result (λ c. c ≡ drafts.logged_merge merge.now) }
{
    let branch = merge.branch.clone()?;
    let from = merge.from.clone()?;
    let meta = merge.meta.clone()?;
    let modes = merge.modes.clone()?;
    Ok(Command::Merge(Merge {
        branch,
        hash: merge.hash,
        from,
        from_hash: merge.from_hash,
        meta,
        modes,
        dry_run: false,
        conflicts_as_result: false,
    }))
}

/// The transplant as it is logged.
pub(crate) fn logged_transplant(transplant: &Transplant) -> Result<Command, NoMemory>
    ensures { IfOk result (λ c. c ≡ drafts.logged_transplant transplant.now) }
{
    let branch = transplant.branch.clone()?;
    let from = transplant.from.clone()?;
    let hashes = transplant.hashes.clone()?;
    let modes = transplant.modes.clone()?;
    Ok(Command::Transplant(Transplant {
        branch,
        hash: transplant.hash,
        from,
        hashes,
        modes,
        dry_run: false,
        conflicts_as_result: false,
    }))
}
