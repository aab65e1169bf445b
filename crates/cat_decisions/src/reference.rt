//! Calls that make, move and remove references. They open no draft, and add no contents or commits.

ghost use Rattle.std.specs.Prelude.{ℕ, ◌≡◌, ◌<◌, IsTrue, Ok, false};
ghost use Rattle.sha2.specs.Sha256.{sha256};
ghost use Rattle.cat_model.specs.declared.command.Command.{Command as CommandValue};
ghost use Rattle.cat_model.specs.declared.command.Command.TheVariants as commands;
ghost use Rattle.cat_model.specs.declared.reply.Reply.TheVariants as replies;
ghost use Rattle.cat_model.specs.Moves.{step_assign, step_create, step_delete, with_references};
ghost use Rattle.cat_model.specs.Step.{Turn, head_left, logged_command, opens_draft, step};
ghost use Rattle.cat_frames.specs.Standing.{is_within};
ghost use Rattle.cat_state.specs.Changing.{MayBecome, changed_references};
ghost use Rattle.cat_decisions.specs.Decisions.{Decides};

use crate::decision::{Decision, Making};
use crate::logged::{logged_assign, logged_create, logged_delete};
use crate::referring::{assigned, copy_reference, created, deleted};
use cat_model::command::{Assign, Command, Create, Delete};
use cat_model::reference::Reference;
use cat_model::reply::Reply;
use cat_names::hash::Hash;
use cat_state::catalogue::Catalogue;
use cat_state::change::{Change, ReferenceChange};
use cat_state::failure::Failure;
use std::alloc::Global;

/// A change of a reference alone, with the call as it is logged and the head that it leaves; the
/// reference is the reply.
fn referred(
    alloc: Global,
    catalogue: &Catalogue,
    change: ReferenceChange,
    command: Command,
    head: Option<Hash>,
    reply: Reference,
) -> Decision
    requires place { catalogue.now.place < 4294967295 }
    requires may { MayBecome catalogue.now change }
    requires within { IsTrue (is_within catalogue.now)
        → IsTrue
        (is_within
        (with_references catalogue.now (changed_references catalogue.now.references change))) }
    ensures { (draft : ℕ) (call : CommandValue) → command ≡ logged_command sha256 draft call
        → head ≡ head_left call (replies.Reference reply)
        → Decides draft catalogue.now call
        (Ok (
          with_references catalogue.now (changed_references catalogue.now.references change),
          replies.Reference reply,
        )) (Ok result) }
{
    Decision::Made(Making {
        change: Change {
            additions: catalogue.no_additions(alloc),
            reference: change,
        },
        command,
        head,
        reply: Reply::Reference(reply),
    })
}

/// What a call that makes a reference comes to.
fn decide_create(alloc: Global, catalogue: &Catalogue, create: &Create) -> Result<Decision, Failure>
    ensures { (draft : ℕ)
        → Decides draft catalogue.now (commands.Create create.now)
        (step_create sha256 catalogue.now create.now) result }
{
    let made = created(alloc, catalogue, create)?;
    let reply = copy_reference(&made)?;
    let command = logged_create(create)?;
    let head = Some(made.head);
    let change = ReferenceChange::Made(made);
    Ok(referred(alloc, catalogue, change, command, head, reply))
}

/// What a call that moves a reference comes to.
fn decide_assign(alloc: Global, catalogue: &Catalogue, assign: &Assign) -> Result<Decision, Failure>
    ensures { (draft : ℕ)
        → Decides draft catalogue.now (commands.Assign assign.now)
        (step_assign sha256 catalogue.now assign.now) result }
{
    let moved = assigned(alloc, catalogue, assign)?;
    let reply = copy_reference(&moved)?;
    let command = logged_assign(assign)?;
    let head = Some(moved.head);
    let change = ReferenceChange::Moved(moved);
    Ok(referred(alloc, catalogue, change, command, head, reply))
}

/// What a call that removes a reference comes to.
fn decide_delete(alloc: Global, catalogue: &Catalogue, delete: &Delete) -> Result<Decision, Failure>
    ensures { (draft : ℕ)
        → Decides draft catalogue.now (commands.Delete delete.now)
        (step_delete catalogue.now delete.now) result }
{
    let removed = deleted(alloc, catalogue, delete)?;
    let name = delete.name.clone()?;
    let command = logged_delete(delete)?;
    let change = ReferenceChange::Removed(name);
    Ok(referred(alloc, catalogue, change, command, None, removed))
}

/// What a call that makes, moves or removes a reference comes to.
pub fn decide_reference(
    alloc: Global,
    catalogue: &Catalogue,
    command: &Command,
) -> Result<Decision, Failure>
    requires { opens_draft command.now ≡ false }
    ensures decides { (turn : Turn)
        → Decides turn.draft catalogue.now command.now
        (step sha256 catalogue.now command.now turn) result }
{
    match command {
        Command::Create(create) => decide_create(alloc, catalogue, create),
        Command::Assign(assign) => decide_assign(alloc, catalogue, assign),
        Command::Delete(delete) => decide_delete(alloc, catalogue, delete),
        Command::Commit(_) => unreachable!(),
        Command::Merge(_) => unreachable!(),
        Command::Transplant(_) => unreachable!(),
    }
}
