//! Commands that are well made.

ghost use Rattle.std.specs.Prelude.{◌≡◌, IfOk};
ghost use Rattle.sha2.specs.Sha256.{sha256};
ghost use Rattle.cat_model.specs.WellMade as well_made;
ghost use Rattle.cat_model.specs.WellMade.{is_well_made};
ghost use Rattle.cat_model.specs.declared.command.Command.TheVariants as commands;

use crate::operations::{have_contents, may_be_asked};
use cat_codes::fault::NoMemory;
use cat_model::command::{Command, CommitRequest, Transplant};
use cat_model::reference::Pointer;
use std::alloc::Global;

/// The most commits of a transplant.
const MOST_HASHES: usize = 100;

/// Whether a source has a name or a hash.
fn points(pointer: &Pointer) -> bool
    ensures { result ≡ well_made.points pointer.now }
{
    pointer.name.is_some() || pointer.hash.is_some()
}

/// Whether there are as many hashes as a transplant may have.
#[tactic(auto, unfolding(cat_model::specs::WellMade::is_well_made))]
fn has_hashes(transplant: &Transplant) -> bool
    ensures { result ≡ is_well_made sha256 (commands.Transplant transplant.now) }
{
    let count = transplant.hashes.len();
    count > 0 && count <= MOST_HASHES
}

/// Whether the operations may be asked for, and each PUT has its content.
#[tactic(auto, unfolding(cat_model::specs::WellMade::is_well_made))]
fn is_request(alloc: Global, request: &CommitRequest) -> Result<bool, NoMemory>
    ensures { IfOk result (λ b. b ≡ is_well_made sha256 (commands.Commit request.now)) }
{
    let ops = request.ops.as_slice();
    Ok(may_be_asked(alloc, ops)? && have_contents(alloc, ops, request.contents.as_slice())?)
}

/// Whether a catalogue may be asked for the command.
#[tactic(auto, unfolding(cat_model::specs::WellMade::is_well_made))]
pub fn is_well_made(alloc: Global, command: &Command) -> Result<bool, NoMemory>
    ensures { IfOk result (λ b. b ≡ is_well_made sha256 command.now) }
{
    match command {
        Command::Create(create) => Ok(points(&create.source)),
        Command::Assign(assign) => Ok(points(&assign.source)),
        Command::Delete(_) => Ok(true),
        Command::Commit(request) => is_request(alloc, request),
        Command::Merge(_) => Ok(true),
        Command::Transplant(transplant) => Ok(has_hashes(transplant)),
    }
}
