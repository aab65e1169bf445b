//! Calls that open drafts.

ghost use Rattle.std.specs.Prelude.{ℕ, ◌≡◌, IfOk, IsTrue};
ghost use Rattle.sha2.specs.Sha256.{sha256};
ghost use Rattle.cat_model.specs.Naming.{names_of};
ghost use Rattle.cat_model.specs.Step.{opening, opens_draft};
ghost use Rattle.cat_state.specs.Giving.{SaysAs};
ghost use Rattle.cat_decisions.specs.Builds.{IsGivenBy, branch_of, command_of};

use crate::given::{Given, with_ids};
use crate::opening::{open_commit, open_merge, open_transplant};
use cat_codes::fault::NoMemory;
use cat_model::command::{Command, CommitRequest, Merge, Transplant};
use cat_model::refusal::Refusal;
use cat_names::hash::Hash;
use cat_names::ref_name::RefName;
use cat_state::catalogue::Catalogue;
use std::alloc::Global;

/// A call that opens a draft, with what its draft gives.
#[derive(Drop)]
pub enum Call<'a> {
    /// A commit, with its operations and contents as the draft gives them their ids.
    Commit(&'a CommitRequest, Given),
    Merge(&'a Merge),
    Transplant(&'a Transplant),
}

/// The call of a command, in a draft of that number.
pub fn call_of<'a>(alloc: Global, number: u64, command: &'a Command) -> Result<Call<'a>, NoMemory>
    requires { IsTrue (opens_draft command.now) }
    ensures { IfOk result (λ call. (command_of call ≡ command.now) × IsGivenBy number call) }
{
    match command {
        Command::Commit(request) => {
            let given = with_ids(alloc, number, request)?;
            Ok(Call::Commit(request, given))
        }
        Command::Merge(merge) => Ok(Call::Merge(merge)),
        Command::Transplant(transplant) => Ok(Call::Transplant(transplant)),
        Command::Create(_) => unreachable!(),
        Command::Assign(_) => unreachable!(),
        Command::Delete(_) => unreachable!(),
    }
}

/// Copies of hashes.
fn copied(alloc: Global, hashes: &[Hash]) -> Result<Vec<Hash>, NoMemory>
    ensures { IfOk result (λ copies. copies.items ≡ hashes.now) }
{
    let mut copies = Vec::new(alloc);
    copies.extend_from_slice(hashes)?;
    Ok(copies)
}

impl<'a> Call<'a> {
    /// The tests before its draft is opened, and again before it is settled.
    pub fn open(&self, catalogue: &Catalogue) -> Result<(), Refusal>
        ensures { SaysAs (λ _. tt) result (opening sha256 catalogue.now (command_of self.now)) }
    {
        match self {
            Call::Commit(request, _) => {
                open_commit(catalogue, request)?;
            }
            Call::Merge(merge) => {
                open_merge(catalogue, merge)?;
            }
            Call::Transplant(transplant) => {
                open_transplant(catalogue, transplant)?;
            }
        }
        Ok(())
    }

    /// The name of its branch.
    pub fn branch(&self) -> &RefName
        ensures { result.now ≡ branch_of (command_of self.now) }
    {
        match self {
            Call::Commit(request, _) => &request.branch,
            Call::Merge(merge) => &merge.branch,
            Call::Transplant(transplant) => &transplant.branch,
        }
    }

    /// The hashes of what its draft names: commits, and contents.
    pub fn names(&self, alloc: Global) -> Result<(Vec<Hash>, Vec<Hash>), NoMemory>
        ensures { (number : ℕ) → IsGivenBy number self.now
            → IfOk result
            (λ names. record { commits = names.0.items; contents = names.1.items }
            ≡ names_of sha256 number (command_of self.now)) }
    {
        match self {
            Call::Commit(_, given) => {
                let contents = copied(alloc, given.hashes.as_slice())?;
                Ok((Vec::new(alloc), contents))
            }
            Call::Merge(merge) => {
                let mut commits = Vec::new(alloc);
                commits.push(merge.from_hash)?;
                Ok((commits, Vec::new(alloc)))
            }
            Call::Transplant(transplant) => {
                let commits = copied(alloc, transplant.hashes.as_slice())?;
                Ok((commits, Vec::new(alloc)))
            }
        }
    }
}
