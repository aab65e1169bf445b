//! Requests that change.

ghost use Rattle.std.specs.Prelude.{option_map};
ghost use Rattle.cat_rest.specs.Changes.{create_at, assign_at, delete_at, commit_at, merge_at, transplant_at, collect_at};
ghost use Rattle.cat_rest.specs.Faults.{Answers};

use crate::commit::{CommitBody, CommitForm};
use crate::merge::{MergeForm, merge};
use crate::parameter::{optional, required};
use crate::path::reference_at;
use crate::refused::{read_body, refused};
use crate::source::SourceForm;
use crate::transplant::{TransplantForm, transplant};
use crate::wanted::Wanted;
use cat_model::command::{Assign, Command, CommitRequest, Create, Delete};
use cat_model::reference::Kind;
use cat_model::refusal::{Refusal, Refused};
use cat_names::ref_name::RefName;
use cat_policy::PolicyForm;
use std::alloc::Global;

/// A reference that is made at a source.
pub(crate) fn create_at(alloc: Global, query: &[u8], body: &[u8]) -> Result<Wanted, Refused>
    ensures { Answers result (create_at query.now body.now) }
{
    let name = required::<RefName>(alloc, query, "name")?;
    let kind = required::<Kind>(alloc, query, "type")?;
    let source = read_body::<SourceForm>(alloc, body)?;
    Ok(Wanted::Change(Command::Create(Create {
        name,
        kind,
        source: source.at,
        source_kind: source.kind,
    })))
}

/// A reference that is moved to a source.
pub(crate) fn assign_at(
    alloc: Global,
    part: Option<&str>,
    query: &[u8],
    body: &[u8],
) -> Result<Wanted, Refused>
    ensures { Answers result (assign_at (option_map (λ s. s.now) part.entry) query.now body.now) }
{
    let at = reference_at(alloc, part)?;
    let kind = optional::<Kind>(alloc, query, "type")?;
    let source = read_body::<SourceForm>(alloc, body)?;
    Ok(Wanted::Change(Command::Assign(Assign {
        name: at.name,
        kind,
        expected: at.hash,
        source: source.at,
        source_kind: source.kind,
    })))
}

/// A reference that is removed. A body has no effect.
pub(crate) fn delete_at(alloc: Global, part: Option<&str>, query: &[u8]) -> Result<Wanted, Refused>
    ensures { Answers result (delete_at (option_map (λ s. s.now) part.entry) query.now) }
{
    let at = reference_at(alloc, part)?;
    let kind = optional::<Kind>(alloc, query, "type")?;
    Ok(Wanted::Change(Command::Delete(Delete {
        name: at.name,
        kind,
        expected: at.hash,
    })))
}

/// Operations on a branch.
pub(crate) fn commit_at(alloc: Global, part: Option<&str>, body: &[u8]) -> Result<Wanted, Refused>
    ensures { Answers result (commit_at (option_map (λ s. s.now) part.entry) body.now) }
{
    let at = reference_at(alloc, part)?;
    let CommitBody {
        meta,
        ops,
        contents,
    } = read_body::<CommitForm>(alloc, body)?;
    Ok(Wanted::Change(Command::Commit(CommitRequest {
        branch: at.name,
        expected: at.hash,
        meta,
        ops,
        contents,
    })))
}

/// A commit of a reference that is merged into a branch.
pub(crate) fn merge_at(alloc: Global, part: Option<&str>, body: &[u8]) -> Result<Wanted, Refused>
    ensures { Answers result (merge_at (option_map (λ s. s.now) part.entry) body.now) }
{
    let at = reference_at(alloc, part)?;
    let asked = read_body::<MergeForm>(alloc, body)?;
    match merge(alloc, at, asked) {
        Ok(merge) => Ok(Wanted::Change(Command::Merge(merge))),
        Err(_) => Err(refused(Refusal::NoMemory)),
    }
}

/// Commits of a reference that are applied to a branch.
pub(crate) fn transplant_at(
    alloc: Global,
    part: Option<&str>,
    body: &[u8],
) -> Result<Wanted, Refused>
    ensures { Answers result (transplant_at (option_map (λ s. s.now) part.entry) body.now) }
{
    let at = reference_at(alloc, part)?;
    let asked = read_body::<TransplantForm>(alloc, body)?;
    Ok(Wanted::Change(Command::Transplant(transplant(at, asked))))
}

/// What references and drafts don't keep is removed, by a policy.
pub(crate) fn collect_at(alloc: Global, body: &[u8]) -> Result<Wanted, Refused>
    ensures { Answers result (collect_at body.now) }
{
    let policy = read_body::<PolicyForm>(alloc, body)?;
    Ok(Wanted::Collect(policy))
}
