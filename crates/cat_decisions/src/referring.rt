//! References that calls make, move or remove, by the rules' tests in turn.

ghost use Rattle.std.specs.Prelude.{◌≡◌, ◌<◌, ◌∷◌, [], None, IfOk, OnOk};
ghost use Rattle.std.specs.Option.{option_copied};
ghost use Rattle.sha2.specs.Sha256.{sha256};
ghost use Rattle.cat_model.specs.Moves.{needs_head, needs_other_than_default, step_assign, step_create, step_delete, with_references};
ghost use Rattle.cat_model.specs.Moves as moves;
ghost use Rattle.cat_model.specs.Refusing as refusing;
ghost use Rattle.cat_model.specs.State.{moved_reference, reference_of, with_reference, without_reference};
ghost use Rattle.cat_model.specs.declared.conflict.ConflictKind.TheVariants.{UnexpectedHash};
ghost use Rattle.cat_model.specs.declared.reply.Reply.TheVariants as replies;
ghost use Rattle.cat_state.specs.Changing.{MayBeHead};
ghost use Rattle.cat_state.specs.Giving.{Gives, GivesAs};

use crate::decision::at_head;
use cat_codes::fault::NoMemory;
use cat_codes::seq::Seq;
use cat_model::command::{Assign, Create, Delete};
use cat_model::conflict::{Conflict, ConflictKind};
use cat_model::reference::{Kind, Reference};
use cat_model::refusal::{Reason, Refusal};
use cat_names::hash::Hash;
use cat_names::ref_name::RefName;
use cat_state::catalogue::Catalogue;
use cat_state::failure::Failure;
use std::alloc::{AllocError, Global};

/// A copy of the reference.
pub(crate) fn copy_reference(reference: &Reference) -> Result<Reference, AllocError>
    ensures { IfOk result (λ copy. copy ≡ reference.now) }
{
    reference.clone()
}

/// It is of the kind that is stated, if one is.
fn needs_kind(kind: Option<Kind>, reference: &Reference) -> Result<(), Refusal>
    ensures { result ≡ refusing.needs_kind kind reference.now }
{
    match kind {
        None => Ok(()),
        Some(kind) => {
            if kind == reference.kind {
                Ok(())
            } else {
                Err(Refusal::BadRequest(Reason::OtherType))
            }
        }
    }
}

/// A source is of the kind that is stated, where it is a reference and one is.
fn needs_source_kind(kind: Option<Kind>, source: Option<&Reference>) -> Result<(), Refusal>
    ensures { result ≡ refusing.needs_source_kind kind (option_copied source.entry) }
{
    match source {
        None => Ok(()),
        Some(reference) => needs_kind(kind, reference),
    }
}

/// It isn't the default branch.
fn needs_other_than_default(name: &RefName) -> Result<(), Refusal>
    ensures { result ≡ needs_other_than_default name.now }
{
    if name.as_str() == "main" {
        return Err(Refusal::BadRequest(Reason::DefaultBranch));
    }
    Ok(())
}

/// Whether the head is the one that is expected, if one is.
fn is_expected(expected: &Option<Hash>, head: &Hash) -> bool
    ensures { result ≡ moves.is_expected expected.now head.now }
{
    match expected {
        None => true,
        Some(hash) => *hash == *head,
    }
}

/// The conflict of a head that isn't the one expected.
fn unexpected_hash(alloc: Global) -> Result<Seq<Conflict>, NoMemory>
    ensures { IfOk result
        (λ conflicts. conflicts ≡ record { key = None; kind = UnexpectedHash } ∷ []) }
{
    let mut conflicts = Seq::new(alloc);
    conflicts.push(Conflict {
        key: None,
        kind: ConflictKind::UnexpectedHash,
    })?;
    Ok(conflicts)
}

/// The head is the one that is expected, if one is.
fn needs_head(alloc: Global, expected: &Option<Hash>, head: &Hash) -> Result<(), Failure>
    ensures { Gives result (needs_head expected.now head.now) }
{
    if is_expected(expected, head) {
        return Ok(());
    }
    let conflicts = unexpected_hash(alloc)?;
    Err(Failure::Refused(Refusal::Conflicts(conflicts)))
}

/// The reference that a call makes at its source.
#[tactic(auto, unfolding(cat_model::specs::Moves::step_create))]
pub(crate) fn created(
    alloc: Global,
    catalogue: &Catalogue,
    create: &Create,
) -> Result<Reference, Failure>
    ensures step { GivesAs
        (λ r. (
          with_references catalogue.now (with_reference catalogue.now.references r),
          replies.Reference r,
        )) result (step_create sha256 catalogue.now create.now) }
    ensures place { OnOk result (catalogue.now.place < 4294967295) }
    ensures absent { IfOk result (λ r. reference_of catalogue.now.references r.name ≡ None) }
    ensures head { IfOk result (λ r. MayBeHead catalogue.now r.head) }
{
    let source = catalogue.perhaps_named(&create.source.name)?;
    needs_source_kind(create.source_kind, source)?;
    let head = catalogue.pointed(source, &create.source.hash)?;
    catalogue.needs_new_name(&create.name)?;
    catalogue.needs_reference_room()?;
    catalogue.needs_log()?;
    catalogue.needs_contents(alloc, &head)?;
    Ok(Reference {
        name: create.name.clone()?,
        kind: create.kind,
        head,
    })
}

/// The reference that a call moves, at its source.
#[tactic(auto, unfolding(cat_model::specs::Moves::step_assign))]
pub(crate) fn assigned(
    alloc: Global,
    catalogue: &Catalogue,
    assign: &Assign,
) -> Result<Reference, Failure>
    ensures step { GivesAs
        (λ r. (
          with_references catalogue.now (moved_reference catalogue.now.references r),
          replies.Reference r,
        )) result (step_assign sha256 catalogue.now assign.now) }
    ensures place { OnOk result (catalogue.now.place < 4294967295) }
    ensures head { IfOk result (λ r. MayBeHead catalogue.now r.head) }
{
    let reference = catalogue.named(&assign.name)?;
    let source = catalogue.perhaps_named(&assign.source.name)?;
    needs_kind(assign.kind, reference)?;
    needs_source_kind(assign.source_kind, source)?;
    let head = catalogue.pointed(source, &assign.source.hash)?;
    catalogue.needs_log()?;
    needs_head(alloc, &assign.expected, &reference.head)?;
    catalogue.needs_contents(alloc, &head)?;
    let moved = at_head(reference, head)?;
    Ok(moved)
}

/// The reference that a call removes, as it is.
#[tactic(auto, unfolding(cat_model::specs::Moves::step_delete))]
pub(crate) fn deleted(
    alloc: Global,
    catalogue: &Catalogue,
    delete: &Delete,
) -> Result<Reference, Failure>
    ensures step { GivesAs
        (λ r. (
          with_references catalogue.now
              (without_reference catalogue.now.references delete.now.name),
          replies.Reference r,
        )) result
        (step_delete catalogue.now delete.now) }
    ensures place { OnOk result (catalogue.now.place < 4294967295) }
{
    let reference = catalogue.named(&delete.name)?;
    needs_other_than_default(&delete.name)?;
    needs_kind(delete.kind, reference)?;
    catalogue.needs_log()?;
    needs_head(alloc, &delete.expected, &reference.head)?;
    let removed = copy_reference(reference)?;
    Ok(removed)
}
