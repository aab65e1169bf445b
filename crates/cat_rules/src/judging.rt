//! The conflicts of a request, or the map after it.

ghost use Rattle.std.specs.Prelude.{IfOk, IsTrue, OnOk, ◌≡◌, ◌++◌};
ghost use Rattle.cat_model.specs.Distinct.{are_distinct};
ghost use Rattle.cat_model.specs.Judge;
ghost use Rattle.cat_model.specs.Namespaces.{is_well_formed};
ghost use Rattle.cat_keymap.specs.Ordered.{values};
ghost use Rattle.cat_rules.specs.Rules;

use crate::deletions::{ContentName, deleted, name_of};
use crate::namespaces::namespace_fault;
use cat_codes::fault::NoMemory;
use cat_codes::seq::Seq;
use cat_keymap::key_map::KeyMap;
use cat_keymap::order::{changes_in_order, in_order, key_of};
use cat_model::conflict::{Conflict, ConflictKind, differs};
use cat_model::entry::Entry;
use cat_model::op::Op;
use cat_names::key::ContentKey;
use std::alloc::Global;
use std::collections::HashSet;

/// What a request is found to be.
#[derive(Drop)]
pub enum Judged {
    /// Its conflicts, keys ascending, one a key; never empty.
    Conflicts(Seq<Conflict>),
    /// Without conflicts, the map after it.
    Map(KeyMap),
}

/// A content with an id needs a key that has this type and id, or a key that has been renamed.
fn known_fault(renamed: bool, entry: &Entry, found: &Option<Entry>) -> Option<ConflictKind>
    ensures { result ≡ Judge.known_fault renamed entry.now found.now }
{
    match found {
        None if renamed => None,
        None => Some(ConflictKind::KeyDoesNotExist),
        Some(found) => {
            if found.kind.number() != entry.kind.number() {
                return Some(ConflictKind::PayloadDiffers);
            }
            if found.id != entry.id {
                return Some(ConflictKind::ContentIdDiffers);
            }
            None
        }
    }
}

/// A new content needs a key that is free.
fn new_fault(found: &Option<Entry>) -> Option<ConflictKind>
    ensures { result ≡ Judge.new_fault found.now }
{
    match found {
        None => None,
        Some(_) => Some(ConflictKind::KeyExists),
    }
}

fn put_fault(
    gone: &HashSet<ContentName>,
    entry: &Entry,
    fresh: bool,
    found: &Option<Entry>,
) -> Option<ConflictKind>
    ensures { result ≡ Rules.put_fault gone.now.keys entry.now fresh found.now }
{
    if fresh {
        return new_fault(found);
    }
    known_fault(gone.contains(&name_of(entry)), entry, found)
}

/// Only what is there can be deleted.
fn delete_fault(found: &Option<Entry>) -> Option<ConflictKind>
    ensures { result ≡ Judge.delete_fault found.now }
{
    match found {
        None => Some(ConflictKind::KeyDoesNotExist),
        Some(_) => None,
    }
}

/// What an operation finds wrong at its key in the head.
fn head_fault(gone: &HashSet<ContentName>, op: &Op, found: &Option<Entry>) -> Option<ConflictKind>
    ensures { result ≡ Rules.fault_at_head gone.now.keys op.now found.now }
{
    match op {
        Op::Put { entry, fresh, .. } => put_fault(gone, entry, *fresh, found),
        Op::Delete { .. } => delete_fault(found),
        Op::Unchanged { .. } => None,
    }
}

/// What an operation breaks of the namespaces.
#[tactic(auto, using(crate::proofs::Found::alone))]
fn change_fault(head: &KeyMap, after: &KeyMap, op: &Op) -> Option<ConflictKind>
    ensures { result ≡ Judge.changes_fault head.now after.now (Judge.op_changes op.now) }
{
    match op {
        Op::Put { key, entry, .. } => namespace_fault(head, after, key, &Some(*entry)),
        Op::Delete { key } => namespace_fault(head, after, key, &None),
        Op::Unchanged { .. } => None,
    }
}

/// The first rule that an operation breaks.
fn op_fault(
    expected: &KeyMap,
    head: &KeyMap,
    after: &KeyMap,
    gone: &HashSet<ContentName>,
    op: &Op,
) -> Option<ConflictKind>
    ensures { result ≡ Rules.fault expected.now head.now after.now gone.now.keys op.now }
{
    let found = head.get(key_of(op));
    if let Some(kind) = differs(&expected.get(key_of(op)), &found) {
        return Some(kind);
    }
    if let Some(kind) = head_fault(gone, op, &found) {
        return Some(kind);
    }
    change_fault(head, after, op)
}

fn note_conflict(
    out: &mut Seq<Conflict>,
    key: &ContentKey,
    kind: Option<ConflictKind>,
) -> Result<(), NoMemory>
    ensures { OnOk result (out.new ≡ out.old ++ Judge.conflict_at key.now kind) }
{
    match kind {
        None => Ok(()),
        Some(kind) => {
            let key = Some(key.clone()?);
            out.push(Conflict { key, kind })?;
            Ok(())
        }
    }
}

fn conflicts(
    alloc: Global,
    expected: &KeyMap,
    head: &KeyMap,
    after: &KeyMap,
    gone: &HashSet<ContentName>,
    sorted: &[&Op],
) -> Result<Seq<Conflict>, NoMemory>
    ensures { IfOk result
        (λ list. list
        ≡ Rules.conflicts expected.now head.now after.now gone.now.keys (values sorted.now)) }
{
    let mut out = Seq::new(alloc);
    for op in sorted {
        note_conflict(
            &mut out,
            key_of(op),
            op_fault(expected, head, after, gone, op),
        )?;
    }
    Ok(out)
}

fn judged_by(conflicts: Seq<Conflict>, after: KeyMap) -> Judged
    ensures { Rules.verdict result ≡ Judge.unless_conflicts conflicts after }
{
    if conflicts.as_slice().is_empty() {
        Judged::Map(after)
    } else {
        Judged::Conflicts(conflicts)
    }
}

/// Judges the operations of a request, on distinct keys and in any order, against the map at the
/// hash that the request expects and the map at the head.
pub fn judge(
    alloc: Global,
    expected: &KeyMap,
    head: &KeyMap,
    ops: &[Op],
) -> Result<Judged, NoMemory>
    requires { IsTrue (are_distinct ops.now) }
    ensures exact { IfOk result
        (λ judged. Rules.verdict judged ≡ Judge.judge expected.now head.now ops.now) }
    ensures well_formed { IsTrue (is_well_formed head.now) → IfOk result Rules.GivesWellFormed }
{
    let sorted = in_order(alloc, ops)?;
    let changes = changes_in_order(alloc, sorted.as_slice())?;
    let after = head.with_changes(alloc, &changes)?;
    let gone = deleted(alloc, head, ops)?;
    let found = conflicts(alloc, expected, head, &after, &gone, sorted.as_slice())?;
    head.known();
    changes.known();
    Ok(judged_by(found, after))
}
