//! The contents that a request deletes, which it may put at other keys.

ghost use Rattle.std.specs.Prelude.{IfOk, OnOk, ◌≡◌, ◌||◌};
ghost use Rattle.std.specs.List.{list_any};
ghost use Rattle.cat_rules.specs.declared.deletions.ContentName.{ContentName};
ghost use Rattle.cat_rules.specs.Rules;

use cat_codes::fault::NoMemory;
use cat_keymap::key_map::KeyMap;
use cat_keymap::order::key_of;
use cat_model::entry::Entry;
use cat_model::op::Op;
use cat_names::hash::ContentId;
use std::alloc::Global;
use std::collections::HashSet;

/// What a content keeps when it is renamed: its type's number and its id.
#[derive(Clone, Copy, PartialEq, Eq, Hash)]
pub(crate) struct ContentName {
    kind: u8,
    id: ContentId,
}

pub(crate) fn name_of(entry: &Entry) -> ContentName
    ensures { result ≡ Rules.name_of entry.now }
{
    ContentName {
        kind: entry.kind.number(),
        id: entry.id,
    }
}

fn note_deleted(
    gone: &mut HashSet<ContentName>,
    op: &Op,
    found: &Option<Entry>,
) -> Result<(), NoMemory>
    ensures { OnOk result
        ((name : ContentName)
        → list_any (Rules.same_name name) gone.new.keys
        ≡ (list_any (Rules.same_name name) gone.old.keys || Rules.is_deleted name op.now
        found.now)) }
{
    match (op, found) {
        (Op::Delete { .. }, Some(entry)) => {
            gone.insert(name_of(entry))?;
            Ok(())
        }
        _ => Ok(()),
    }
}

/// The names of the head's contents that operations delete.
pub(crate) fn deleted(
    alloc: Global,
    head: &KeyMap,
    ops: &[Op],
) -> Result<HashSet<ContentName>, NoMemory>
    ensures { IfOk result
        (λ gone. (name : ContentName)
        → list_any (Rules.same_name name) gone.keys
        ≡ list_any (Rules.deletes head.now name) ops.now) }
{
    let mut gone = HashSet::new(alloc);
    for op in ops {
        note_deleted(&mut gone, op, &head.get(key_of(op)))?;
    }
    Ok(gone)
}
