//! The pairs of a map after changes.

ghost use Rattle.std.specs.Prelude.{IfOk, OnOk, IsTrue, ◌≡◌, ◌++◌, None};
ghost use Rattle.cat_codes.specs.Code.{ascends};
ghost use Rattle.cat_names.specs.Fields.{key_cmp};
ghost use Rattle.cat_model.specs.Maps.{after_changes};
ghost use Rattle.cat_keymap.specs.Shared.{pairs_of};

use cat_codes::fault::NoMemory;
use cat_model::entry::Entry;
use cat_names::key::ContentKey;
use cat_ordered::change::Change;
use cat_ordered::ordered_map::OrderedMap;
use std::alloc::{AllocError, Global};

/// A change with a copy of its key.
fn copied(
    alloc: Global,
    change: &(ContentKey, Option<Entry>),
) -> Result<Change<ContentKey, Entry>, AllocError>
    ensures { IfOk result (λ copy. copy ≡ change.now) }
{
    let key = change.0.clone()?;
    match change.1 {
        None => Change::remove(alloc, key),
        Some(entry) => Change::put(alloc, key, entry),
    }
}

fn all_copied(
    alloc: Global,
    changes: &[(ContentKey, Option<Entry>)],
) -> Result<Vec<Change<ContentKey, Entry>>, AllocError>
    ensures { IfOk result (λ copies. copies.items ≡ changes.now) }
{
    let mut out = Vec::new(alloc);
    for change in changes {
        out.push(copied(alloc, change)?)?;
    }
    Ok(out)
}

fn after(
    alloc: Global,
    pairs: &OrderedMap<ContentKey, Entry>,
    changes: &[Change<ContentKey, Entry>],
) -> Result<OrderedMap<ContentKey, Entry>, NoMemory>
    requires { IsTrue (ascends key_cmp None changes.now) }
    ensures { IfOk result (λ map. map ≡ after_changes changes.now pairs.now) }
{
    let changed = pairs.with_changes(alloc, changes)?;
    Ok(changed)
}

fn after_any(
    alloc: Global,
    pairs: &Option<OrderedMap<ContentKey, Entry>>,
    changes: &[Change<ContentKey, Entry>],
) -> Result<OrderedMap<ContentKey, Entry>, NoMemory>
    requires { IsTrue (ascends key_cmp None changes.now) }
    ensures { IfOk result (λ map. map ≡ after_changes changes.now (pairs_of pairs.now)) }
{
    match pairs {
        None => after(alloc, &OrderedMap::new(alloc), changes),
        Some(pairs) => after(alloc, pairs, changes),
    }
}

/// The pairs after changes, whose keys ascend.
pub(crate) fn changed_pairs(
    alloc: Global,
    pairs: &Option<OrderedMap<ContentKey, Entry>>,
    changes: &[(ContentKey, Option<Entry>)],
) -> Result<OrderedMap<ContentKey, Entry>, NoMemory>
    requires { IsTrue (ascends key_cmp None changes.now) }
    ensures { IfOk result (λ map. map ≡ after_changes changes.now (pairs_of pairs.now)) }
{
    let copies = all_copied(alloc, changes)?;
    let changed = after_any(alloc, pairs, copies.as_slice())?;
    Ok(changed)
}
