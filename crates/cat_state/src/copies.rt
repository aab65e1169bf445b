//! Copies of values, equal to them.

ghost use Rattle.std.specs.Prelude.{◌≡◌, IfOk};

use cat_keymap::key_map::KeyMap;
use cat_model::commit::{Commit, Meta};
use cat_model::op::Op;
use std::alloc::AllocError;

/// The same map, which shares its pairs.
pub(crate) fn copy_map(map: &KeyMap) -> Result<KeyMap, AllocError>
    ensures { IfOk result (λ copy. copy ≡ map.now) }
{
    map.clone()
}

/// A copy of a commit.
pub fn copy_commit(commit: &Commit) -> Result<Commit, AllocError>
    ensures { IfOk result (λ copy. copy ≡ commit.now) }
{
    commit.clone()
}

/// A copy of what is said of a commit.
pub fn copy_meta(meta: &Meta) -> Result<Meta, AllocError>
    ensures { IfOk result (λ copy. copy ≡ meta.now) }
{
    meta.clone()
}

/// A copy of an operation.
pub fn copy_op(op: &Op) -> Result<Op, AllocError>
    ensures { IfOk result (λ copy. copy ≡ op.now) }
{
    let copy = match op {
        Op::Put { key, entry, fresh } => Op::Put {
            key: key.clone()?,
            entry: *entry,
            fresh: *fresh,
        },
        Op::Delete { key } => Op::Delete { key: key.clone()? },
        Op::Unchanged { key } => Op::Unchanged { key: key.clone()? },
    };
    Ok(copy)
}
