//! The operations of a commit request, and the contents that they put.

ghost use Rattle.std.specs.Prelude.{◌≡◌, ◌≤◌, IfOk, length};
ghost use Rattle.std.specs.List.{list_all};
ghost use Rattle.sha2.specs.Sha256.{sha256};
ghost use Rattle.cat_model.specs.Commits.{put_entry, puts, with_their_contents};
ghost use Rattle.cat_model.specs.WellMade as well_made;
ghost use Rattle.cat_model.specs.WellMade.{is_made};
ghost use Rattle.cat_model.specs.Walks.{content_for};

use crate::puts::is_put;
use cat_codes::fault::NoMemory;
use cat_keymap::distinct::{are_distinct, ids_differ};
use cat_model::content::Content;
use cat_model::op::Op;
use std::alloc::Global;

/// The most operations of a request.
const MOST_OPS: usize = 10_000;

/// Whether there are as many operations as there may be, on distinct keys, no two given ids alike.
#[tactic(auto, unfolding(cat_model::specs::WellMade::may_be_asked))]
pub(crate) fn may_be_asked(alloc: Global, ops: &[Op]) -> Result<bool, NoMemory>
    ensures { IfOk result (λ b. b ≡ well_made.may_be_asked ops.now) }
{
    if ops.is_empty() || ops.len() > MOST_OPS {
        return Ok(false);
    }
    Ok(are_distinct(alloc, ops)? && ids_differ(alloc, ops)?)
}

/// How many PUTs an operation is.
fn put_count(op: &Op) -> usize
    ensures value { result ≡ length (put_entry op.now) }
    ensures bound { result ≤ 1 }
{
    match op {
        Op::Put { .. } => 1,
        Op::Delete { .. } => 0,
        Op::Unchanged { .. } => 0,
    }
}

/// How many PUTs there are.
fn puts(ops: &[Op]) -> usize
    ensures { result ≡ puts ops.now }
{
    let mut count = 0;
    for op in ops {
        count += put_count(op);
    }
    count
}

/// Whether a PUT has its content, the first that is left.
fn is_made(alloc: Global, op: &Op, left: &[Content]) -> Result<bool, NoMemory>
    ensures { IfOk result (λ b. b ≡ is_made sha256 (op.now, content_for op.now left.now)) }
{
    match op {
        Op::Put { key, entry, fresh } => match left {
            [] => Ok(false),
            [content, ..] => is_put(alloc, key, entry, *fresh, content),
        },
        Op::Delete { .. } => Ok(true),
        Op::Unchanged { .. } => Ok(true),
    }
}

/// Whether each PUT has the next of the contents.
fn are_made(alloc: Global, ops: &[Op], contents: &[Content]) -> Result<bool, NoMemory>
    ensures { IfOk result
        (λ b. b ≡ list_all (is_made sha256) (with_their_contents ops.now contents.now)) }
{
    let mut left = contents;
    for op in ops {
        if !is_made(alloc, op, left)? {
            return Ok(false);
        }
        left = op.left_after(left);
    }
    Ok(true)
}

/// Whether each PUT has its content, and there are no others.
#[tactic(auto, unfolding(cat_model::specs::WellMade::have_contents))]
pub(crate) fn have_contents(
    alloc: Global,
    ops: &[Op],
    contents: &[Content],
) -> Result<bool, NoMemory>
    ensures { IfOk result (λ b. b ≡ well_made.have_contents sha256 ops.now contents.now) }
{
    if contents.len() != puts(ops) {
        return Ok(false);
    }
    are_made(alloc, ops, contents)
}
