//! What the operations of a request put, and the ids that their draft gave.

ghost use Rattle.std.specs.Prelude.{◌≡◌, ◌≤◌, ◌++◌, length, flat_map, IfOk, OnOk};
ghost use Rattle.cat_model.specs.Commits.{added_id, put_entry, puts};

use cat_codes::fault::NoMemory;
use cat_codes::seq::Seq;
use cat_model::op::Op;
use cat_names::hash::ContentId;
use cat_names::key::ContentKey;
use std::alloc::Global;

/// How many PUTs an operation is.
fn put_count(op: &Op) -> u64
    ensures value { result ≡ length (put_entry op.now) }
    ensures bound { result ≤ 1 }
{
    match op {
        Op::Put { .. } => 1,
        Op::Delete { .. } => 0,
        Op::Unchanged { .. } => 0,
    }
}

/// How many PUTs there are.
pub(crate) fn puts(ops: &[Op]) -> u64
    ensures value { result ≡ puts ops.now }
    ensures bound { result ≤ length ops.now }
{
    let mut count = 0;
    for op in ops {
        count += put_count(op);
    }
    count
}

/// Adds the id that the server gave, and its key.
fn note_added(out: &mut Seq<(ContentId, ContentKey)>, op: &Op) -> Result<(), NoMemory>
    ensures { OnOk result (out.new ≡ out.old ++ added_id op.now) }
{
    match op {
        Op::Put { key, entry, fresh } => {
            if *fresh {
                out.push((entry.id, key.clone()?))?;
            }
            Ok(())
        }
        Op::Delete { .. } => Ok(()),
        Op::Unchanged { .. } => Ok(()),
    }
}

/// The ids that the server gave, each with its key.
pub(crate) fn added_ids(alloc: Global, ops: &[Op]) -> Result<Seq<(ContentId, ContentKey)>, NoMemory>
    ensures { IfOk result (λ list. list ≡ flat_map added_id ops.now) }
{
    let mut out = Seq::new(alloc);
    for op in ops {
        note_added(&mut out, op)?;
    }
    Ok(out)
}
