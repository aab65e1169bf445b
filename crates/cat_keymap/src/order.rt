//! Operations of a request in the order of their keys, and the changes that they make.

ghost use Rattle.std.specs.Prelude.{IfOk, IsTrue, OnOk, ◌≡◌, ◌++◌, flat_map};
ghost use Rattle.cat_names.specs.Fields.{key_cmp};
ghost use Rattle.cat_model.specs.Distinct.{are_distinct};
ghost use Rattle.cat_model.specs.Judge.{op_key, op_changes, by_key};
ghost use Rattle.cat_model.specs.Judge;
ghost use Rattle.cat_keymap.specs.Ordered.{values, are_ordered};

use cat_codes::ascending::Ascending;
use cat_codes::fault::NoMemory;
use cat_codes::seq::Seq;
use cat_model::entry::Entry;
use cat_model::op::Op;
use cat_names::key::ContentKey;
use std::alloc::Global;
use std::cmp::Ordering;

/// The key of an operation.
pub fn key_of(op: &Op) -> &ContentKey
    ensures { result.now ≡ op_key op.now }
{
    match op {
        Op::Put { key, .. } => key,
        Op::Delete { key } => key,
        Op::Unchanged { key } => key,
    }
}

fn compare(a: &Op, b: &Op) -> Ordering
    ensures { result ≡ key_cmp (op_key a.now) (op_key b.now) }
{
    key_of(a).cmp(key_of(b))
}

fn references(alloc: Global, ops: &[Op]) -> Result<Vec<&Op>, NoMemory>
    ensures { IfOk result (λ v. values v.items ≡ ops.now) }
{
    let mut out = Vec::new(alloc);
    for op in ops {
        out.push(op)?;
    }
    Ok(out)
}

/// The operations of a request on distinct keys, keys ascending. They are sorted once.
pub fn in_order(alloc: Global, ops: &[Op]) -> Result<Vec<&Op>, NoMemory>
    requires { IsTrue (are_distinct ops.now) }
    ensures exact { IfOk result (λ sorted. values sorted.items ≡ by_key ops.now) }
    ensures ascend { IfOk result (λ sorted. IsTrue (are_ordered (values sorted.items))) }
{
    let mut sorted = references(alloc, ops)?;
    sorted.sort_unstable_by(|a, b| compare(a, b));
    Ok(sorted)
}

fn note_change(out: &mut Seq<(ContentKey, Option<Entry>)>, op: &Op) -> Result<(), NoMemory>
    ensures { OnOk result (out.new ≡ out.old ++ op_changes op.now) }
{
    match op {
        Op::Put { key, entry, .. } => {
            out.push((key.clone()?, Some(*entry)))?;
            Ok(())
        }
        Op::Delete { key } => {
            out.push((key.clone()?, None))?;
            Ok(())
        }
        Op::Unchanged { .. } => Ok(()),
    }
}

fn listed_changes(
    alloc: Global,
    sorted: &[&Op],
) -> Result<Seq<(ContentKey, Option<Entry>)>, NoMemory>
    ensures { IfOk result (λ list. list ≡ flat_map op_changes (values sorted.now)) }
{
    let mut out = Seq::new(alloc);
    for op in sorted {
        note_change(&mut out, op)?;
    }
    out.fit();
    Ok(out)
}

/// The changes that operations in order make, each a key and its new entry, or none where the key
/// goes.
pub fn changes_in_order(
    alloc: Global,
    sorted: &[&Op],
) -> Result<Ascending<ContentKey, Option<Entry>>, NoMemory>
    requires { IsTrue (are_ordered (values sorted.now)) }
    ensures { IfOk result (λ changes. changes ≡ flat_map op_changes (values sorted.now)) }
{
    let listed = listed_changes(alloc, sorted)?;
    let Some(changes) = Ascending::from_seq(listed) else {
        unreachable!()
    };
    Ok(changes)
}

/// The changes that the operations of a request on distinct keys make, as a commit stores them.
#[tactic(auto, unfolding(cat_model::specs::Judge::changes_of))]
pub fn changes_of(
    alloc: Global,
    ops: &[Op],
) -> Result<Ascending<ContentKey, Option<Entry>>, NoMemory>
    requires { IsTrue (are_distinct ops.now) }
    ensures { IfOk result (λ changes. changes ≡ Judge.changes_of ops.now) }
{
    let sorted = in_order(alloc, ops)?;
    changes_in_order(alloc, sorted.as_slice())
}
