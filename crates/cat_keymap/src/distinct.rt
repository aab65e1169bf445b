//! Whether a key or an id comes twice.

ghost use Rattle.std.specs.Prelude.{IfOk, ◌≡◌, None, map};
ghost use Rattle.std.specs.Option.{option_map};
ghost use Rattle.cat_codes.specs.Code.{follows, keys_ascend};
ghost use Rattle.cat_model.specs.Distinct;
ghost use Rattle.cat_model.specs.Judge.{op_key};
ghost use Rattle.cat_model.specs.WellMade;
ghost use Rattle.cat_keymap.specs.Unlike.{unlike};

use crate::order::key_of;
use cat_codes::fault::NoMemory;
use cat_model::op::Op;
use cat_names::hash::ContentId;
use cat_names::key::ContentKey;
use std::alloc::Global;

pub(crate) fn comes_after<K: Ord>(last: Option<&K>, value: &K) -> bool
    ensures { result ≡ follows K.cmp (option_map (λ k. k.now) last.entry) value.now }
{
    match last {
        None => true,
        Some(last) => last.cmp(value).is_lt(),
    }
}

/// Whether each value comes after the one before.
fn ascend<K: Ord>(values: &[&K]) -> bool
    ensures { result ≡ keys_ascend K.cmp None (map (λ k. k.now) values.now) }
{
    let mut last = None;
    for value in values {
        if !comes_after(last, *value) {
            return false;
        }
        last = Some(*value);
    }
    true
}

/// Whether no two values are the same. They are sorted once, and each must then come before the
/// next.
fn are_unlike<K: Ord>(mut values: Vec<&K>) -> bool
    ensures { result ≡ unlike K.eq (map (λ k. k.now) values.entry.items) }
{
    values.sort_unstable();
    ascend(values.as_slice())
}

fn keys(alloc: Global, ops: &[Op]) -> Result<Vec<&ContentKey>, NoMemory>
    ensures { IfOk result (λ v. map (λ k. k.now) v.items ≡ map op_key ops.now) }
{
    let mut out = Vec::new(alloc);
    for op in ops {
        out.push(key_of(op))?;
    }
    Ok(out)
}

fn given_ids(alloc: Global, ops: &[Op]) -> Result<Vec<&ContentId>, NoMemory>
    ensures { IfOk result (λ v. map (λ k. k.now) v.items ≡ WellMade.given_ids ops.now) }
{
    let mut out = Vec::new(alloc);
    for op in ops {
        if let Op::Put {
            entry,
            fresh: false,
            ..
        } = op
        {
            out.push(&entry.id)?;
        }
    }
    Ok(out)
}

/// Whether the operations are on distinct keys.
#[tactic(auto, using(crate::proofs::Twice::distinct_is))]
pub fn are_distinct(alloc: Global, ops: &[Op]) -> Result<bool, NoMemory>
    ensures { IfOk result (λ b. b ≡ Distinct.are_distinct ops.now) }
{
    Ok(are_unlike(keys(alloc, ops)?))
}

/// Whether the ids that the request itself gave to contents differ.
pub fn ids_differ(alloc: Global, ops: &[Op]) -> Result<bool, NoMemory>
    ensures { IfOk result (λ b. b ≡ WellMade.ids_differ (WellMade.given_ids ops.now)) }
{
    Ok(are_unlike(given_ids(alloc, ops)?))
}
