//! The pairs of the keys that a filter names, each looked up.

ghost use Rattle.std.specs.Prelude.{IfOk, IsTrue, OnOk, ◌≡◌, ◌++◌, None, map};
ghost use Rattle.std.specs.List.Sorted.{IsPermutation};
ghost use Rattle.std.specs.Option.{option_map};
ghost use Rattle.cat_names.specs.Fields.{key_cmp};
ghost use Rattle.cat_model.specs.Maps.{IsMap};
ghost use Rattle.cat_keymap.specs.Ordered.{climbs};
ghost use Rattle.cat_keymap.specs.Range;

use crate::distinct::comes_after;
use crate::key_map::KeyMap;
use cat_codes::fault::NoMemory;
use cat_model::entry::Entry;
use cat_names::key::ContentKey;
use std::alloc::Global;

fn references(alloc: Global, keys: &[ContentKey]) -> Result<Vec<&ContentKey>, NoMemory>
    ensures { IfOk result (λ v. map (λ k. k.now) v.items ≡ keys.now) }
{
    let mut out = Vec::new(alloc);
    for key in keys {
        out.push(key)?;
    }
    Ok(out)
}

/// The keys, none below the one before it.
pub(crate) fn sorted(alloc: Global, keys: &[ContentKey]) -> Result<Vec<&ContentKey>, NoMemory>
    ensures same { IfOk result (λ v. IsPermutation keys.now (map (λ k. k.now) v.items)) }
    ensures order { IfOk result (λ v. IsTrue (climbs key_cmp None (map (λ k. k.now) v.items))) }
{
    let mut out = references(alloc, keys)?;
    out.sort_unstable();
    Ok(out)
}

/// Adds the pair of a key, if there is one, unless the key comes no later than the last one.
fn look_up(
    out: &mut Vec<(ContentKey, Entry)>,
    within: &KeyMap,
    last: Option<&ContentKey>,
    key: &ContentKey,
) -> Result<(), NoMemory>
    ensures { OnOk result
        (out.new.items
        ≡ out.old.items
        ++ Range.looked_up (option_map (λ k. k.now) last.entry) key.now within.now) }
{
    if !comes_after(last, key) {
        return Ok(());
    }
    if let Some(entry) = within.get(key) {
        out.push((key.clone()?, entry))?;
    }
    Ok(())
}

fn looked_up(
    alloc: Global,
    within: &KeyMap,
    sorted: &[&ContentKey],
) -> Result<Vec<(ContentKey, Entry)>, NoMemory>
    ensures { IfOk result
        (λ v. v.items ≡ Range.all_looked_up None (map (λ k. k.now) sorted.now) within.now) }
{
    let mut out = Vec::new(alloc);
    let mut last = None;
    for key in sorted {
        look_up(&mut out, within, last, *key)?;
        last = Some(*key);
    }
    Ok(out)
}

/// The pairs of these keys, keys ascending. A key that comes again is looked up once.
pub(crate) fn named_pairs(
    alloc: Global,
    within: &KeyMap,
    keys: &[ContentKey],
) -> Result<Vec<(ContentKey, Entry)>, NoMemory>
    ensures { IfOk result (λ v. v.items ≡ Range.named keys.now within.now) }
{
    within.known();
    let sorted = sorted(alloc, keys)?;
    looked_up(alloc, within, sorted.as_slice())
}
