//! Where two maps differ, sought among keys.

ghost use Rattle.std.specs.Prelude.{IfOk, IsTrue, None, OnOk, ◌≡◌, ◌++◌, map};
ghost use Rattle.std.specs.Option.{option_map};
ghost use Rattle.cat_model.specs.Changed.{changed_keys};
ghost use Rattle.cat_keymap.specs.Among;
ghost use Rattle.cat_keymap.specs.Ordered.{rise};

use crate::distinct::comes_after;
use crate::key_map::KeyMap;
use crate::named::sorted;
use cat_codes::fault::NoMemory;
use cat_codes::seq::Seq;
use cat_model::conflict::differs;
use cat_names::key::ContentKey;
use std::alloc::Global;

/// Adds a key whose entries differ, unless it comes no later than the last one.
fn add_unless_alike(
    out: &mut Seq<ContentKey>,
    before: &KeyMap,
    after: &KeyMap,
    last: Option<&ContentKey>,
    key: &ContentKey,
) -> Result<(), NoMemory>
    ensures { OnOk result
        (out.new
        ≡ out.old
        ++ Among.tested before.now after.now (option_map (λ k. k.now) last.entry) key.now) }
{
    if !comes_after(last, key) {
        return Ok(());
    }
    if differs(&before.get(key), &after.get(key)).is_some() {
        out.push(key.clone()?)?;
    }
    Ok(())
}

fn all_tested(
    alloc: Global,
    before: &KeyMap,
    after: &KeyMap,
    sorted: &[&ContentKey],
) -> Result<Seq<ContentKey>, NoMemory>
    ensures { IfOk result
        (λ keys. keys
        ≡ Among.all_tested before.now after.now None (map (λ k. k.now) sorted.now)) }
{
    let mut out = Seq::new(alloc);
    let mut last = None;
    for key in sorted {
        add_unless_alike(&mut out, before, after, last, *key)?;
        last = Some(*key);
    }
    Ok(out)
}

/// The keys whose entries differ, ascending, where each is among these. A key that comes again is
/// looked up once.
pub(crate) fn changed_among(
    alloc: Global,
    before: &KeyMap,
    after: &KeyMap,
    among: &[ContentKey],
) -> Result<Seq<ContentKey>, NoMemory>
    requires { Among.Covers among.now before.now after.now }
    ensures exact { IfOk result (λ keys. keys ≡ changed_keys before.now after.now) }
    ensures ascend { IfOk result (λ keys. IsTrue (rise None keys)) }
{
    let sorted = sorted(alloc, among)?;
    all_tested(alloc, before, after, sorted.as_slice())
}
