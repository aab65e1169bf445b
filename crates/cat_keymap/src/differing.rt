//! Where two maps differ.

ghost use Rattle.std.specs.Prelude.{IfOk, IsTrue, None, OnOk, ◌≡◌, ◌++◌};
ghost use Rattle.cat_names.specs.Fields.{key_cmp};
ghost use Rattle.cat_model.specs.Changed.{keys_of, changed_keys};
ghost use Rattle.cat_model.specs.Maps.{IsMap, entry_of};
ghost use Rattle.cat_ordered.specs.Maps.{from_key};
ghost use Rattle.cat_keymap.specs.Ordered.{rise};
ghost use Rattle.cat_keymap.specs.Walking;
ghost use Rattle.cat_keymap.specs.Places.{below, above};

use crate::walk::Walk;
use cat_codes::fault::NoMemory;
use cat_codes::seq::Seq;
use cat_model::conflict::differs;
use cat_model::entry::Entry;
use cat_names::key::ContentKey;
use std::alloc::Global;

/// Adds the keys of the pairs that are left.
fn add_keys(out: &mut Seq<ContentKey>, mut left: Walk<'_>) -> Result<(), NoMemory>
    ensures { OnOk result (out.new ≡ out.old ++ keys_of left.entry) }
{
    while let Some((key, _)) = left.next() {
        out.push(key.clone()?)?;
    }
    Ok(())
}

/// Adds the keys below one, past which the walk goes.
fn add_below(
    out: &mut Seq<ContentKey>,
    left: &mut Walk<'_>,
    key: &ContentKey,
) -> Result<(), NoMemory>
    ensures keys { OnOk result (out.new ≡ out.old ++ keys_of (below left.old key.now)) }
    ensures left { OnOk result (left.new ≡ from_key key_cmp left.old key.now) }
{
    while let Some(lower) = left.next_below(key) {
        out.push(lower.clone()?)?;
    }
    Ok(())
}

fn add_unless_same(
    out: &mut Seq<ContentKey>,
    key: &ContentKey,
    entry: Entry,
    other: &Option<Entry>,
) -> Result<(), NoMemory>
    ensures { OnOk result (out.new ≡ out.old ++ Walking.unless_same (key.now, entry) other.now) }
{
    if differs(&Some(entry), other).is_some() {
        out.push(key.clone()?)?;
    }
    Ok(())
}

/// Adds the keys that differ up to one, past which the walk goes.
fn take_up(
    out: &mut Seq<ContentKey>,
    left: &mut Walk<'_>,
    key: &ContentKey,
    entry: Entry,
) -> Result<(), NoMemory>
    requires { IsMap left.old }
    ensures keys { OnOk result
        (out.new
        ≡ out.old
        ++ (keys_of (below left.old key.now)
        ++ Walking.unless_same (key.now, entry) (entry_of left.old key.now))) }
    ensures left { OnOk result (left.new ≡ above left.old key.now) }
{
    add_below(out, left, key)?;
    let other = left.take(key);
    add_unless_same(out, key, entry, &other)?;
    Ok(())
}

/// The keys whose entries differ, by one walk over both.
fn walked(alloc: Global, a: Walk<'_>, b: Walk<'_>) -> Result<Seq<ContentKey>, NoMemory>
    requires { IsMap b }
    ensures { IfOk result (λ keys. keys ≡ Walking.walk a.entry b.entry) }
{
    let mut out = Seq::new(alloc);
    let mut rest = a;
    let mut left = b;
    while let Some((key, entry)) = rest.next() {
        take_up(&mut out, &mut left, key, entry)?;
    }
    add_keys(&mut out, left)?;
    Ok(out)
}

/// The keys whose entries differ, ascending.
#[tactic(auto, using(crate::proofs::Walks::walk_is, crate::proofs::Walks::walk_rises))]
pub(crate) fn changed(alloc: Global, a: Walk<'_>, b: Walk<'_>) -> Result<Seq<ContentKey>, NoMemory>
    requires a { IsMap a }
    requires b { IsMap b }
    ensures exact { IfOk result (λ keys. keys ≡ changed_keys a.entry b.entry) }
    ensures ascend { IfOk result (λ keys. IsTrue (rise None keys)) }
{
    walked(alloc, a, b)
}
