//! Room for what plans add.

ghost use Rattle.std.specs.Prelude.{◌≡◌, ◌≤◌, ◌+◌, ◌∷◌, [], IfOk, OnOk, length};
ghost use Rattle.cat_names.specs.Fields.{Key};
ghost use Rattle.cat_model.specs.Chain.{entries};
ghost use Rattle.cat_model.specs.Merges.{entries_set, needs_planned_room};
ghost use Rattle.cat_model.specs.Merges as merges;
ghost use Rattle.cat_state.specs.Giving.{Gives};
ghost use Rattle.cat_decisions.specs.Drafts.{all_planned, all_set_in, changing};
ghost use Rattle.cat_decisions.specs.Drafts as drafts;
ghost use Rattle.cat_decisions.specs.Settling.{HasRoom};

use cat_codes::fault::NoMemory;
use cat_merge::plan::Planned;
use cat_model::entry::Entry;
use cat_model::reference::Reference;
use cat_names::key::ContentKey;
use cat_state::catalogue::Catalogue;
use cat_state::failure::Failure;

/// Whether there are any changes.
fn are_changes(ops: &[(ContentKey, Option<Entry>)]) -> bool
    ensures { result ≡ merges.has_changes ops.now }
{
    match ops {
        [] => false,
        [_, ..] => true,
    }
}

/// Whether a plan changes something.
pub(crate) fn has_changes(planned: &Planned) -> bool
    ensures { result ≡ drafts.has_changes planned.now }
{
    are_changes(planned.plan.ops.as_slice())
}

/// How many commits plans make.
fn commit_count(planned: &[Planned]) -> u64
    ensures value { result ≡ length (changing planned.now) }
    ensures bound { result ≤ length planned.now }
{
    let mut count = 0;
    for one in planned {
        if has_changes(one) {
            count += 1;
        }
    }
    count
}

/// How many keys a change sets.
fn set_one(entry: &Option<Entry>) -> u64
    ensures value { (key : Key) → result ≡ length (entries_set ((key, entry.now) ∷ [])) }
    ensures bound { result ≤ 1 }
{
    match entry {
        None => 0,
        Some(_) => 1,
    }
}

/// How many keys changes set.
fn set_count(ops: &[(ContentKey, Option<Entry>)]) -> u64
    ensures value { result ≡ length (entries_set ops.now) }
    ensures bound { result ≤ length ops.now }
{
    let mut count = 0;
    for (_, entry) in ops {
        count += set_one(entry);
    }
    count
}

/// The sum of two counts of keys. It overflows only for more keys than memory holds.
fn sum(count: u64, more: u64) -> Result<u64, NoMemory>
    ensures { IfOk result (λ total. total ≡ count + more) }
{
    count.checked_add(more).ok_or(NoMemory)
}

/// How many keys plans set.
fn all_set_count(planned: &[Planned]) -> Result<u64, NoMemory>
    ensures { IfOk result (λ count. count ≡ length (all_set_in planned.now)) }
{
    let mut count = 0;
    for one in planned {
        count = sum(count, set_count(one.plan.ops.as_slice()))?;
    }
    Ok(count)
}

/// Tests that there is room for an entry, for the commits that plans make, and for the keys that
/// they set on the branch's map.
pub(crate) fn needs_room(
    catalogue: &Catalogue,
    branch: &Reference,
    planned: &[Planned],
) -> Result<(), Failure>
    ensures test { Gives result
        (needs_planned_room catalogue.now (entries catalogue.now.commits branch.now.head)
        (all_planned planned.now)) }
    ensures room { OnOk result (HasRoom catalogue.now branch.now.head planned.now) }
{
    let head = catalogue.map_at(&branch.head)?;
    let sets = all_set_count(planned)?;
    catalogue.needs_planned_room(&head, commit_count(planned), sets)?;
    Ok(())
}
