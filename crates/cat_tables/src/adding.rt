//! The changes that add values to a table.

ghost use Rattle.std.specs.Prelude.{◌≡◌, IfOk};
ghost use Rattle.std.specs.List.Sorted.{IsPermutation, IsSortedByKey};
ghost use Rattle.cat_tables.specs.Arrivals.{puts};
ghost use Rattle.cat_tables.specs.HashOrder.{hash_cmp};

use crate::table::Placed;
use cat_codes::fault::NoMemory;
use cat_names::hash::Hash;
use cat_ordered::change::Change;
use std::alloc::Global;
use std::cmp::Ordering;

fn compare<V: Drop>(a: &Change<Hash, Placed<V>>, b: &Change<Hash, Placed<V>>) -> Ordering
    ensures { result ≡ hash_cmp a.now.0 b.now.0 }
{
    a.key().cmp(b.key())
}

/// The changes that put values, the oldest first, after so many others.
fn changes_after<V: Drop>(
    alloc: Global,
    place: usize,
    items: Vec<(Hash, V)>,
) -> Result<Vec<Change<Hash, Placed<V>>>, NoMemory>
    ensures { IfOk result (λ changes. changes.items ≡ puts place items.items) }
{
    let mut out = Vec::new(alloc);
    let mut next = place;
    for (hash, value) in items {
        let place = next;
        out.push(Change::put(alloc, hash, Placed { place, value })?)?;
        next = place.checked_add(1).ok_or(NoMemory)?;
    }
    Ok(out)
}

/// The same changes, in the order of their hashes.
pub(crate) fn sorted_changes<V: Drop>(
    alloc: Global,
    place: usize,
    items: Vec<(Hash, V)>,
) -> Result<Vec<Change<Hash, Placed<V>>>, NoMemory>
    ensures same { IfOk result (λ changes. IsPermutation (puts place items.items) changes.items) }
    ensures order { IfOk result (λ changes. IsSortedByKey (λ c. c.0) hash_cmp changes.items) }
{
    let mut changes = changes_after(alloc, place, items)?;
    changes.sort_unstable_by(|a, b| compare(a, b));
    Ok(changes)
}
