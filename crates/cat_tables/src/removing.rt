//! The changes that take values out of a table.

ghost use Rattle.std.specs.Prelude.{◌≡◌, IfOk, IsTrue, None};
ghost use Rattle.cat_codes.specs.Code.{keys_ascend};
ghost use Rattle.cat_model.specs.Base.{is_among};
ghost use Rattle.cat_names.specs.declared.hash.Hash.{Hash};
ghost use Rattle.cat_tables.specs.Arrivals.{removes};
ghost use Rattle.cat_tables.specs.HashOrder.{hash_cmp};

use crate::table::Placed;
use cat_codes::fault::NoMemory;
use cat_names::hash::Hash;
use cat_ordered::change::Change;
use std::alloc::Global;

/// The hashes in the order of their bytes, each once.
pub(crate) fn ascending(alloc: Global, hashes: &[Hash]) -> Result<Vec<Hash>, NoMemory>
    ensures order { IfOk result (λ v. IsTrue (keys_ascend hash_cmp None v.items)) }
    ensures same { IfOk result
        (λ v. (hash : Hash) → is_among v.items hash ≡ is_among hashes.now hash) }
{
    let mut out = Vec::new(alloc);
    out.extend_from_slice(hashes)?;
    out.sort_unstable();
    out.dedup();
    Ok(out)
}

/// The changes that take away what these hashes have, in their order.
pub(crate) fn removals<V: Drop>(
    alloc: Global,
    hashes: Vec<Hash>,
) -> Result<Vec<Change<Hash, Placed<V>>>, NoMemory>
    ensures { IfOk result (λ changes. changes.items ≡ removes hashes.items) }
{
    let mut out = Vec::new(alloc);
    for hash in hashes {
        out.push(Change::remove(alloc, hash)?)?;
    }
    Ok(out)
}
