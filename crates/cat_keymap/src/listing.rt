//! Parts of the listing of a map under a filter.

ghost use Rattle.std.specs.Prelude.{IfOk, ◌≡◌};
ghost use Rattle.std.specs.Option.{option_map};
ghost use Rattle.cat_model.specs.Maps.{IsMap};
ghost use Rattle.cat_keymap.specs.Parts;
ghost use Rattle.cat_keymap.specs.Range.{admitted};

use crate::key_map::KeyMap;
use crate::named::named_pairs;
use crate::range::{admits, from_start, goes_on};
use crate::walk::Walk;
use cat_codes::fault::NoMemory;
use cat_codes::seq::Seq;
use cat_model::entry::Entry;
use cat_model::filter::Filter;
use cat_names::key::ContentKey;
use std::alloc::Global;

/// A part of a listing.
#[derive(Drop)]
pub struct ListingPart {
    pub pairs: Seq<(ContentKey, Entry)>,
    /// Whether the listing goes on after them.
    pub more: bool,
}

/// A part of what is admitted of these pairs.
fn chosen_part(
    alloc: Global,
    filter: &Filter,
    after: Option<&ContentKey>,
    limit: u32,
    pairs: &[(ContentKey, Entry)],
) -> Result<ListingPart, NoMemory>
    ensures { IfOk result
        (λ part. part
        ≡ Parts.first_part limit
        (admitted filter.now (option_map (λ key. key.now) after.entry) pairs.now)) }
{
    let mut out = Seq::new(alloc);
    for pair in pairs {
        if admits(filter, after, &pair.0) {
            if out.len() >= limit as usize {
                return Ok(ListingPart {
                    pairs: out,
                    more: true,
                });
            }
            out.push((pair.0.clone()?, pair.1))?;
        }
    }
    Ok(ListingPart {
        pairs: out,
        more: false,
    })
}

/// A part of what is admitted of a walk, which is left where the range ends.
fn walked_part(
    alloc: Global,
    filter: &Filter,
    after: Option<&ContentKey>,
    limit: u32,
    pairs: Walk<'_>,
) -> Result<ListingPart, NoMemory>
    requires { IsMap pairs }
    ensures { IfOk result
        (λ part. part
        ≡ Parts.first_part limit
        (admitted filter.now (option_map (λ key. key.now) after.entry) pairs.entry)) }
{
    let mut out = Seq::new(alloc);
    let mut rest = pairs;
    while let Some((key, entry)) = rest.next() {
        if !goes_on(filter, key) {
            return Ok(ListingPart {
                pairs: out,
                more: false,
            });
        }
        if admits(filter, after, key) {
            if out.len() >= limit as usize {
                return Ok(ListingPart {
                    pairs: out,
                    more: true,
                });
            }
            out.push((key.clone()?, entry))?;
        }
    }
    Ok(ListingPart {
        pairs: out,
        more: false,
    })
}

/// At most so many of the pairs that pass the filter, after a key. Where the filter names keys,
/// these are looked up.
pub(crate) fn part(
    alloc: Global,
    map: &KeyMap,
    filter: &Filter,
    after: Option<&ContentKey>,
    limit: u32,
) -> Result<ListingPart, NoMemory>
    ensures { IfOk result
        (λ part. part
        ≡ Parts.part map.now filter.now (option_map (λ key. key.now) after.entry) limit) }
{
    match filter.keys.as_slice() {
        [] => {
            map.known();
            walked_part(alloc, filter, after, limit, from_start(map, filter, after))
        }
        keys => {
            let named = named_pairs(alloc, map, keys)?;
            chosen_part(alloc, filter, after, limit, named.as_slice())
        }
    }
}
