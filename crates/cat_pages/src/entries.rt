//! Pages of the entries of a map.

ghost use Rattle.std.specs.Prelude.{◌≡◌, IfOk, take};
ghost use Rattle.std.specs.Option.{option_map};
ghost use Rattle.cat_model.specs.Listing.{listing, entries_after};
ghost use Rattle.cat_model.specs.Pages.{last_shown};
ghost use Rattle.cat_pages.specs.Following.{entries_following};

use crate::page::{Page, last};
use crate::token::Token;
use cat_codes::fault::NoMemory;
use cat_keymap::key_map::KeyMap;
use cat_keymap::listing::ListingPart;
use cat_model::entry::Entry;
use cat_model::filter::Filter;
use cat_names::hash::Hash;
use cat_names::key::ContentKey;
use std::alloc::Global;

// The token of the last entry, where more follow.
fn following(at: &Hash, part: &ListingPart) -> Result<Option<Token>, NoMemory>
    ensures { IfOk result (λ token. token ≡ entries_following at.now part.now) }
{
    if !part.more {
        return Ok(None);
    }
    match last(part.pairs.as_slice()) {
        None => Ok(None),
        Some((key, _)) => Ok(Some(Token::Entries(*at, key.clone()?))),
    }
}

/// At most `limit` of the entries that the filter lets pass, those after a key, of the map at a
/// commit. The token names the commit and the last key, where more follow.
pub fn entries_page(
    alloc: Global,
    map: &KeyMap,
    at: &Hash,
    filter: &Filter,
    after: Option<&ContentKey>,
    limit: u32,
) -> Result<Page<(ContentKey, Entry)>, NoMemory>
    ensures items { let left = entries_after (listing map.now filter.now)
        (option_map (λ key. key.now) after.entry) in
        IfOk result (λ page. page.items ≡ take limit left) }
    ensures token { let left = entries_after (listing map.now filter.now)
        (option_map (λ key. key.now) after.entry) in
        IfOk result
        (λ page. page.token ≡ option_map (λ x. Token.Entries at.now x.0) (last_shown limit left)) }
{
    let part = map.page(alloc, filter, after, limit)?;
    let token = following(at, &part)?;
    Ok(Page {
        items: part.pairs,
        token,
    })
}
