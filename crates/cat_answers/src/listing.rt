//! Pages of listings.

ghost use Rattle.std.specs.Prelude.{◌≡◌, IfOk, drop, map, take};
ghost use Rattle.std.specs.Option.{option_copied, option_map};
ghost use Rattle.cat_model.specs.Answer as answers;
ghost use Rattle.cat_model.specs.Chain.{entries};
ghost use Rattle.cat_model.specs.Listing.{entries_after, listing};
ghost use Rattle.cat_model.specs.Pages.{first, history, last_shown};

use crate::answering::effective;
use crate::histories::history_items;
use crate::turning::{key_before, next_commit, next_entry, next_name};
use cat_codes::fault::NoMemory;
use cat_model::ask::{EntriesAsk, HistoryAsk, ReferencesAsk};
use cat_model::reference::Reference;
use cat_model::reply::{EntriesPage, HistoryPage, ReferencesPage};
use cat_names::hash::Hash;
use cat_pages::{entries_page, history_page, references_page};
use cat_state::catalogue::Catalogue;
use std::alloc::Global;

/// A page of the references.
#[tactic(auto, unfolding(cat_model::specs::Answer::references_page), using(crate::proofs::Turns::names_next))]
pub(crate) fn references_part(
    alloc: Global,
    catalogue: &Catalogue,
    ask: &ReferencesAsk,
) -> Result<ReferencesPage, NoMemory>
    ensures { IfOk result
        (λ page. page ≡ answers.references_page catalogue.now.references ask.now) }
{
    let page = references_page(alloc, catalogue.references(), ask.after.as_ref(), ask.limit)?;
    Ok(ReferencesPage {
        items: page.items,
        next: next_name(page.token),
    })
}

/// A page of the entries at a commit.
#[tactic(auto, using(crate::proofs::Turns::entries_next))]
pub(crate) fn entries_part(
    alloc: Global,
    catalogue: &Catalogue,
    reference: Option<&Reference>,
    hash: Hash,
    ask: &EntriesAsk,
) -> Result<EntriesPage, NoMemory>
    ensures { let left = entries_after
        (listing (entries catalogue.now.commits hash) ask.now.filter)
        (option_map (λ x. x.1) ask.now.after) in
        IfOk result
        (λ page. page
        ≡ record {
          effective = answers.effective_at (option_copied reference.entry) hash;
          items = take ask.now.limit left;
          next = option_map (λ x. (hash, x.0)) (last_shown ask.now.limit left);
        }) }
{
    let map = catalogue.map_at(&hash)?;
    let after = key_before(&ask.after);
    let page = entries_page(alloc, &map, &hash, &ask.filter, after, ask.limit)?;
    Ok(EntriesPage {
        effective: effective(reference, hash)?,
        items: page.items,
        next: next_entry(page.token),
    })
}

/// A page of the chain of a commit.
#[tactic(auto, using(crate::proofs::Turns::commits_next))]
pub(crate) fn history_part(
    alloc: Global,
    catalogue: &Catalogue,
    hash: &Hash,
    ask: &HistoryAsk,
) -> Result<HistoryPage, NoMemory>
    ensures { let left = history catalogue.now.commits hash.now ask.now.until in
        IfOk result
        (λ page. page
        ≡ record {
          items = map (answers.history_item catalogue.now.present ask.now.with_operations)
              (take ask.now.limit left);
          next = option_map (λ x. x.0) (first (drop ask.now.limit left));
        }) }
{
    let page = history_page(alloc, catalogue.commits(), hash, &ask.until, ask.limit)?;
    let items = history_items(
        alloc,
        catalogue.contents(),
        ask.with_operations,
        page.items.as_slice(),
    )?;
    Ok(HistoryPage {
        items,
        next: next_commit(page.token),
    })
}
