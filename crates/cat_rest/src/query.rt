//! What queries of reads ask for.

ghost use Rattle.cat_rest.specs.Faults.{GivesQuery};
ghost use Rattle.cat_rest.specs.Queries.{keys_of, keys_in, limit_in, filter_in, references_asked, entries_asked, history_asked, contents_asked};

use crate::parameter::{
    EntriesForm, FetchForm, HistoryForm, ParameterForm, QueryFault, ReferencesForm, optional,
};
use cat_codes::seq::Seq;
use cat_codes::text::Text;
use cat_model::ask::{ContentsAsk, EntriesAsk, HistoryAsk, ReferencesAsk};
use cat_model::filter::Filter;
use cat_model::reference::Position;
use cat_names::hash::Hash;
use cat_names::key::ContentKey;
use cat_queries::{all, first, page_limit};
use std::alloc::Global;

fn keys_of(alloc: Global, texts: Seq<Text>) -> Result<Seq<ContentKey>, QueryFault>
    ensures { GivesQuery result (keys_of texts) }
{
    let mut keys = Seq::new(alloc);
    for text in texts.into_vec() {
        let key = ContentKey::from_text(alloc, text.as_str())?;
        keys.push(key)?;
    }
    Ok(keys)
}

fn keys_in(alloc: Global, query: &[u8]) -> Result<Seq<ContentKey>, QueryFault>
    ensures { GivesQuery result (keys_in query.now) }
{
    keys_of(alloc, all(alloc, query, "key")?)
}

fn limit_in(alloc: Global, query: &[u8]) -> Result<u32, QueryFault>
    ensures { GivesQuery result (limit_in query.now) }
{
    match page_limit(first(alloc, query, "max-records")?.as_ref()) {
        Some(limit) => Ok(limit),
        None => Err(QueryFault::Bad),
    }
}

#[tactic(auto, unfolding(crate::specs::Queries::filter_in))]
fn filter_in(alloc: Global, query: &[u8]) -> Result<Filter, QueryFault>
    ensures { GivesQuery result (filter_in query.now) }
{
    let min = optional::<ContentKey>(alloc, query, "min-key")?;
    let max = optional::<ContentKey>(alloc, query, "max-key")?;
    let prefix = optional::<ContentKey>(alloc, query, "prefix-key")?;
    let keys = keys_in(alloc, query)?;
    Ok(Filter {
        min,
        max,
        prefix,
        keys,
    })
}

/// A page of the references.
#[tactic(auto, unfolding(crate::specs::Queries::references_asked))]
pub(crate) fn references_asked(alloc: Global, query: &[u8]) -> Result<ReferencesAsk, QueryFault>
    ensures { GivesQuery result (references_asked query.now) }
{
    let limit = limit_in(alloc, query)?;
    let after = optional::<ReferencesForm>(alloc, query, "page-token")?;
    Ok(ReferencesAsk { limit, after })
}

/// A page of the entries at a commit.
#[tactic(auto, unfolding(crate::specs::Queries::entries_asked))]
pub(crate) fn entries_asked(
    alloc: Global,
    at: Position,
    query: &[u8],
) -> Result<EntriesAsk, QueryFault>
    ensures { GivesQuery result (entries_asked at query.now) }
{
    let limit = limit_in(alloc, query)?;
    let after = optional::<EntriesForm>(alloc, query, "page-token")?;
    let filter = filter_in(alloc, query)?;
    Ok(EntriesAsk {
        at,
        filter,
        limit,
        after,
    })
}

/// A page of a history.
#[tactic(auto, unfolding(crate::specs::Queries::history_asked))]
pub(crate) fn history_asked(
    alloc: Global,
    at: Position,
    query: &[u8],
) -> Result<HistoryAsk, QueryFault>
    ensures { GivesQuery result (history_asked at query.now) }
{
    let limit = limit_in(alloc, query)?;
    let from = optional::<HistoryForm>(alloc, query, "page-token")?;
    let until = optional::<Hash>(alloc, query, "limit-hash")?;
    let fetch = optional::<FetchForm>(alloc, query, "fetch")?;
    Ok(HistoryAsk {
        at,
        until,
        with_operations: fetch.unwrap_or(false),
        limit,
        from,
    })
}

/// The contents of the keys.
pub(crate) fn contents_asked(
    alloc: Global,
    at: Position,
    query: &[u8],
) -> Result<ContentsAsk, QueryFault>
    ensures { GivesQuery result (contents_asked at query.now) }
{
    let keys = keys_in(alloc, query)?;
    Ok(ContentsAsk { at, keys })
}
