//! Requests that read.

ghost use Rattle.std.specs.Prelude.{option_map};
ghost use Rattle.cat_rest.specs.Faults.{Answers};
ghost use Rattle.cat_rest.specs.Reads.{references_at, reference_at, entries_at, history_at, contents_at, requested_as, requested_at, content_at};

use crate::path::{key_at, position_at};
use crate::query::{contents_asked, entries_asked, history_asked, references_asked};
use crate::refused::read_body;
use crate::wanted::Wanted;
use cat_codes::seq::Seq;
use cat_json::fault::JsonFault;
use cat_json::read::{ReadForm, required};
use cat_model::ask::{Ask, ContentAsk, ContentsAsk};
use cat_model::refusal::Refused;
use cat_names::key::ContentKey;
use serde_json::Value;
use std::alloc::Global;

/// A page of the references.
pub(crate) fn references_at(alloc: Global, query: &[u8]) -> Result<Wanted, Refused>
    ensures { Answers result (references_at query.now) }
{
    let ask = references_asked(alloc, query)?;
    Ok(Wanted::Read(Ask::References(ask)))
}

/// A reference.
pub(crate) fn reference_at(alloc: Global, part: Option<&str>) -> Result<Wanted, Refused>
    ensures { Answers result (reference_at (option_map (λ s. s.now) part.entry)) }
{
    let at = position_at(alloc, part)?;
    Ok(Wanted::Read(Ask::Reference(at)))
}

/// A page of the entries at a commit.
pub(crate) fn entries_at(alloc: Global, part: Option<&str>, query: &[u8]) -> Result<Wanted, Refused>
    ensures { Answers result (entries_at (option_map (λ s. s.now) part.entry) query.now) }
{
    let at = position_at(alloc, part)?;
    let ask = entries_asked(alloc, at, query)?;
    Ok(Wanted::Read(Ask::Entries(ask)))
}

/// A page of a history.
pub(crate) fn history_at(alloc: Global, part: Option<&str>, query: &[u8]) -> Result<Wanted, Refused>
    ensures { Answers result (history_at (option_map (λ s. s.now) part.entry) query.now) }
{
    let at = position_at(alloc, part)?;
    let ask = history_asked(alloc, at, query)?;
    Ok(Wanted::Read(Ask::History(ask)))
}

/// The contents of the keys of a query.
pub(crate) fn contents_at(
    alloc: Global,
    part: Option<&str>,
    query: &[u8],
) -> Result<Wanted, Refused>
    ensures { Answers result (contents_at (option_map (λ s. s.now) part.entry) query.now) }
{
    let at = position_at(alloc, part)?;
    let ask = contents_asked(alloc, at, query)?;
    Ok(Wanted::Read(Ask::Contents(ask)))
}

// The form of the keys of a body.
struct RequestedForm;

impl ReadForm for RequestedForm {
    type Of = Seq<ContentKey>;

    ghost reads = { requested_as };

    fn from_json(alloc: Global, value: &Value) -> Result<Seq<ContentKey>, JsonFault> {
        required::<Seq<ContentKey>>(alloc, value, "requestedKeys")
    }
}

/// The contents of the keys of a body.
pub(crate) fn requested_at(
    alloc: Global,
    part: Option<&str>,
    body: &[u8],
) -> Result<Wanted, Refused>
    ensures { Answers result (requested_at (option_map (λ s. s.now) part.entry) body.now) }
{
    let at = position_at(alloc, part)?;
    let keys = read_body::<RequestedForm>(alloc, body)?;
    Ok(Wanted::Read(Ask::Contents(ContentsAsk { at, keys })))
}

/// The content of a key.
pub(crate) fn content_at(
    alloc: Global,
    part: Option<&str>,
    key: Option<&str>,
) -> Result<Wanted, Refused>
    ensures { Answers result
        (content_at (option_map (λ s. s.now) part.entry) (option_map (λ s. s.now) key.entry)) }
{
    let at = position_at(alloc, part)?;
    let key = key_at(alloc, key)?;
    Ok(Wanted::Read(Ask::Content(ContentAsk { at, key })))
}
