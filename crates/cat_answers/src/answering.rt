//! What reading calls answer.

ghost use Rattle.std.specs.Prelude.{◌≡◌, IfOk};
ghost use Rattle.std.specs.Option.{option_copied};
ghost use Rattle.sha2.specs.Sha256.{sha256};
ghost use Rattle.cat_model.specs.Answer as answers;
ghost use Rattle.cat_model.specs.Answer.{effective_at, answer_content, answer_contents, answer_entries, answer_history, answer_reference};
ghost use Rattle.cat_state.specs.Giving.{Gives};

use crate::keyed::keyed_contents;
use crate::listing::{entries_part, history_part, references_part};
use crate::turning::{commit_before, needs_until, turned_to};
use cat_model::ask::{Ask, ContentAsk, ContentsAsk, EntriesAsk, HistoryAsk};
use cat_model::copies::copy_content;
use cat_model::reference::{Effective, Position, Reference};
use cat_model::refusal::{Missing, Refusal};
use cat_model::reply::{ContentReply, ContentsReply, Reply};
use cat_names::hash::Hash;
use cat_state::catalogue::Catalogue;
use cat_state::contents::find_content;
use cat_state::failure::Failure;
use std::alloc::{AllocError, Global};

/// The commit as its reference's head, or detached.
pub(crate) fn effective(reference: Option<&Reference>, hash: Hash) -> Result<Effective, AllocError>
    ensures { IfOk result (λ e. e ≡ effective_at (option_copied reference.entry) hash) }
{
    let Some(reference) = reference else {
        return Ok(Effective::Detached(hash));
    };
    Ok(Effective::Named(Reference {
        name: reference.name.clone()?,
        kind: reference.kind,
        head: hash,
    }))
}

#[tactic(auto, unfolding(cat_model::specs::Answer::answer_reference))]
fn reference(catalogue: &Catalogue, at: &Position) -> Result<Reply, Failure>
    ensures { Gives result (answer_reference sha256 catalogue.now at.now) }
{
    let reference = catalogue.perhaps_named(&at.from.name)?;
    let hash = catalogue.positioned(reference, at)?;
    Ok(Reply::Effective(effective(reference, hash)?))
}

#[tactic(auto, unfolding(cat_model::specs::Answer::answer_entries))]
fn entries(alloc: Global, catalogue: &Catalogue, ask: &EntriesAsk) -> Result<Reply, Failure>
    ensures { Gives result (answer_entries sha256 catalogue.now ask.now) }
{
    let reference = catalogue.perhaps_named(&ask.at.from.name)?;
    let asked = catalogue.positioned(reference, &ask.at)?;
    let before = commit_before(&ask.after);
    let hash = turned_to(catalogue, asked, &before)?;
    Ok(Reply::Entries(entries_part(alloc, catalogue, reference, hash, ask)?))
}

#[tactic(auto, unfolding(cat_model::specs::Answer::answer_history))]
fn history(alloc: Global, catalogue: &Catalogue, ask: &HistoryAsk) -> Result<Reply, Failure>
    ensures { Gives result (answer_history sha256 catalogue.now ask.now) }
{
    let reference = catalogue.perhaps_named(&ask.at.from.name)?;
    let asked = catalogue.positioned(reference, &ask.at)?;
    let hash = turned_to(catalogue, asked, &ask.from)?;
    needs_until(catalogue, &hash, &ask.until)?;
    Ok(Reply::History(history_part(alloc, catalogue, &hash, ask)?))
}

#[tactic(auto, unfolding(cat_model::specs::Answer::answer_contents))]
fn contents_of_keys(
    alloc: Global,
    catalogue: &Catalogue,
    ask: &ContentsAsk,
) -> Result<Reply, Failure>
    ensures { Gives result (answer_contents sha256 catalogue.now ask.now) }
{
    let reference = catalogue.perhaps_named(&ask.at.from.name)?;
    let hash = catalogue.positioned(reference, &ask.at)?;
    let map = catalogue.map_at(&hash)?;
    let contents = keyed_contents(alloc, catalogue.contents(), &map, ask.keys.as_slice())?;
    Ok(Reply::Contents(ContentsReply {
        effective: effective(reference, hash)?,
        contents,
    }))
}

#[tactic(auto, unfolding(cat_model::specs::Answer::answer_content))]
fn content(catalogue: &Catalogue, ask: &ContentAsk) -> Result<Reply, Failure>
    ensures { Gives result (answer_content sha256 catalogue.now ask.now) }
{
    let reference = catalogue.perhaps_named(&ask.at.from.name)?;
    let hash = catalogue.positioned(reference, &ask.at)?;
    let Some(entry) = catalogue.map_at(&hash)?.get(&ask.key) else {
        return Err(Failure::Refused(Refusal::ContentNotFound(Missing::Absent)));
    };
    let Some(content) = find_content(catalogue.contents(), &entry.hash) else {
        return Err(Failure::Refused(Refusal::ContentNotFound(Missing::Expired)));
    };
    Ok(Reply::Content(ContentReply {
        effective: effective(reference, hash)?,
        content: copy_content(content)?,
    }))
}

/// Answers a reading call.
pub fn answer(alloc: Global, catalogue: &Catalogue, ask: &Ask) -> Result<Reply, Failure>
    ensures { Gives result (answers.answer sha256 catalogue.now ask.now) }
{
    match ask {
        Ask::Config => Ok(Reply::Config),
        Ask::References(ask) => Ok(Reply::References(references_part(alloc, catalogue, ask)?)),
        Ask::Reference(at) => reference(catalogue, at),
        Ask::Entries(ask) => entries(alloc, catalogue, ask),
        Ask::History(ask) => history(alloc, catalogue, ask),
        Ask::Contents(ask) => contents_of_keys(alloc, catalogue, ask),
        Ask::Content(ask) => content(catalogue, ask),
    }
}
