//! The commits of a history, with what they changed.

ghost use Rattle.std.specs.Prelude.{◌≡◌, IfOk, map};
ghost use Rattle.std.specs.Option.{option_copied};
ghost use Rattle.cat_graph.specs.Linked.{values};
ghost use Rattle.cat_model.specs.Answer as answers;

use cat_codes::fault::NoMemory;
use cat_codes::seq::Seq;
use cat_model::commit::Commit;
use cat_model::content::Content;
use cat_model::copies::copy_content;
use cat_model::entry::Entry;
use cat_model::reply::{Change, HistoryItem};
use cat_names::hash::Hash;
use cat_names::key::ContentKey;
use cat_state::contents::find_content;
use cat_state::copies::copy_meta;
use cat_tables::table::Table;
use std::alloc::Global;

/// A copy of a content that may be missing.
fn copy_found(content: Option<&Content>) -> Result<Option<Content>, NoMemory>
    ensures { IfOk result (λ copy. copy ≡ option_copied content.entry) }
{
    match content {
        None => Ok(None),
        Some(content) => Ok(Some(copy_content(content)?)),
    }
}

/// A change of a commit, with the content of its entry where the catalogue holds it.
fn change_of(
    contents: &Table<Content>,
    change: &(ContentKey, Option<Entry>),
) -> Result<Change, NoMemory>
    ensures { IfOk result (λ told. told ≡ answers.change_of contents.now change.now) }
{
    let key = change.0.clone()?;
    match &change.1 {
        None => Ok(Change::Delete(key)),
        Some(entry) => {
            let content = copy_found(find_content(contents, &entry.hash))?;
            Ok(Change::Put(key, content))
        }
    }
}

fn changes_of(
    alloc: Global,
    contents: &Table<Content>,
    ops: &[(ContentKey, Option<Entry>)],
) -> Result<Seq<Change>, NoMemory>
    ensures { IfOk result (λ changes. changes ≡ map (answers.change_of contents.now) ops.now) }
{
    let mut changes = Seq::new(alloc);
    for op in ops {
        changes.push(change_of(contents, op)?)?;
    }
    Ok(changes)
}

/// The changes of a commit, where they are asked for.
fn operations_of(
    alloc: Global,
    contents: &Table<Content>,
    with_operations: bool,
    commit: &Commit,
) -> Result<Option<Seq<Change>>, NoMemory>
    ensures { IfOk result
        (λ changes. changes ≡ answers.operations_of contents.now with_operations commit.now) }
{
    if !with_operations {
        return Ok(None);
    }
    Ok(Some(changes_of(alloc, contents, commit.ops.as_slice())?))
}

#[tactic(auto, unfolding(cat_model::specs::Answer::history_item))]
fn history_item(
    alloc: Global,
    contents: &Table<Content>,
    with_operations: bool,
    hash: &Hash,
    commit: &Commit,
) -> Result<HistoryItem, NoMemory>
    ensures { IfOk result
        (λ item. item
        ≡ answers.history_item contents.now with_operations (hash.now, commit.now)) }
{
    let meta = copy_meta(&commit.meta)?;
    let operations = operations_of(alloc, contents, with_operations, commit)?;
    Ok(HistoryItem {
        hash: *hash,
        parent: commit.parent,
        merge_parent: commit.merge_parent,
        time: commit.time,
        meta,
        operations,
    })
}

/// The commits, each as an item of a history.
pub(crate) fn history_items(
    alloc: Global,
    contents: &Table<Content>,
    with_operations: bool,
    commits: &[(&Hash, &Commit)],
) -> Result<Seq<HistoryItem>, NoMemory>
    ensures { IfOk result
        (λ items. items
        ≡ map (answers.history_item contents.now with_operations) (values commits.now)) }
{
    let mut items = Seq::new(alloc);
    for (hash, commit) in commits {
        items.push(history_item(alloc, contents, with_operations, *hash, *commit)?)?;
    }
    Ok(items)
}
