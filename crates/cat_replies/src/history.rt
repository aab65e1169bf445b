//! Pages of histories as JSON.

ghost use Rattle.std.specs.Prelude.{◌≡◌, IfOk};
ghost use Rattle.serde_json.specs.View.{view};
ghost use Rattle.cat_replies.specs.Replies.{change_data, history_item_data, history_data, no_float_change, no_float_history_item};

use crate::token::HistoryToken;
use cat_codes::fault::NoMemory;
use cat_codes::seq::Seq;
use cat_commit::told_meta_to_json;
use cat_content::ContentForm;
use cat_json::write::{Object, WriteForm};
use cat_model::reply::{Change, HistoryItem, HistoryPage};
use cat_names::hash::Hash;
use cat_names::key::ContentKey;
use serde_json::Value;
use std::alloc::Global;

struct ChangeForm;

struct HistoryItemForm;

impl WriteForm for ChangeForm {
    type Of = Change;

    ghost writes = { change_data };

    ghost no_float = { no_float_change };

    fn to_json(alloc: Global, change: &Change) -> Result<Value, NoMemory> {
        match change {
            Change::Put(key, content) => Ok(
                Object::new(alloc)
                    .with_some::<ContentForm>("content", content)?
                    .with::<ContentKey>("key", key)?
                    .with_str("type", "PUT")?
                    .into_value(),
            ),
            Change::Delete(key) => Ok(
                Object::new(alloc)
                    .with::<ContentKey>("key", key)?
                    .with_str("type", "DELETE")?
                    .into_value(),
            ),
        }
    }
}

impl WriteForm for HistoryItemForm {
    type Of = HistoryItem;

    ghost writes = { history_item_data };

    ghost no_float = { no_float_history_item };

    fn to_json(alloc: Global, item: &HistoryItem) -> Result<Value, NoMemory> {
        let meta = told_meta_to_json(
            alloc,
            &item.hash,
            item.parent,
            item.merge_parent,
            &item.time,
            &item.meta,
        )?;
        Ok(
            Object::new(alloc)
                .with_value("commitMeta", meta)?
                .with_some::<Seq<ChangeForm>>("operations", &item.operations)?
                .with::<Hash>("parentCommitHash", &item.parent)?
                .into_value(),
        )
    }
}

pub(crate) fn history_page(alloc: Global, page: &HistoryPage) -> Result<Value, NoMemory>
    ensures { IfOk result (λ v. view v ≡ history_data page.now) }
{
    Ok(
        Object::new(alloc)
            .with::<bool>("hasMore", &page.next.is_some())?
            .with::<Seq<HistoryItemForm>>("logEntries", &page.items)?
            .with_some::<HistoryToken>("token", &page.next)?
            .into_value(),
    )
}
