//! Pages of references and of entries as JSON.

ghost use Rattle.std.specs.Prelude.{◌≡◌, IfOk};
ghost use Rattle.serde_json.specs.View.{view};
ghost use Rattle.cat_replies.specs.Replies.{references_data, entry_data, entries_data, no_float_entry};

use crate::reference::{EffectiveForm, ReferenceForm};
use crate::token::{EntriesToken, ReferencesToken};
use cat_codes::fault::NoMemory;
use cat_codes::seq::Seq;
use cat_content::KindForm;
use cat_json::write::{Object, WriteForm};
use cat_model::entry::Entry;
use cat_model::reply::{EntriesPage, ReferencesPage};
use cat_names::hash::ContentId;
use cat_names::key::ContentKey;
use serde_json::Value;
use std::alloc::Global;

// The form of entries with their keys.
struct EntryForm;

impl WriteForm for EntryForm {
    type Of = (ContentKey, Entry);

    ghost writes = { entry_data };

    ghost no_float = { no_float_entry };

    fn to_json(alloc: Global, item: &(ContentKey, Entry)) -> Result<Value, NoMemory> {
        let (key, entry) = item;
        Ok(
            Object::new(alloc)
                .with::<ContentId>("contentId", &entry.id)?
                .with::<ContentKey>("name", key)?
                .with::<KindForm>("type", &entry.kind)?
                .into_value(),
        )
    }
}

pub(crate) fn references_page(alloc: Global, page: &ReferencesPage) -> Result<Value, NoMemory>
    ensures { IfOk result (λ v. view v ≡ references_data page.now) }
{
    Ok(
        Object::new(alloc)
            .with::<bool>("hasMore", &page.next.is_some())?
            .with::<Seq<ReferenceForm>>("references", &page.items)?
            .with_some::<ReferencesToken>("token", &page.next)?
            .into_value(),
    )
}

pub(crate) fn entries_page(alloc: Global, page: &EntriesPage) -> Result<Value, NoMemory>
    ensures { IfOk result (λ v. view v ≡ entries_data page.now) }
{
    Ok(
        Object::new(alloc)
            .with::<EffectiveForm>("effectiveReference", &page.effective)?
            .with::<Seq<EntryForm>>("entries", &page.items)?
            .with::<bool>("hasMore", &page.next.is_some())?
            .with_some::<EntriesToken>("token", &page.next)?
            .into_value(),
    )
}
