//! Replies as JSON.

ghost use Rattle.std.specs.Prelude.{◌≡◌, IfOk, string_bytes};
ghost use Rattle.serde_json.specs.View.{view};
ghost use Rattle.serde_json.specs.Written.{compact_text};
ghost use Rattle.cat_replies.specs.Replies.{added_data, config_data, checkpoint_data, committed_data, reply_data, swept_data, no_float_added, no_float_reply};

use crate::content::{content_reply, contents_reply};
use crate::history::history_page;
use crate::merged::merged;
use crate::page::{entries_page, references_page};
use crate::reference::{EffectiveForm, ReferenceForm};
use cat_codes::fault::NoMemory;
use cat_codes::seq::Seq;
use cat_json::write::{Object, WriteForm, to_text};
use cat_model::reply::{Committed, Reply, Swept};
use cat_names::hash::{ContentId, Hash};
use cat_names::key::ContentKey;
use serde_json::Value;
use std::alloc::Global;

// The form of an id that the server gave.
struct AddedForm;

struct ReplyForm;

impl WriteForm for AddedForm {
    type Of = (ContentId, ContentKey);

    ghost writes = { added_data };

    ghost no_float = { no_float_added };

    fn to_json(alloc: Global, added: &(ContentId, ContentKey)) -> Result<Value, NoMemory> {
        let (id, key) = added;
        Ok(
            Object::new(alloc)
                .with::<ContentId>("contentId", id)?
                .with::<ContentKey>("key", key)?
                .into_value(),
        )
    }
}

fn config(alloc: Global) -> Result<Value, NoMemory>
    ensures { IfOk result (λ v. view v ≡ config_data) }
{
    Ok(
        Object::new(alloc)
            .with::<u32>("actualApiVersion", &2)?
            .with_str("defaultBranch", "main")?
            .with::<u32>("maxSupportedApiVersion", &2)?
            .with::<u32>("minSupportedApiVersion", &2)?
            .with::<Hash>("noAncestorHash", &Hash::none())?
            .into_value(),
    )
}

fn committed(alloc: Global, reply: &Committed) -> Result<Value, NoMemory>
    ensures { IfOk result (λ v. view v ≡ committed_data reply.now) }
{
    Ok(
        Object::new(alloc)
            .with::<Seq<AddedForm>>("addedContents", &reply.added)?
            .with::<ReferenceForm>("targetBranch", &reply.target)?
            .into_value(),
    )
}

fn swept(alloc: Global, reply: &Swept) -> Result<Value, NoMemory>
    ensures { IfOk result (λ v. view v ≡ swept_data reply.now) }
{
    Ok(
        Object::new(alloc)
            .with::<u64>("kept", &reply.kept)?
            .with::<u32>("openedPlace", &reply.opened)?
            .with::<u64>("removed", &reply.removed)?
            .into_value(),
    )
}

fn checkpoint(alloc: Global, place: &u32) -> Result<Value, NoMemory>
    ensures { IfOk result (λ v. view v ≡ checkpoint_data place.now) }
{
    Ok(Object::new(alloc).with::<u32>("place", place)?.into_value())
}

impl WriteForm for ReplyForm {
    type Of = Reply;

    ghost writes = { reply_data };

    ghost no_float = { no_float_reply };

    fn to_json(alloc: Global, reply: &Reply) -> Result<Value, NoMemory> {
        match reply {
            Reply::Config => config(alloc),
            Reply::References(page) => references_page(alloc, page),
            Reply::Effective(effective) => Ok(
                Object::new(alloc)
                    .with::<EffectiveForm>("reference", effective)?
                    .into_value(),
            ),
            Reply::Entries(page) => entries_page(alloc, page),
            Reply::History(page) => history_page(alloc, page),
            Reply::Contents(reply) => contents_reply(alloc, reply),
            Reply::Content(reply) => content_reply(alloc, reply),
            Reply::Reference(reference) => Ok(
                Object::new(alloc)
                    .with::<ReferenceForm>("reference", reference)?
                    .into_value(),
            ),
            Reply::Committed(reply) => committed(alloc, reply),
            Reply::Merged(reply) => merged(alloc, reply),
            Reply::Swept(reply) => swept(alloc, reply),
            Reply::Checkpoint(place) => checkpoint(alloc, place),
        }
    }
}

/// The text of a reply's body.
pub fn to_json(alloc: Global, reply: &Reply) -> Result<String, NoMemory>
    ensures { IfOk result (λ text. string_bytes text ≡ compact_text (reply_data reply.now)) }
{
    to_text::<ReplyForm>(alloc, reply)
}
