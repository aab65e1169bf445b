//! Contents with the commit that they were read at, as JSON.

ghost use Rattle.std.specs.Prelude.{◌≡◌, IfOk};
ghost use Rattle.serde_json.specs.View.{view};
ghost use Rattle.cat_replies.specs.Replies.{content_reply_data, keyed_content_data, contents_data, no_float_keyed_content};

use crate::reference::EffectiveForm;
use cat_codes::fault::NoMemory;
use cat_codes::seq::Seq;
use cat_content::ContentForm;
use cat_json::write::{Object, WriteForm};
use cat_model::content::Content;
use cat_model::reply::{ContentReply, ContentsReply};
use cat_names::key::ContentKey;
use serde_json::Value;
use std::alloc::Global;

// The form of contents with their keys.
struct KeyedContentForm;

impl WriteForm for KeyedContentForm {
    type Of = (ContentKey, Content);

    ghost writes = { keyed_content_data };

    ghost no_float = { no_float_keyed_content };

    fn to_json(alloc: Global, keyed: &(ContentKey, Content)) -> Result<Value, NoMemory> {
        let (key, content) = keyed;
        Ok(
            Object::new(alloc)
                .with::<ContentForm>("content", content)?
                .with::<ContentKey>("key", key)?
                .into_value(),
        )
    }
}

pub(crate) fn content_reply(alloc: Global, reply: &ContentReply) -> Result<Value, NoMemory>
    ensures { IfOk result (λ v. view v ≡ content_reply_data reply.now) }
{
    Ok(
        Object::new(alloc)
            .with::<ContentForm>("content", &reply.content)?
            .with::<EffectiveForm>("effectiveReference", &reply.effective)?
            .into_value(),
    )
}

pub(crate) fn contents_reply(alloc: Global, reply: &ContentsReply) -> Result<Value, NoMemory>
    ensures { IfOk result (λ v. view v ≡ contents_data reply.now) }
{
    Ok(
        Object::new(alloc)
            .with::<Seq<KeyedContentForm>>("contents", &reply.contents)?
            .with::<EffectiveForm>("effectiveReference", &reply.effective)?
            .into_value(),
    )
}
