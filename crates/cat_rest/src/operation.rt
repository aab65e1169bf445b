//! Operations of commit requests.

ghost use Rattle.std.specs.Prelude.{◌≡◌, IfOk, None};
ghost use Rattle.serde_json.specs.View.{view};
ghost use Rattle.cat_json.specs.Reading.{Gives};
ghost use Rattle.cat_model.specs.WellMade.{may_stand_at};
ghost use Rattle.cat_rest.specs.Operations.{given_put, put_of, put_as, op_as};

use cat_codes::fault::NoMemory;
use cat_content::{ContentForm, Given, hash};
use cat_json::fault::JsonFault;
use cat_json::read::{ReadForm, member, required};
use cat_model::content::{Body, Content};
use cat_model::entry::Entry;
use cat_model::op::Op;
use cat_names::hash::{ContentId, Hash};
use cat_names::key::ContentKey;
use serde_json::Value;
use std::alloc::Global;

/// The form of an operation, read with the content of a PUT.
pub(crate) struct OpForm;

// A PUT of a new content, which has no id until the server gives one.
fn new_put(key: ContentKey, body: Body) -> (Op, Option<Content>)
    ensures { result ≡ put_of key None body }
{
    let id = ContentId { bytes: [0; 16] };
    let entry = Entry {
        kind: body.kind(),
        id,
        hash: Hash { bytes: [0; 32] },
    };
    let op = Op::Put {
        key,
        entry,
        fresh: true,
    };
    (op, Some(Content { id, body }))
}

// A PUT of a content that the request gives the id of.
fn given_put(
    alloc: Global,
    key: ContentKey,
    content: Content,
) -> Result<(Op, Option<Content>), NoMemory>
    ensures { IfOk result (λ r. r ≡ given_put key content) }
{
    let entry = Entry {
        kind: content.body.kind(),
        id: content.id,
        hash: hash(alloc, &content)?,
    };
    let op = Op::Put {
        key,
        entry,
        fresh: false,
    };
    Ok((op, Some(content)))
}

#[tactic(auto, unfolding(crate::specs::Operations::put_as))]
fn put(alloc: Global, value: &Value) -> Result<(Op, Option<Content>), JsonFault>
    ensures { Gives result (put_as (view value.now)) }
{
    let key = required::<ContentKey>(alloc, value, "key")?;
    let Given { id, body } = required::<ContentForm>(alloc, value, "content")?;
    if !body.may_stand_at(&key) {
        return Err(JsonFault::Bad);
    }
    match id {
        None => Ok(new_put(key, body)),
        Some(id) => Ok(given_put(alloc, key, Content { id, body })?),
    }
}

impl ReadForm for OpForm {
    type Of = (Op, Option<Content>);

    ghost reads = { op_as };

    #[tactic(auto, unfolding(crate::specs::Operations::op_as))]
    fn from_json(alloc: Global, value: &Value) -> Result<(Op, Option<Content>), JsonFault> {
        match member(value, "type")?.as_str() {
            Some("PUT") => put(alloc, value),
            Some("DELETE") => {
                let key = required::<ContentKey>(alloc, value, "key")?;
                Ok((Op::Delete { key }, None))
            }
            Some("UNCHANGED") => {
                let key = required::<ContentKey>(alloc, value, "key")?;
                Ok((Op::Unchanged { key }, None))
            }
            _ => Err(JsonFault::Bad),
        }
    }
}
