//! Bodies of commit requests.

ghost use Rattle.std.specs.Prelude.{◌≡◌, [], ◌∷◌, ◌++◌, IfOk, OnOk};
ghost use Rattle.cat_model.specs.WellMade.{may_be_asked};
ghost use Rattle.cat_rest.specs.Bodies.{body_of, commit_as, contents_of, ops_of};

use crate::operation::OpForm;
use cat_codes::fault::NoMemory;
use cat_codes::seq::Seq;
use cat_commit::MetaForm;
use cat_json::fault::JsonFault;
use cat_json::read::{ReadForm, required};
use cat_keymap::distinct::{are_distinct, ids_differ};
use cat_model::commit::Meta;
use cat_model::content::Content;
use cat_model::op::Op;
use serde_json::Value;
use std::alloc::Global;

/// What a commit request asks for, beside its branch.
#[derive(Drop)]
pub struct CommitBody {
    pub meta: Meta,
    pub ops: Seq<Op>,
    pub contents: Seq<Content>,
}

pub(crate) struct CommitForm;

// The most operations of a request.
const MOST_OPS: usize = 10_000;

// Whether there are as many operations as there may be, on distinct keys, no two given ids alike.
#[tactic(auto, unfolding(cat_model::specs::WellMade::may_be_asked))]
fn may_be_asked(alloc: Global, ops: &[Op]) -> Result<bool, NoMemory>
    ensures { IfOk result (λ b. b ≡ may_be_asked ops.now) }
{
    if ops.is_empty() || ops.len() > MOST_OPS {
        return Ok(false);
    }
    Ok(are_distinct(alloc, ops)? && ids_differ(alloc, ops)?)
}

// One more operation, with the content of a PUT.
fn add(
    ops: &mut Seq<Op>,
    contents: &mut Seq<Content>,
    asked: (Op, Option<Content>),
) -> Result<(), NoMemory>
    ensures ops { OnOk result (ops.new ≡ ops.old ++ ops_of (asked ∷ [])) }
    ensures contents { OnOk result (contents.new ≡ contents.old ++ contents_of (asked ∷ [])) }
{
    let (op, content) = asked;
    if let Some(content) = content {
        contents.push(content)?;
    }
    Ok(ops.push(op)?)
}

// The operations and the contents, each apart.
fn body_of(
    alloc: Global,
    meta: Meta,
    asked: Seq<(Op, Option<Content>)>,
) -> Result<CommitBody, NoMemory>
    ensures { IfOk result (λ b. b ≡ body_of meta asked) }
{
    let mut ops = Seq::new(alloc);
    let mut contents = Seq::new(alloc);
    for one in asked.into_vec() {
        add(&mut ops, &mut contents, one)?;
    }
    Ok(CommitBody {
        meta,
        ops,
        contents,
    })
}

impl ReadForm for CommitForm {
    type Of = CommitBody;

    ghost reads = { commit_as };

    #[tactic(auto, unfolding(crate::specs::Bodies::commit_as))]
    fn from_json(alloc: Global, value: &Value) -> Result<CommitBody, JsonFault> {
        let meta = required::<MetaForm>(alloc, value, "commitMeta")?;
        let asked = required::<Seq<OpForm>>(alloc, value, "operations")?;
        let body = body_of(alloc, meta, asked)?;
        if !may_be_asked(alloc, body.ops.as_slice())? {
            return Err(JsonFault::Bad);
        }
        Ok(body)
    }
}
