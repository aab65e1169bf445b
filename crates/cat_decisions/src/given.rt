//! The operations of a request with the ids that its draft gives.

ghost use Rattle.std.specs.Prelude.{◌≡◌, ◌++◌, ◌∷◌, [], IfOk, OnOk, map, filter_map};
ghost use Rattle.sha2.specs.Sha256.{sha256};
ghost use Rattle.cat_model.specs.declared.op.Op.TheVariants.{Put};
ghost use Rattle.cat_model.specs.Commits.{given, given_content, given_ops};
ghost use Rattle.cat_model.specs.State.{content_hash, entry_for};
ghost use Rattle.cat_model.specs.Walks.{content_for, listed};

use cat_codes::fault::NoMemory;
use cat_codes::seq::Seq;
use cat_model::command::CommitRequest;
use cat_model::content::Content;
use cat_model::copies::copy_content;
use cat_model::entry::Entry;
use cat_model::op::Op;
use cat_names::hash::{ContentId, Hash};
use cat_names::key::ContentKey;
use cat_state::copies::copy_op;
use cat_state::records::content_hash;
use std::alloc::Global;

/// The operations and the contents of a request, with their ids, and the hashes of the contents.
#[derive(Drop)]
pub struct Given {
    pub ops: Seq<Op>,
    pub contents: Seq<Content>,
    pub hashes: Vec<Hash>,
}

/// The entry of a content.
fn entry_for(alloc: Global, content: &Content) -> Result<Entry, NoMemory>
    ensures { IfOk result (λ e. e ≡ entry_for sha256 content.now) }
{
    Ok(Entry {
        kind: content.body.kind(),
        id: content.id,
        hash: content_hash(alloc, content)?,
    })
}

/// The content with the id that the draft gives, where it is fresh.
fn given_content(id: ContentId, fresh: bool, content: &Content) -> Result<Content, NoMemory>
    ensures { IfOk result (λ c. c ≡ given_content fresh id content.now) }
{
    let mut content = copy_content(content)?;
    if !fresh {
        return Ok(content);
    }
    content.id = id;
    Ok(content)
}

impl Given {
    /// Adds an operation that has no content.
    fn keep(&mut self, op: &Op) -> Result<(), NoMemory>
        ensures ops { OnOk result (self.new.ops ≡ self.old.ops ++ op.now ∷ []) }
        ensures contents { self.new.contents ≡ self.old.contents }
        ensures hashes { self.new.hashes ≡ self.old.hashes }
    {
        self.ops.push(copy_op(op)?)?;
        Ok(())
    }

    /// Adds a PUT with its content.
    fn put(
        &mut self,
        alloc: Global,
        id: ContentId,
        key: &ContentKey,
        fresh: bool,
        content: &Content,
    ) -> Result<(), NoMemory>
        requires { self.old.hashes.items ≡ map (content_hash sha256) self.old.contents }
        ensures ops { OnOk result
            (self.new.ops
            ≡ self.old.ops
            ++ Put key.now (entry_for sha256 (given_content fresh id content.now)) fresh ∷ []) }
        ensures contents { OnOk result
            (self.new.contents ≡ self.old.contents ++ given_content fresh id content.now ∷ []) }
        ensures hashes { OnOk result
            (self.new.hashes.items ≡ map (content_hash sha256) self.new.contents) }
    {
        let content = given_content(id, fresh, content)?;
        let entry = entry_for(alloc, &content)?;
        let key = key.clone()?;
        self.ops.push(Op::Put { key, entry, fresh })?;
        self.contents.push(content)?;
        self.hashes.push(entry.hash)?;
        Ok(())
    }

    /// Adds an operation, and its content, if it has one among those that are left.
    fn give(
        &mut self,
        alloc: Global,
        id: ContentId,
        op: &Op,
        left: &[Content],
    ) -> Result<(), NoMemory>
        requires { self.old.hashes.items ≡ map (content_hash sha256) self.old.contents }
        ensures ops { OnOk result
            (self.new.ops
            ≡ self.old.ops ++ (given sha256 id (op.now, content_for op.now left.now)).0 ∷ []) }
        ensures contents { OnOk result
            (self.new.contents
            ≡ self.old.contents
            ++ listed (given sha256 id (op.now, content_for op.now left.now)).1) }
        ensures hashes { OnOk result
            (self.new.hashes.items ≡ map (content_hash sha256) self.new.contents) }
    {
        match op {
            Op::Put { key, fresh, .. } => match left {
                [] => self.keep(op),
                [content, ..] => self.put(alloc, id, key, *fresh, content),
            },
            Op::Delete { .. } => self.keep(op),
            Op::Unchanged { .. } => self.keep(op),
        }
    }
}

/// The operations of a request, each with the id of its index, and their contents.
#[tactic(auto, unfolding(cat_model::specs::Commits::given_ops))]
pub(crate) fn with_ids(
    alloc: Global,
    draft: u64,
    request: &CommitRequest,
) -> Result<Given, NoMemory>
    ensures ops { IfOk result (λ g. g.ops ≡ map (λ x. x.0) (given_ops sha256 draft request.now)) }
    ensures contents { IfOk result
        (λ g. g.contents ≡ filter_map (λ x. x.1) (given_ops sha256 draft request.now)) }
    ensures hashes { IfOk result (λ g. g.hashes.items ≡ map (content_hash sha256) g.contents) }
{
    let mut given = Given {
        ops: Seq::new(alloc),
        contents: Seq::new(alloc),
        hashes: Vec::new(alloc),
    };
    let mut left = request.contents.as_slice();
    for (index, op) in request.ops.as_slice().iter().enumerate() {
        let id = ContentId::from_pair(draft, index as u64);
        given.give(alloc, id, op, left)?;
        left = op.left_after(left);
    }
    given.ops.fit();
    given.contents.fit();
    Ok(given)
}
