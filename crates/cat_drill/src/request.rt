//! What the steps of a drill ask the catalogue.

ghost use Rattle.std.specs.Prelude.{◌≡◌, ◌≤◌, ◌++◌, [], ◌∷◌, IfOk, IsTrue, None, Some};
ghost use Rattle.std.specs.Fmt.{decimal};
ghost use Rattle.sha2.specs.Sha256.{sha256};
ghost use Rattle.cat_model.specs.WellMade.{is_well_made};
ghost use Rattle.cat_work.specs.Turns.{IsCommit};
ghost use Rattle.cat_drill.specs.Steps.{command_of, commit_of, drawn_key, operation, put, table};

use crate::generator::removes;
use cat_codes::ascending::Ascending;
use cat_codes::fault::NoMemory;
use cat_codes::seq::Seq;
use cat_codes::text::Text;
use cat_model::command::{Command, CommitRequest};
use cat_model::commit::Meta;
use cat_model::content::{Body, Content, IcebergTable};
use cat_model::entry::{ContentKind, Entry};
use cat_model::op::Op;
use cat_names::hash::{ContentId, Hash};
use cat_names::key::ContentKey;
use cat_names::key_fault::KeyFault;
use cat_names::ref_name::RefName;
use cat_state::records::content_hash;
use std::alloc::Global;

fn text(alloc: Global, before: &str, number: u64) -> Result<Text, NoMemory>
    ensures { IfOk result (λ text. text ≡ before.now ++ decimal number) }
{
    Ok(Text::from_string(format!(in alloc; "{before}{number}")?)?)
}

/// The key that is drawn.
pub(crate) fn drawn_key(alloc: Global, drawn: u64) -> Result<ContentKey, NoMemory>
    ensures { IfOk result (λ key. key ≡ drawn_key drawn) }
{
    let element = text(alloc, "t", drawn % 1000)?;
    match ContentKey::new(alloc, only(alloc, element)?) {
        Ok(key) => Ok(key),
        Err(fault) => match fault {
            KeyFault::NoMemory => Err(NoMemory),
            _ => unreachable!(),
        },
    }
}

fn table(alloc: Global, step: u64, id: ContentId) -> Result<Content, NoMemory>
    requires { step ≤ 1000000 }
    ensures { IfOk result (λ content. content ≡ table step id) }
{
    let body = Body::IcebergTable(IcebergTable {
        metadata_location: text(alloc, "m", step)?,
        snapshot_id: step as i64,
        schema_id: 0,
        spec_id: 0,
        sort_order_id: 0,
    });
    Ok(Content { id, body })
}

// A PUT of a new content, which has no id until the catalogue gives one.
fn new_put(alloc: Global, step: u64, key: ContentKey) -> Result<(Op, Seq<Content>), NoMemory>
    requires { step ≤ 1000000 }
    ensures { IfOk result (λ r. r ≡ put step key None) }
{
    let id = ContentId { bytes: [0; 16] };
    let entry = Entry {
        kind: ContentKind::IcebergTable,
        id,
        hash: Hash { bytes: [0; 32] },
    };
    let op = Op::Put {
        key,
        entry,
        fresh: true,
    };
    Ok((op, only(alloc, table(alloc, step, id)?)?))
}

// A PUT of the content of an id.
fn put_over(
    alloc: Global,
    step: u64,
    key: ContentKey,
    id: ContentId,
) -> Result<(Op, Seq<Content>), NoMemory>
    requires { step ≤ 1000000 }
    ensures { IfOk result (λ r. r ≡ put step key (Some id)) }
{
    let content = table(alloc, step, id)?;
    let entry = Entry {
        kind: ContentKind::IcebergTable,
        id,
        hash: content_hash(alloc, &content)?,
    };
    let op = Op::Put {
        key,
        entry,
        fresh: false,
    };
    Ok((op, only(alloc, content)?))
}

fn operation(
    alloc: Global,
    step: u64,
    drawn: u64,
    key: ContentKey,
    found: Option<Entry>,
) -> Result<(Op, Seq<Content>), NoMemory>
    requires { step ≤ 1000000 }
    ensures { IfOk result (λ r. r ≡ operation step drawn key found) }
{
    match found {
        None => new_put(alloc, step, key),
        Some(_) if removes(drawn) => Ok((Op::Delete { key }, Seq::new(alloc))),
        Some(entry) => put_over(alloc, step, key, entry.id),
    }
}

fn only<T: Drop>(alloc: Global, value: T) -> Result<Seq<T>, NoMemory>
    ensures { IfOk result (λ list. list ≡ value ∷ []) }
{
    let mut list = Seq::new(alloc);
    list.push(value)?;
    Ok(list)
}

fn commit(alloc: Global, step: u64, op: Op, contents: Seq<Content>) -> Result<Command, NoMemory>
    ensures command { IfOk result (λ command. command ≡ commit_of step (op, contents)) }
    ensures kind { IfOk result IsCommit }
{
    let meta = Meta {
        message: text(alloc, "drill ", step)?,
        authors: Seq::new(alloc),
        signed: Seq::new(alloc),
        properties: Ascending::new(alloc),
        author_time: None,
    };
    Ok(Command::Commit(CommitRequest {
        branch: RefName::main(alloc)?,
        expected: None,
        meta,
        ops: only(alloc, op)?,
        contents,
    }))
}

/// What a step asks, by the key that it draws and the entry that the key has.
#[tactic(auto, unfolding(crate::specs::Steps::command_of))]
pub(crate) fn command_of(
    alloc: Global,
    step: u64,
    drawn: u64,
    key: ContentKey,
    found: Option<Entry>,
) -> Result<Command, NoMemory>
    requires step { step ≤ 1000000 }
    requires key { key ≡ drawn_key drawn }
    ensures command { IfOk result (λ command. command ≡ command_of step drawn found) }
    ensures made { IfOk result (λ command. IsTrue (is_well_made sha256 command)) }
    ensures kind { IfOk result IsCommit }
{
    let (op, contents) = operation(alloc, step, drawn, key, found)?;
    commit(alloc, step, op, contents)
}
