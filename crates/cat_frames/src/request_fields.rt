//! Commit requests as they are logged: each operation with the content that it puts.

ghost use Rattle.std.specs.Prelude.{ℕ, ◌≡◌, ◌++◌, IsTrue, OnOk};
ghost use Rattle.std.specs.List.{list_all};
ghost use Rattle.sha2.specs.Sha256.{sha256};
ghost use Rattle.cat_codes.specs.Code.{PlacedFit, placed_spelling};
ghost use Rattle.cat_codes.specs.Read.{Reads};
ghost use Rattle.cat_names.specs.declared.hash.ContentId.{ContentId};
ghost use Rattle.cat_model.specs.Contents.{content_code};
ghost use Rattle.cat_model.specs.Commits.{given_request, with_their_contents};
ghost use Rattle.cat_model.specs.WellMade.{have_contents};
ghost use Rattle.cat_model.specs.declared.command.CommitRequest.{CommitRequest};
ghost use Rattle.cat_model.specs.State.{entry_for, fresh_id};
ghost use Rattle.cat_model.specs.Walks.{content_for};
ghost use Rattle.cat_frames.specs.Requests.{are_logged, change_code, has_its_id, is_logged, op_code, ops_code, put, put_at, request_code, request_is_logged};
ghost use Rattle.cat_frames.specs.Walks.{asked_at, is_whole};

use crate::asked::Asked;
use cat_codes::fault::{FieldFault, NoMemory};
use cat_codes::field::{Field, from_bytes, write_within};
use cat_codes::reader::Reader;
use cat_codes::seq::Seq;
use cat_codes::writer::Writer;
use cat_model::command::CommitRequest;
use cat_model::commit::Meta;
use cat_model::content::Content;
use cat_model::entry::Entry;
use cat_model::op::Op;
use cat_names::hash::{ContentId, Hash};
use cat_names::key::ContentKey;
use cat_names::ref_name::RefName;
use std::alloc::Global;

/// The entry of a content, whose bytes these are.
fn entry_of(content: &Content, bytes: &[u8]) -> Entry
    requires { bytes.now ≡ (content_code).spell content.now }
    ensures { result ≡ entry_for sha256 content.now }
{
    Entry {
        kind: content.body.kind(),
        id: content.id,
        hash: Hash::of(bytes),
    }
}

/// A PUT of a key. A fresh content has this id, and else it is Range.
#[tactic(auto, unfolding(crate::specs::Requests::put_code, cat_codes::specs::Code::flag_code, cat_codes::specs::Code::bytes_code))]
fn read_put(
    from: &mut Reader<'_>,
    alloc: Global,
    key: ContentKey,
    id: ContentId,
) -> Result<(Op, Option<Content>), FieldFault>
    ensures { Reads result from.new (put_at sha256 key id from.old) }
{
    let fresh = from.flag()?;
    let bytes = from.framed()?;
    let content: Content = from_bytes(alloc, bytes)?;
    if fresh && content.id != id {
        return Err(FieldFault::Range);
    }
    let entry = entry_of(&content, bytes);
    Ok((Op::Put { key, entry, fresh }, Some(content)))
}

/// An operation with its content. The content of a fresh one has this id, and else it is Range.
#[tactic(auto, unfolding(crate::specs::Requests::op_code, crate::specs::Requests::change_code))]
fn read_op(
    from: &mut Reader<'_>,
    alloc: Global,
    id: ContentId,
) -> Result<(Op, Option<Content>), FieldFault>
    ensures { Reads result from.new ((op_code sha256 id).at from.old) }
{
    let key = ContentKey::read(from, alloc)?;
    match from.u8()? {
        0 => Ok((Op::Delete { key }, None)),
        1 => read_put(from, alloc, key, id),
        2 => Ok((Op::Unchanged { key }, None)),
        _ => Err(FieldFault::Range),
    }
}

/// So many operations with their contents, one after the other.
fn read_ops(
    from: &mut Reader<'_>,
    alloc: Global,
    draft: u64,
    count: u32,
) -> Result<Asked, FieldFault>
    ensures { Reads result from.new (asked_at sha256 draft count from.old) }
{
    let mut asked = Asked::new(alloc);
    for index in 0..count {
        let id = ContentId::from_pair(draft, index as u64);
        let (op, content) = read_op(from, alloc, id)?;
        asked.add(op, content)?;
    }
    Ok(asked)
}

/// A request that the draft of this number logs.
#[tactic(auto, unfolding(crate::specs::Requests::request_code))]
pub(crate) fn read_request(
    from: &mut Reader<'_>,
    alloc: Global,
    draft: u64,
) -> Result<CommitRequest, FieldFault>
    ensures { Reads result from.new ((request_code sha256 draft).at from.old) }
{
    let branch = RefName::read(from, alloc)?;
    let expected = Option::read(from, alloc)?;
    let meta = Meta::read(from, alloc)?;
    let count = from.u32()?;
    let Asked { ops, contents } = read_ops(from, alloc, draft, count)?;
    Ok(CommitRequest {
        branch,
        expected,
        meta,
        ops,
        contents,
    })
}

/// Writes a PUT, but for its key.
#[tactic(auto, unfolding(crate::specs::Requests::change_code, crate::specs::Requests::put_code, cat_codes::specs::Code::flag_code))]
fn write_put(
    alloc: Global,
    out: &mut Writer,
    fresh: bool,
    content: &Content,
) -> Result<(), NoMemory>
    ensures spelled { OnOk result
        ((id : ContentId) → out.new ≡ out.old ++ (change_code id).spell (put fresh content.now)) }
    ensures fits { OnOk result
        ((id : ContentId) → IsTrue (has_its_id id (fresh, content.now))
        → (change_code id).Fits (put fresh content.now)) }
{
    out.u8(1)?;
    out.flag(fresh)?;
    write_within(alloc, out, content)
}

/// Writes an operation, a PUT with the first content that is left.
#[tactic(auto, unfolding(crate::specs::Requests::op_code, crate::specs::Requests::change_code))]
fn write_op(alloc: Global, out: &mut Writer, op: &Op, left: &[Content]) -> Result<(), NoMemory>
    requires { IsTrue (is_whole (op.now, content_for op.now left.now)) }
    ensures spelled { OnOk result
        ((id : ContentId)
        → out.new ≡ out.old ++ (op_code sha256 id).spell (op.now, content_for op.now left.now)) }
    ensures fits { OnOk result
        ((id : ContentId) → IsTrue (is_logged sha256 id (op.now, content_for op.now left.now))
        → (op_code sha256 id).Fits (op.now, content_for op.now left.now)) }
{
    match op {
        Op::Put { key, fresh, .. } => {
            let [content, ..] = left else { unreachable!() };
            key.write(out)?;
            write_put(alloc, out, *fresh, content)
        }
        Op::Delete { key } => {
            key.write(out)?;
            out.u8(0)
        }
        Op::Unchanged { key } => {
            key.write(out)?;
            out.u8(2)
        }
    }
}

/// Writes operations, each PUT with the next of the contents.
fn write_ops(
    alloc: Global,
    out: &mut Writer,
    ops: &[Op],
    contents: &[Content],
) -> Result<(), NoMemory>
    requires { IsTrue (list_all is_whole (with_their_contents ops.now contents.now)) }
    ensures spelled { OnOk result
        ((draft : ℕ)
        → out.new
        ≡ out.old
        ++ placed_spelling (λ index. op_code sha256 (fresh_id draft index)) 0
        (with_their_contents ops.now contents.now)) }
    ensures fits { OnOk result
        ((draft : ℕ)
        → IsTrue (are_logged sha256 draft 0 (with_their_contents ops.now contents.now))
        → PlacedFit (λ index. op_code sha256 (fresh_id draft index)) 0
        (with_their_contents ops.now contents.now)) }
{
    let mut left = contents;
    for op in ops {
        write_op(alloc, out, op, left)?;
        left = op.left_after(left);
    }
    Ok(())
}

/// Writes the operations of a request with their contents.
fn write_asked(
    alloc: Global,
    out: &mut Writer,
    ops: &Seq<Op>,
    contents: &Seq<Content>,
) -> Result<(), NoMemory>
    requires { IsTrue (list_all is_whole (with_their_contents ops.now contents.now)) }
    ensures spelled { OnOk result
        ((draft : ℕ)
        → out.new
        ≡ out.old ++ (ops_code sha256 draft).spell (with_their_contents ops.now contents.now)) }
    ensures fits { OnOk result
        ((draft : ℕ)
        → IsTrue (are_logged sha256 draft 0 (with_their_contents ops.now contents.now))
        → (ops_code sha256 draft).Fits (with_their_contents ops.now contents.now)) }
{
    ops.known();
    out.u32(ops.len() as u32)?;
    write_ops(alloc, out, ops.as_slice(), contents.as_slice())
}

/// Writes a request that the draft of this number logs.
#[tactic(auto, unfolding(crate::specs::Requests::request_code))]
pub(crate) fn write_request(
    alloc: Global,
    out: &mut Writer,
    draft: u64,
    request: &CommitRequest,
) -> Result<(), NoMemory>
    requires { IsTrue (request_is_logged sha256 draft request.now) }
    ensures spelled { OnOk result
        (out.new ≡ out.old ++ (request_code sha256 draft).spell request.now) }
    ensures fits { OnOk result ((request_code sha256 draft).Fits request.now) }
{
    request.branch.write(out)?;
    request.expected.write(out)?;
    request.meta.write(out)?;
    write_asked(alloc, out, &request.ops, &request.contents)
}

/// A request that is well made is logged as one that has a spelling.
pub fn given_requests_are_logged()
    ensures { (draft : ℕ) (request : CommitRequest)
        → IsTrue (have_contents sha256 request.ops request.contents)
        → IsTrue (request_is_logged sha256 draft (given_request sha256 draft request)) }
{}
