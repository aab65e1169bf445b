//! Checkpoints as fields.

ghost use Rattle.std.specs.Prelude.{◌≡◌, ◌++◌, IsTrue, None, OnOk};
ghost use Rattle.std.specs.List.{AllByRecursion, flat_map};
ghost use Rattle.std.specs.Ordering.{nat_cmp};
ghost use Rattle.sha2.specs.Sha256.{sha256};
ghost use Rattle.cat_codes.specs.Code.{follows, keys_ascend, keys_at, last_of, u64_code};
ghost use Rattle.cat_codes.specs.Read.{Reads};
ghost use Rattle.cat_frames.specs.Checkpoints as checkpoints;
ghost use Rattle.cat_frames.specs.Checkpoints.{checkpoint_code, is_spelled, name_cmp, named_code, open_code, references_code};

use crate::checkpoint::Checkpoint;
use crate::checkpoint_records::{read_commits, read_contents, write_commits, write_contents};
use crate::sources::{read_reference, write_reference};
use cat_codes::fault::{FieldFault, NoMemory};
use cat_codes::field::Field;
use cat_codes::reader::Reader;
use cat_codes::seq::Seq;
use cat_codes::writer::Writer;
use cat_model::reference::Reference;
use cat_names::hash::Hash;
use cat_names::ref_name::RefName;
use std::alloc::Global;

/// Whether each is the number of a draft below this one.
fn are_open_drafts(draft: u64, numbers: &[u64]) -> bool
    ensures { result ≡ checkpoints.are_open_drafts draft numbers.now }
{
    for number in numbers {
        if !(0 < *number && *number < draft) {
            return false;
        }
    }
    true
}

/// Whether the number is above the others.
fn number_is_next(numbers: &[u64], number: u64) -> bool
    ensures { result ≡ follows nat_cmp (last_of numbers.now) number }
{
    match numbers {
        [] => true,
        [.., last] => last.cmp(&number).is_lt(),
    }
}

/// So many numbers, each above the one before.
fn numbers_above(from: &mut Reader<'_>, alloc: Global, count: u32) -> Result<Seq<u64>, FieldFault>
    ensures { Reads result from.new (keys_at nat_cmp u64_code None count from.old) }
{
    let mut numbers = Seq::new(alloc);
    for _ in 0..count {
        let number = from.u64()?;
        if !number_is_next(numbers.as_slice(), number) {
            return Err(FieldFault::Range);
        }
        numbers.push(number)?;
    }
    Ok(numbers)
}

/// The numbers of open drafts below this one, and else Range.
#[tactic(auto, unfolding(crate::specs::Checkpoints::open_code, crate::specs::Checkpoints::numbers_code, cat_codes::specs::Code::ascending_keys))]
fn read_drafts(from: &mut Reader<'_>, alloc: Global, draft: u64) -> Result<Seq<u64>, FieldFault>
    ensures { Reads result from.new ((open_code draft).at from.old) }
{
    let count = from.u32()?;
    let numbers = numbers_above(from, alloc, count)?;
    if !are_open_drafts(draft, numbers.as_slice()) {
        return Err(FieldFault::Range);
    }
    Ok(numbers)
}

fn write_numbers(out: &mut Writer, numbers: &[u64]) -> Result<(), NoMemory>
    ensures spelled { OnOk result (out.new ≡ out.old ++ flat_map (u64_code).spell numbers.now) }
    ensures fits { OnOk result (AllByRecursion (u64_code).Fits numbers.now) }
{
    for number in numbers {
        out.u64(*number)?;
    }
    Ok(())
}

#[tactic(auto, unfolding(crate::specs::Checkpoints::open_code, crate::specs::Checkpoints::numbers_code, cat_codes::specs::Code::ascending_keys))]
fn write_drafts(out: &mut Writer, draft: u64, numbers: &Seq<u64>) -> Result<(), NoMemory>
    requires ascend { IsTrue (keys_ascend nat_cmp None numbers.now) }
    requires below { IsTrue (checkpoints.are_open_drafts draft numbers.now) }
    ensures spelled { OnOk result (out.new ≡ out.old ++ (open_code draft).spell numbers.now) }
    ensures fits { OnOk result ((open_code draft).Fits numbers.now) }
{
    numbers.known();
    out.u32(numbers.len() as u32)?;
    write_numbers(out, numbers.as_slice())?;
    Ok(())
}

/// A reference: its name, its kind and its head.
#[tactic(auto, unfolding(crate::specs::Checkpoints::named_code))]
fn read_named(from: &mut Reader<'_>, alloc: Global) -> Result<Reference, FieldFault>
    ensures { Reads result from.new ((named_code).at from.old) }
{
    let name = RefName::read(from, alloc)?;
    let kind = read_reference(from)?;
    let head = Hash::read(from, alloc)?;
    Ok(Reference { name, kind, head })
}

#[tactic(auto, unfolding(crate::specs::Checkpoints::named_code))]
fn write_named(out: &mut Writer, reference: &Reference) -> Result<(), NoMemory>
    ensures spelled { OnOk result (out.new ≡ out.old ++ (named_code).spell reference.now) }
    ensures fits { OnOk result ((named_code).Fits reference.now) }
{
    reference.name.write(out)?;
    write_reference(out, reference.kind)?;
    reference.head.write(out)?;
    Ok(())
}

/// Whether the reference's name is above those of the others.
fn name_is_next(references: &[Reference], reference: &Reference) -> bool
    ensures { result ≡ follows name_cmp (last_of references.now) reference.now }
{
    match references {
        [] => true,
        [.., last] => last.name.cmp(&reference.name).is_lt(),
    }
}

/// So many references, each name above the one before.
fn references_above(
    from: &mut Reader<'_>,
    alloc: Global,
    count: u32,
) -> Result<Seq<Reference>, FieldFault>
    ensures { Reads result from.new (keys_at name_cmp named_code None count from.old) }
{
    let mut references = Seq::new(alloc);
    for _ in 0..count {
        let reference = read_named(from, alloc)?;
        if !name_is_next(references.as_slice(), &reference) {
            return Err(FieldFault::Range);
        }
        references.push(reference)?;
    }
    Ok(references)
}

/// References whose names ascend, and else Range.
#[tactic(auto, unfolding(crate::specs::Checkpoints::references_code, cat_codes::specs::Code::ascending_keys))]
fn read_references(from: &mut Reader<'_>, alloc: Global) -> Result<Seq<Reference>, FieldFault>
    ensures { Reads result from.new ((references_code).at from.old) }
{
    let count = from.u32()?;
    references_above(from, alloc, count)
}

fn write_each(out: &mut Writer, references: &[Reference]) -> Result<(), NoMemory>
    ensures spelled { OnOk result
        (out.new ≡ out.old ++ flat_map (named_code).spell references.now) }
    ensures fits { OnOk result (AllByRecursion (named_code).Fits references.now) }
{
    for reference in references {
        write_named(out, reference)?;
    }
    Ok(())
}

#[tactic(auto, unfolding(crate::specs::Checkpoints::references_code, cat_codes::specs::Code::ascending_keys))]
fn write_references(out: &mut Writer, references: &Seq<Reference>) -> Result<(), NoMemory>
    requires { IsTrue (keys_ascend name_cmp None references.now) }
    ensures spelled { OnOk result (out.new ≡ out.old ++ (references_code).spell references.now) }
    ensures fits { OnOk result ((references_code).Fits references.now) }
{
    references.known();
    out.u32(references.len() as u32)?;
    write_each(out, references.as_slice())?;
    Ok(())
}

#[tactic(auto, unfolding(crate::specs::Checkpoints::checkpoint_code))]
pub(crate) fn read_checkpoint(
    from: &mut Reader<'_>,
    alloc: Global,
) -> Result<Checkpoint, FieldFault>
    ensures { Reads result from.new ((checkpoint_code sha256).at from.old) }
{
    from.magic(b"\x08")?;
    let place = from.u32()?;
    let draft = from.u64()?;
    let drafts = read_drafts(from, alloc, draft)?;
    let references = read_references(from, alloc)?;
    let commits = read_commits(from, alloc)?;
    let contents = read_contents(from, alloc)?;
    Ok(Checkpoint {
        place,
        draft,
        drafts,
        references,
        commits,
        contents,
    })
}

#[tactic(auto, using(crate::proofs::Rewritten::drafts_ascend, crate::proofs::Rewritten::drafts_below, crate::proofs::Rewritten::names_ascend, crate::proofs::Rewritten::commits_hashed, crate::proofs::Rewritten::contents_spelled), unfolding(crate::specs::Checkpoints::checkpoint_code))]
pub(crate) fn write_checkpoint(
    alloc: Global,
    out: &mut Writer,
    checkpoint: &Checkpoint,
) -> Result<(), NoMemory>
    requires { IsTrue (is_spelled sha256 checkpoint.now) }
    ensures spelled { OnOk result
        (out.new ≡ out.old ++ (checkpoint_code sha256).spell checkpoint.now) }
    ensures fits { OnOk result ((checkpoint_code sha256).Fits checkpoint.now) }
{
    out.raw(b"\x08")?;
    out.u32(checkpoint.place)?;
    out.u64(checkpoint.draft)?;
    write_drafts(out, checkpoint.draft, &checkpoint.drafts)?;
    write_references(out, &checkpoint.references)?;
    write_commits(alloc, out, &checkpoint.commits)?;
    write_contents(alloc, out, &checkpoint.contents)?;
    Ok(())
}
