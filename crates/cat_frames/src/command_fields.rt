//! Calls as fields, by the numbers of their kinds.

ghost use Rattle.std.specs.Prelude.{◌≡◌, ◌++◌, IsTrue, OnOk};
ghost use Rattle.sha2.specs.Sha256.{sha256};
ghost use Rattle.cat_codes.specs.Read.{Reads};
ghost use Rattle.cat_frames.specs.Commands.{create_code, create_is_logged, assign_code, assign_is_logged, delete_code, merge_code, merge_is_logged, transplant_code, transplant_is_logged, command_number, command_code, command_is_logged};

use crate::modes::{read_modes, write_modes};
use crate::request_fields::{read_request, write_request};
use crate::sources::{
    read_expected_kind, read_pointer, read_reference, write_expected_kind, write_pointer,
    write_reference,
};
use cat_codes::fault::{FieldFault, NoMemory};
use cat_codes::field::Field;
use cat_codes::reader::Reader;
use cat_codes::seq::Seq;
use cat_codes::writer::Writer;
use cat_model::command::{Assign, Command, Create, Delete, Merge, Transplant};
use cat_model::commit::Meta;
use cat_names::hash::Hash;
use cat_names::ref_name::RefName;
use std::alloc::Global;

#[tactic(auto, unfolding(crate::specs::Commands::create_code))]
fn read_create(from: &mut Reader<'_>, alloc: Global) -> Result<Create, FieldFault>
    ensures { Reads result from.new ((create_code).at from.old) }
{
    let name = RefName::read(from, alloc)?;
    let kind = read_reference(from)?;
    let source = read_pointer(from, alloc)?;
    Ok(Create {
        name,
        kind,
        source,
        source_kind: None,
    })
}

#[tactic(auto, using(crate::proofs::Untold::create_back), unfolding(crate::specs::Commands::create_code))]
fn write_create(out: &mut Writer, create: &Create) -> Result<(), NoMemory>
    requires { IsTrue (create_is_logged create.now) }
    ensures spelled { OnOk result (out.new ≡ out.old ++ (create_code).spell create.now) }
    ensures fits { OnOk result ((create_code).Fits create.now) }
{
    create.name.write(out)?;
    write_reference(out, create.kind)?;
    write_pointer(out, &create.source)?;
    Ok(())
}

#[tactic(auto, unfolding(crate::specs::Commands::assign_code))]
fn read_assign(from: &mut Reader<'_>, alloc: Global) -> Result<Assign, FieldFault>
    ensures { Reads result from.new ((assign_code).at from.old) }
{
    let name = RefName::read(from, alloc)?;
    let kind = read_expected_kind(from)?;
    let expected = Option::read(from, alloc)?;
    let source = read_pointer(from, alloc)?;
    Ok(Assign {
        name,
        kind,
        expected,
        source,
        source_kind: None,
    })
}

#[tactic(auto, using(crate::proofs::Untold::assign_back), unfolding(crate::specs::Commands::assign_code))]
fn write_assign(out: &mut Writer, assign: &Assign) -> Result<(), NoMemory>
    requires { IsTrue (assign_is_logged assign.now) }
    ensures spelled { OnOk result (out.new ≡ out.old ++ (assign_code).spell assign.now) }
    ensures fits { OnOk result ((assign_code).Fits assign.now) }
{
    assign.name.write(out)?;
    write_expected_kind(out, assign.kind)?;
    assign.expected.write(out)?;
    write_pointer(out, &assign.source)?;
    Ok(())
}

#[tactic(auto, unfolding(crate::specs::Commands::delete_code))]
fn read_delete(from: &mut Reader<'_>, alloc: Global) -> Result<Delete, FieldFault>
    ensures { Reads result from.new ((delete_code).at from.old) }
{
    let name = RefName::read(from, alloc)?;
    let kind = read_expected_kind(from)?;
    let expected = Option::read(from, alloc)?;
    Ok(Delete {
        name,
        kind,
        expected,
    })
}

#[tactic(auto, unfolding(crate::specs::Commands::delete_code))]
fn write_delete(out: &mut Writer, delete: &Delete) -> Result<(), NoMemory>
    ensures spelled { OnOk result (out.new ≡ out.old ++ (delete_code).spell delete.now) }
    ensures fits { OnOk result ((delete_code).Fits delete.now) }
{
    delete.name.write(out)?;
    write_expected_kind(out, delete.kind)?;
    delete.expected.write(out)?;
    Ok(())
}

#[tactic(auto, unfolding(crate::specs::Commands::merge_code))]
fn read_merge(from: &mut Reader<'_>, alloc: Global) -> Result<Merge, FieldFault>
    ensures { Reads result from.new ((merge_code).at from.old) }
{
    let branch = RefName::read(from, alloc)?;
    let hash = Option::read(from, alloc)?;
    let source = RefName::read(from, alloc)?;
    let from_hash = Hash::read(from, alloc)?;
    let meta = Meta::read(from, alloc)?;
    let modes = read_modes(from, alloc)?;
    Ok(Merge {
        branch,
        hash,
        from: source,
        from_hash,
        meta,
        modes,
        dry_run: false,
        conflicts_as_result: false,
    })
}

#[tactic(auto, using(crate::proofs::Untold::merge_back), unfolding(crate::specs::Commands::merge_code))]
fn write_merge(out: &mut Writer, merge: &Merge) -> Result<(), NoMemory>
    requires { IsTrue (merge_is_logged merge.now) }
    ensures spelled { OnOk result (out.new ≡ out.old ++ (merge_code).spell merge.now) }
    ensures fits { OnOk result ((merge_code).Fits merge.now) }
{
    merge.branch.write(out)?;
    merge.hash.write(out)?;
    merge.from.write(out)?;
    merge.from_hash.write(out)?;
    merge.meta.write(out)?;
    write_modes(out, &merge.modes)?;
    Ok(())
}

#[tactic(auto, unfolding(crate::specs::Commands::transplant_code))]
fn read_transplant(from: &mut Reader<'_>, alloc: Global) -> Result<Transplant, FieldFault>
    ensures { Reads result from.new ((transplant_code).at from.old) }
{
    let branch = RefName::read(from, alloc)?;
    let hash = Option::read(from, alloc)?;
    let source = RefName::read(from, alloc)?;
    let hashes = Seq::read(from, alloc)?;
    let modes = read_modes(from, alloc)?;
    Ok(Transplant {
        branch,
        hash,
        from: source,
        hashes,
        modes,
        dry_run: false,
        conflicts_as_result: false,
    })
}

#[tactic(auto, using(crate::proofs::Untold::transplant_back), unfolding(crate::specs::Commands::transplant_code))]
fn write_transplant(out: &mut Writer, transplant: &Transplant) -> Result<(), NoMemory>
    requires { IsTrue (transplant_is_logged transplant.now) }
    ensures spelled { OnOk result (out.new ≡ out.old ++ (transplant_code).spell transplant.now) }
    ensures fits { OnOk result ((transplant_code).Fits transplant.now) }
{
    transplant.branch.write(out)?;
    transplant.hash.write(out)?;
    transplant.from.write(out)?;
    transplant.hashes.write(out)?;
    write_modes(out, &transplant.modes)?;
    Ok(())
}

/// The number of a call's kind.
pub(crate) fn command_number(command: &Command) -> u8
    ensures { result ≡ command_number command.now }
{
    match command {
        Command::Create(_) => 1,
        Command::Assign(_) => 2,
        Command::Delete(_) => 3,
        Command::Commit(_) => 4,
        Command::Merge(_) => 5,
        Command::Transplant(_) => 6,
    }
}

/// A call of the kind of this number, with this draft.
pub(crate) fn read_command(
    from: &mut Reader<'_>,
    alloc: Global,
    draft: u64,
    kind: u8,
) -> Result<Command, FieldFault>
    ensures { Reads result from.new ((command_code sha256 draft kind).at from.old) }
{
    match kind {
        1 => Ok(Command::Create(read_create(from, alloc)?)),
        2 => Ok(Command::Assign(read_assign(from, alloc)?)),
        3 => Ok(Command::Delete(read_delete(from, alloc)?)),
        4 => Ok(Command::Commit(read_request(from, alloc, draft)?)),
        5 => Ok(Command::Merge(read_merge(from, alloc)?)),
        6 => Ok(Command::Transplant(read_transplant(from, alloc)?)),
        _ => Err(FieldFault::Range),
    }
}

pub(crate) fn write_command(
    alloc: Global,
    out: &mut Writer,
    draft: u64,
    command: &Command,
) -> Result<(), NoMemory>
    requires { IsTrue (command_is_logged sha256 draft command.now) }
    ensures spelled { OnOk result
        (out.new
        ≡ out.old ++ (command_code sha256 draft (command_number command.now)).spell command.now) }
    ensures fits { OnOk result
        ((command_code sha256 draft (command_number command.now)).Fits command.now) }
{
    match command {
        Command::Create(create) => write_create(out, create),
        Command::Assign(assign) => write_assign(out, assign),
        Command::Delete(delete) => write_delete(out, delete),
        Command::Commit(request) => write_request(alloc, out, draft, request),
        Command::Merge(merge) => write_merge(out, merge),
        Command::Transplant(transplant) => write_transplant(out, transplant),
    }
}
