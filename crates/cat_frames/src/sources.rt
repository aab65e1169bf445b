//! What calls name, as fields: sources and kinds of references.

ghost use Rattle.std.specs.Prelude.{◌≡◌, ◌++◌, IsTrue, OnOk};
ghost use Rattle.cat_codes.specs.Read.{Reads};
ghost use Rattle.cat_codes.specs.Code.{option};
ghost use Rattle.cat_model.specs.WellMade.{points};
ghost use Rattle.cat_frames.specs.Sources.{pointer_code, reference_number, reference_of, reference_code};

use cat_codes::fault::{FieldFault, NoMemory};
use cat_codes::field::Field;
use cat_codes::reader::Reader;
use cat_codes::writer::Writer;
use cat_model::reference::{Kind, Pointer};
use std::alloc::Global;

/// A name, a hash, or both.
#[tactic(auto, unfolding(crate::specs::Sources::pointer_code))]
pub(crate) fn read_pointer(from: &mut Reader<'_>, alloc: Global) -> Result<Pointer, FieldFault>
    ensures { Reads result from.new ((pointer_code).at from.old) }
{
    let name = Option::read(from, alloc)?;
    let hash = Option::read(from, alloc)?;
    if name.is_none() && hash.is_none() {
        return Err(FieldFault::Range);
    }
    Ok(Pointer { name, hash })
}

#[tactic(auto, unfolding(crate::specs::Sources::pointer_code))]
pub(crate) fn write_pointer(out: &mut Writer, pointer: &Pointer) -> Result<(), NoMemory>
    requires { IsTrue (points pointer.now) }
    ensures spelled { OnOk result (out.new ≡ out.old ++ (pointer_code).spell pointer.now) }
    ensures fits { OnOk result ((pointer_code).Fits pointer.now) }
{
    pointer.name.write(out)?;
    pointer.hash.write(out)?;
    Ok(())
}

fn reference_number(kind: Kind) -> u8
    ensures { result ≡ reference_number kind }
{
    match kind {
        Kind::Branch => 1,
        Kind::Tag => 2,
    }
}

fn reference_of(number: u8) -> Option<Kind>
    ensures { result ≡ reference_of number }
{
    match number {
        1 => Some(Kind::Branch),
        2 => Some(Kind::Tag),
        _ => None,
    }
}

#[tactic(auto, unfolding(crate::specs::Sources::reference_code))]
pub(crate) fn read_reference(from: &mut Reader<'_>) -> Result<Kind, FieldFault>
    ensures { Reads result from.new ((reference_code).at from.old) }
{
    let number = from.u8()?;
    match reference_of(number) {
        None => Err(FieldFault::Range),
        Some(kind) => Ok(kind),
    }
}

#[tactic(auto, unfolding(crate::specs::Sources::reference_code))]
pub(crate) fn write_reference(out: &mut Writer, kind: Kind) -> Result<(), NoMemory>
    ensures spelled { OnOk result (out.new ≡ out.old ++ (reference_code).spell kind) }
    ensures fits { OnOk result ((reference_code).Fits kind) }
{
    out.u8(reference_number(kind))
}

/// 0, or 1 and the kind.
pub(crate) fn read_expected_kind(from: &mut Reader<'_>) -> Result<Option<Kind>, FieldFault>
    ensures { Reads result from.new ((option reference_code).at from.old) }
{
    match from.flag()? {
        false => Ok(None),
        true => Ok(Some(read_reference(from)?)),
    }
}

pub(crate) fn write_expected_kind(out: &mut Writer, kind: Option<Kind>) -> Result<(), NoMemory>
    ensures spelled { OnOk result (out.new ≡ out.old ++ (option reference_code).spell kind) }
    ensures fits { OnOk result ((option reference_code).Fits kind) }
{
    match kind {
        None => out.raw(&[0]),
        Some(kind) => {
            out.raw(&[1])?;
            write_reference(out, kind)?;
            Ok(())
        }
    }
}
