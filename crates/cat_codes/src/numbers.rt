//! Numbers, flags and arrays of bytes as fields.

ghost use Rattle.cat_codes.specs.Code.{exactly, flag_code, i32_code, i64_code, u16_code, u32_code, u64_code, u8_code};
ghost use Rattle.cat_codes.specs.FieldLaws.{exactly_is, flag_is};
ghost use Rattle.cat_codes.specs.NumberLaws.{i32_is, i64_is, u16_is, u32_is, u64_is, u8_is};

use crate::fault::{FieldFault, NoMemory};
use crate::field::Field;
use crate::reader::Reader;
use crate::writer::Writer;
use std::alloc::Global;

impl Field for u8 {
    ghost code = { u8_code };

    ghost lawful = { u8_is };

    fn read(from: &mut Reader<'_>, _alloc: Global) -> Result<u8, FieldFault> {
        from.u8()
    }

    fn write(&self, out: &mut Writer) -> Result<(), NoMemory> {
        out.u8(*self)
    }
}

impl Field for u16 {
    ghost code = { u16_code };

    ghost lawful = { u16_is };

    fn read(from: &mut Reader<'_>, _alloc: Global) -> Result<u16, FieldFault> {
        from.u16()
    }

    fn write(&self, out: &mut Writer) -> Result<(), NoMemory> {
        out.u16(*self)
    }
}

impl Field for u32 {
    ghost code = { u32_code };

    ghost lawful = { u32_is };

    fn read(from: &mut Reader<'_>, _alloc: Global) -> Result<u32, FieldFault> {
        from.u32()
    }

    fn write(&self, out: &mut Writer) -> Result<(), NoMemory> {
        out.u32(*self)
    }
}

impl Field for u64 {
    ghost code = { u64_code };

    ghost lawful = { u64_is };

    fn read(from: &mut Reader<'_>, _alloc: Global) -> Result<u64, FieldFault> {
        from.u64()
    }

    fn write(&self, out: &mut Writer) -> Result<(), NoMemory> {
        out.u64(*self)
    }
}

impl Field for i32 {
    ghost code = { i32_code };

    ghost lawful = { i32_is };

    fn read(from: &mut Reader<'_>, _alloc: Global) -> Result<i32, FieldFault> {
        from.i32()
    }

    fn write(&self, out: &mut Writer) -> Result<(), NoMemory> {
        out.i32(*self)
    }
}

impl Field for i64 {
    ghost code = { i64_code };

    ghost lawful = { i64_is };

    fn read(from: &mut Reader<'_>, _alloc: Global) -> Result<i64, FieldFault> {
        from.i64()
    }

    fn write(&self, out: &mut Writer) -> Result<(), NoMemory> {
        out.i64(*self)
    }
}

impl Field for bool {
    ghost code = { flag_code };

    ghost lawful = { flag_is };

    #[tactic(auto, unfolding(crate::specs::Code::flag_code))]
    fn read(from: &mut Reader<'_>, _alloc: Global) -> Result<bool, FieldFault> {
        from.flag()
    }

    #[tactic(auto, unfolding(crate::specs::Code::flag_code))]
    fn write(&self, out: &mut Writer) -> Result<(), NoMemory> {
        out.flag(*self)
    }
}

impl<const N: usize> Field for [u8; N] {
    ghost code = { exactly N };

    ghost lawful = { exactly_is N };

    fn read(from: &mut Reader<'_>, _alloc: Global) -> Result<[u8; N], FieldFault> {
        from.array()
    }

    fn write(&self, out: &mut Writer) -> Result<(), NoMemory> {
        out.raw(self)
    }
}
