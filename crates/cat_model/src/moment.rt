//! Moments.

ghost use Rattle.std.specs.Prelude.{◌≡◌, ◌≤◌};
ghost use Rattle.cat_model.specs.Formats.{moment_code};
ghost use Rattle.cat_model.specs.FormatLaws.{moment_is};

use cat_codes::fault::{FieldFault, NoMemory};
use cat_codes::field::Field;
use cat_codes::reader::Reader;
use cat_codes::writer::Writer;
use std::alloc::Global;
use std::marker::Model;

/// Microseconds since 1970-01-01T00:00:00Z, up to 9999-12-30T22:00:00.999999Z.
#[derive(Clone, Copy, PartialEq, Eq)]
pub struct Moment {
    micros: u64,
}

impl Model for Moment {
    ghost use Rattle.std.specs.Prelude.{ℕ, ◌≤◌};

    ghost Value = { ℕ };

    ghost view = { λ m. m.micros };

    ghost invariant = { λ m. m.micros ≤ 253402207200999999 };

    ghost inverse = { λ n. record { micros = n } };
}

impl Moment {
    /// The microseconds of the last moment.
    pub const LAST: u64 = 253_402_207_200_999_999;

    /// The moment so many microseconds after the first.
    pub fn from_micros(micros: u64) -> Moment
        requires { micros ≤ 253402207200999999 }
        ensures { result ≡ micros }
    {
        Moment { micros }
    }

    /// Its microseconds since the first moment.
    pub fn micros(self) -> u64
        ensures value { result ≡ self }
        ensures known { result ≤ 253402207200999999 }
    {
        self.micros
    }
}

impl Field for Moment {
    ghost code = { moment_code };

    ghost lawful = { moment_is };

    #[tactic(auto, unfolding(crate::specs::Formats::moment_code))]
    fn read(from: &mut Reader<'_>, _alloc: Global) -> Result<Moment, FieldFault> {
        let micros = from.u64()?;
        if micros > Moment::LAST {
            return Err(FieldFault::Range);
        }
        Ok(Moment { micros })
    }

    #[tactic(auto, unfolding(crate::specs::Formats::moment_code))]
    fn write(&self, out: &mut Writer) -> Result<(), NoMemory> {
        out.u64(self.micros)
    }
}
