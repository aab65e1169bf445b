//! Why a value of JSON has no reading.

ghost use Rattle.std.specs.Prelude.{◌≡◌};
ghost use Rattle.cat_json.specs.declared.fault.JsonFault.TheVariants.{NoMemory};

use cat_codes::fault;
use std::alloc::{AllocError, AllocFailed};
use thiserror::Error;

/// Why nothing was read.
#[derive(Clone, Copy, Debug, PartialEq, Eq, Error)]
pub enum JsonFault {
    /// The form has no value for the data, or the bytes aren't JSON.
    #[error("the bytes aren't JSON, or not of the form")]
    Bad,
    /// Memory ran out.
    #[error("memory ran out")]
    NoMemory,
}

impl From<AllocError> for JsonFault {
    ghost from_gives = { λ _ e. e ≡ NoMemory };

    fn from(_e: AllocError) -> JsonFault {
        JsonFault::NoMemory
    }
}

impl<T: Drop> From<AllocFailed<T>> for JsonFault {
    ghost from_gives = { λ _ e. e ≡ NoMemory };

    fn from(_e: AllocFailed<T>) -> JsonFault {
        JsonFault::NoMemory
    }
}

impl From<fault::NoMemory> for JsonFault {
    ghost from_gives = { λ _ e. e ≡ NoMemory };

    fn from(_e: fault::NoMemory) -> JsonFault {
        JsonFault::NoMemory
    }
}
