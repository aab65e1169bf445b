//! Why a keeper didn't do a call.

use cat_codes::fault::NoMemory;
use std::alloc::{AllocError, AllocFailed};
use thiserror::Error;

/// Why a keeper didn't do a call.
#[derive(Clone, Copy, Debug, PartialEq, Eq, Error)]
pub enum KeepFault {
    /// A fault, which was counted.
    #[error("the keeper failed")]
    Fault,
    /// An append or a rebase failed before, at this count of faults.
    #[error("an append failed before, at {0} faults")]
    Down(u64),
    /// Memory ran out.
    #[error("memory ran out")]
    NoMemory,
}

impl From<AllocError> for KeepFault {
    ghost use Rattle.std.specs.Prelude.{◌≡◌};
    ghost use Rattle.cat_keeper.specs.declared.fault.KeepFault.TheVariants as faults;

    ghost from_gives = { λ _ e. e ≡ faults.NoMemory };

    fn from(_e: AllocError) -> KeepFault {
        KeepFault::NoMemory
    }
}

impl<T: Drop> From<AllocFailed<T>> for KeepFault {
    ghost use Rattle.std.specs.Prelude.{◌≡◌};
    ghost use Rattle.cat_keeper.specs.declared.fault.KeepFault.TheVariants as faults;

    ghost from_gives = { λ _ e. e ≡ faults.NoMemory };

    fn from(_e: AllocFailed<T>) -> KeepFault {
        KeepFault::NoMemory
    }
}

impl From<NoMemory> for KeepFault {
    ghost use Rattle.std.specs.Prelude.{◌≡◌};
    ghost use Rattle.cat_keeper.specs.declared.fault.KeepFault.TheVariants as faults;

    ghost from_gives = { λ _ e. e ≡ faults.NoMemory };

    fn from(_e: NoMemory) -> KeepFault {
        KeepFault::NoMemory
    }
}
