//! Why a commit was not added.

use cat_codes::fault::NoMemory;
use std::alloc::AllocError;
use thiserror::Error;

/// Why a commit was not added.
#[derive(Clone, Copy, Debug, PartialEq, Eq, Error)]
pub enum AddFault {
    /// Another commit has the hash.
    #[error("another commit has the hash")]
    Collision,
    /// Memory ran out.
    #[error("memory ran out")]
    NoMemory,
}

impl From<NoMemory> for AddFault {
    ghost use Rattle.std.specs.Prelude.{◌≡◌};
    ghost use Rattle.cat_graph.specs.declared.add_fault.AddFault.TheVariants as faults;

    ghost from_gives = { λ _ fault. fault ≡ faults.NoMemory };

    fn from(_: NoMemory) -> AddFault {
        AddFault::NoMemory
    }
}

impl From<AllocError> for AddFault {
    ghost use Rattle.std.specs.Prelude.{◌≡◌};
    ghost use Rattle.cat_graph.specs.declared.add_fault.AddFault.TheVariants as faults;

    ghost from_gives = { λ _ fault. fault ≡ faults.NoMemory };

    fn from(_: AllocError) -> AddFault {
        AddFault::NoMemory
    }
}
