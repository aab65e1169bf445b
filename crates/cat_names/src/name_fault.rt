//! Why a text is no name of a reference.

use std::alloc::AllocError;
use thiserror::Error;

/// What is wrong with the name of a reference.
#[derive(Clone, Copy, Debug, PartialEq, Eq, Error)]
pub enum NameFault {
    /// The text isn't spelled as a name.
    #[error("the text isn't spelled as a reference's name")]
    Bad,
    /// Memory ran out.
    #[error("memory ran out")]
    NoMemory,
}

impl From<AllocError> for NameFault {
    ghost use Rattle.std.specs.Prelude.{◌≡◌};
    ghost use Rattle.cat_names.specs.declared.name_fault.NameFault.TheVariants.{NoMemory};

    ghost from_gives = { λ _ e. e ≡ NoMemory };

    fn from(_e: AllocError) -> NameFault {
        NameFault::NoMemory
    }
}
