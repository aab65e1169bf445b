//! Why a call made no entry.

use crate::failure::Failure;
use cat_codes::fault::NoMemory;
use cat_model::refusal::Refusal;
use std::alloc::AllocError;
use thiserror::Error;

/// A refusal by the rules or want of memory, or a fault of what keeps the log.
#[derive(Debug, Drop, Error)]
pub enum Unmade {
    #[error(transparent)]
    Failed(Failure),
    /// The call was accepted, and its entry wasn't kept.
    #[error("the call's entry wasn't kept")]
    NotKept,
}

impl From<Failure> for Unmade {
    ghost use Rattle.std.specs.Prelude.{◌≡◌};
    ghost use Rattle.cat_state.specs.declared.unmade.Unmade.TheVariants.{Failed};

    ghost from_gives = { λ failure unmade. unmade ≡ Failed failure };

    fn from(failure: Failure) -> Unmade {
        Unmade::Failed(failure)
    }
}

impl From<Refusal> for Unmade {
    ghost use Rattle.std.specs.Prelude.{◌≡◌};
    ghost use Rattle.cat_state.specs.declared.failure.Failure.TheVariants.{Refused};
    ghost use Rattle.cat_state.specs.declared.unmade.Unmade.TheVariants.{Failed};

    ghost from_gives = { λ why unmade. unmade ≡ Failed (Refused why) };

    fn from(why: Refusal) -> Unmade {
        Unmade::Failed(Failure::Refused(why))
    }
}

impl From<NoMemory> for Unmade {
    ghost use Rattle.std.specs.Prelude.{◌≡◌};
    ghost use Rattle.cat_state.specs.declared.failure.Failure.TheVariants as failures;
    ghost use Rattle.cat_state.specs.declared.unmade.Unmade.TheVariants.{Failed};

    ghost from_gives = { λ _ unmade. unmade ≡ Failed failures.NoMemory };

    fn from(_: NoMemory) -> Unmade {
        Unmade::Failed(Failure::NoMemory)
    }
}

impl From<AllocError> for Unmade {
    ghost use Rattle.std.specs.Prelude.{◌≡◌};
    ghost use Rattle.cat_state.specs.declared.failure.Failure.TheVariants as failures;
    ghost use Rattle.cat_state.specs.declared.unmade.Unmade.TheVariants.{Failed};

    ghost from_gives = { λ _ unmade. unmade ≡ Failed failures.NoMemory };

    fn from(_: AllocError) -> Unmade {
        Unmade::Failed(Failure::NoMemory)
    }
}
