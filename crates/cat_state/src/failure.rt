//! Why a call has no answer.

use cat_codes::fault::NoMemory;
use cat_model::refusal::Refusal;
use std::alloc::AllocError;
use thiserror::Error;

/// A refusal by the rules, or want of memory.
#[derive(Debug, Drop, Error)]
pub enum Failure {
    #[error(transparent)]
    Refused(Refusal),
    #[error("memory ran out")]
    NoMemory,
}

impl From<Refusal> for Failure {
    ghost use Rattle.std.specs.Prelude.{◌≡◌};
    ghost use Rattle.cat_state.specs.declared.failure.Failure.TheVariants.{Refused};

    ghost from_gives = { λ why failure. failure ≡ Refused why };

    fn from(why: Refusal) -> Failure {
        Failure::Refused(why)
    }
}

impl From<NoMemory> for Failure {
    ghost use Rattle.std.specs.Prelude.{◌≡◌};
    ghost use Rattle.cat_state.specs.declared.failure.Failure.TheVariants as failures;

    ghost from_gives = { λ _ failure. failure ≡ failures.NoMemory };

    fn from(_: NoMemory) -> Failure {
        Failure::NoMemory
    }
}

impl From<AllocError> for Failure {
    ghost use Rattle.std.specs.Prelude.{◌≡◌};
    ghost use Rattle.cat_state.specs.declared.failure.Failure.TheVariants as failures;

    ghost from_gives = { λ _ failure. failure ≡ failures.NoMemory };

    fn from(_: AllocError) -> Failure {
        Failure::NoMemory
    }
}
