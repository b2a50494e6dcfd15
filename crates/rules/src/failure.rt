//! What can come of a call that may want memory.
ghost use Rattle.std.specs.Prelude.{◌≡◌};
ghost use Rattle.rules.specs.declared.failure.Failure.TheVariants.{Refused as Refused', Memory};

use super::refusal::Refusal;
use std::alloc::{AllocError, AllocFailed};
use thiserror::Error;

/// Why a call that allocates was not granted.
#[derive(Clone, Copy, Debug, Error)]
pub enum Failure {
    #[error(transparent)]
    Refused(Refusal),
    #[error("out of memory")]
    Memory,
}

// Not `#[from]`, which writes no contract: clauses name the failure that `?` makes.
impl From<Refusal> for Failure {
    ghost from_gives = { λ e r. r ≡ Refused' e };

    fn from(e: Refusal) -> Failure {
        Failure::Refused(e)
    }
}

impl From<AllocError> for Failure {
    ghost from_gives = { λ _ r. r ≡ Memory };

    fn from(_e: AllocError) -> Failure {
        Failure::Memory
    }
}

impl<T: Drop> From<AllocFailed<T>> for Failure {
    ghost from_gives = { λ _ r. r ≡ Memory };

    fn from(_e: AllocFailed<T>) -> Failure {
        Failure::Memory
    }
}
