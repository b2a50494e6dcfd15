//! What may be wrong with a line.
ghost use Rattle.std.specs.Prelude.{◌≡◌};
ghost use Rattle.text.specs.declared.problem.Problem.TheVariants.{Memory};

use super::limits::{MOST_BYTES, MOST_NUMBER};
use std::alloc::{AllocError, AllocFailed};
use thiserror::Error;

/// Why a line's words were not read, with the words for an operator.
#[derive(Clone, Copy, PartialEq, Debug, Error)]
pub enum Problem {
    #[error("a word is missing")]
    Missing,
    #[error("a number is wanted here, from 0 to {MOST_NUMBER}")]
    NotANumber,
    #[error("an entry is wanted here, as PLACE:WEIGHT, with a place up to 255 and a weight from -32768 to 32767")]
    NotAnEntry,
    #[error("an even number of hexadecimal digits is wanted here")]
    NotHex,
    #[error("there are too many words")]
    Surplus,
    #[error("no such command; help lists them all")]
    Unknown,
    #[error("the line is longer than {MOST_BYTES} bytes")]
    TooLong,
    #[error("the line is not text")]
    NotText,
    #[error("out of memory")]
    Memory,
}

// Not `#[from]`, which writes no contract: clauses name the problem that `?` makes.
impl From<AllocError> for Problem {
    ghost from_gives = { λ _ r. r ≡ Memory };

    fn from(_e: AllocError) -> Problem {
        Problem::Memory
    }
}

impl<T: Drop> From<AllocFailed<T>> for Problem {
    ghost from_gives = { λ _ r. r ≡ Memory };

    fn from(_e: AllocFailed<T>) -> Problem {
        Problem::Memory
    }
}
