//! The limits, and the refusals with their numbers and words.
#![tactic(auto)]

ghost use Rattle.std.specs.Prelude.{◌≡◌};
ghost use Rattle.rules.specs.Outcome.{need as needed};

mod failure;
mod fault;
pub mod limits;
mod refusal;

pub use failure::Failure;
pub use fault::Fault;
pub use refusal::{Refusal, Told};

/// Goes on where the test passes, else refuses.
pub fn need<E: Drop>(test: bool, error: E) -> Result<(), E>
    ensures { result ≡ needed test error }
{
    if test { Ok(()) } else { Err(error) }
}
