//! Kinds of evidence behind one interface with a law, and sets of kinds.
#![tactic(auto)]

mod base;
mod kinds;
mod sets;
mod single;
mod traps;
mod weights;

pub use base::{BaseKinds, base_kinds};
pub use kinds::{Kind, Kinds};
pub use sets::{Both, Only, common_letter, join};
pub use single::PlaceEvidence;
pub use traps::{TrapEvidence, lowest_leaking};
pub use weights::WeightEvidence;
