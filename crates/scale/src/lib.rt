//! Scales, and weighted sums written once for every scale.
#![tactic(auto)]

mod makes;
mod scales;
mod sums;

pub use makes::{Pair, Pairs, Residues, Whole};
pub use scales::{Ordered, Scale};
pub use sums::Weights;
