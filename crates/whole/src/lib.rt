//! Whole numbers: counting, the limit, division, divisors and rounding.
#![tactic(auto)]

mod counting;
mod division;
mod divisors;
mod limits;
mod rounding;
#[cfg(test)]
mod tests;

pub use counting::lowest;
pub use division::divide;
pub use divisors::{divisor, row_divisor};
pub use limits::{LIMIT, add_multiple, limited};
pub use rounding::{least_congruent, round_up};
