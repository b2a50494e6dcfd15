//! Words, numbers and names read from a line of bytes.
#![tactic(auto)]

mod limits;
mod line;
mod names;
mod numbers;
mod problem;
#[cfg(test)]
mod tests;
mod words;

pub use line::Line;
pub use names::same;
pub use numbers::{number, signed};
pub use problem::Problem;
pub use words::Words;
