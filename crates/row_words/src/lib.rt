//! A row's body from the words that an operator writes.
#![tactic(auto)]

mod reads;

pub use reads::read_row_body;
