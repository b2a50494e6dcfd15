//! Bodies of records and rows: a bound, and entries that name places or lines.
#![tactic(auto)]

mod reads;

pub use reads::{read_bounded, read_one};

/// What an entry has beside its name: nothing, a signed weight, or an unsigned multiplier.
// An enum and no closure: the format has these shapes and no others, and a rule names one.
#[derive(Clone, Copy)]
pub enum Shape {
    Names,
    Weights,
    Multipliers,
}

/// What is named.
#[derive(Clone, Copy)]
pub enum Named {
    Place,
    Line,
    Condition,
}

/// A place or a line, and its weight or multiplier.
#[derive(Clone, Copy)]
pub struct Entry {
    pub name: u8,
    pub number: i64,
}

/// The entries of a body, read where they stand. A copy gives them again.
// It has no `impl Model`: it is copied, and a model that is copied has to give its fields back.
#[derive(Clone, Copy)]
pub struct Entries<'a> {
    shape: Shape,
    bytes: &'a [u8],
}
