//! What is wrong with the body of a record or of a row.
ghost use Rattle.std.specs.Prelude.{◌≡◌};
ghost use Rattle.rules.specs.Faults.{fault_told, formal as formal_of};

use thiserror::Error;

/// Each case with what the operator is told of it. A later layer adds its cases here, with their words,
/// and their numbers in `tell` and in the specification's `fault_told`. `Other` is for a kind of evidence that
/// this layer does not know.
#[derive(Clone, Copy, PartialEq, Debug, Error)]
pub enum Fault {
    #[error("a body of {length} bytes does not fit here")]
    BodyLength { length: usize },
    #[error("there is no place {place}")]
    MissingPlace { place: usize },
    #[error("there is no line {line}")]
    MissingLine { line: usize },
    #[error("there is no condition {condition}")]
    MissingCondition { condition: usize },
    #[error("entry {entry} does not rise over the last one, or has the number 0")]
    EntryUnfit { entry: usize },
    #[error("cue {cue} lowers the weight")]
    ColumnFalls { cue: usize },
    #[error("cue {cue} takes from the set and gives nothing to it")]
    NoTrap { cue: usize },
    #[error("the set has no token at the start")]
    TrapUnmarked,
    #[error("the evidence is refused by its rule {number} at {detail}")]
    Other { number: u8, detail: usize },
}

impl Fault {
    /// Number and detail.
    // The numbers are those that the certificate format gives to its refusals.
    pub fn tell(&self) -> (u8, usize)
        ensures { result ≡ fault_told self.now }
    {
        match *self {
            Fault::BodyLength { length } => (7, length),
            Fault::MissingPlace { place } => (8, place),
            Fault::MissingLine { line } => (8, line),
            Fault::MissingCondition { condition } => (8, condition),
            Fault::EntryUnfit { entry } => (9, entry),
            Fault::ColumnFalls { cue } => (10, cue),
            Fault::NoTrap { cue } => (11, cue),
            Fault::TrapUnmarked => (12, 0),
            Fault::Other { number, detail } => (number, detail),
        }
    }

    /// Whether the form of the body is at fault: 7, 8 or 9.
    pub fn is_formal(&self) -> bool
        ensures { result ≡ formal_of self.now }
    {
        matches!(self.tell(), (7..=9, _))
    }
}
