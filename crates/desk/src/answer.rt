//! What the desk answers.
ghost use Rattle.std.specs.Prelude.{◌≡◌};
ghost use Rattle.desk.specs.Answers.{ends as ends_of, failed};
ghost use Rattle.desk.specs.declared.answer.Denial.TheVariants.{Refused as Refused', Unread as Unread'};

use net::Marking;
use rules::{Failure, Refusal};
use std::fmt;
use text::Problem;
use thiserror::Error;

/// What a granted command answers.
#[derive(Clone, Copy)]
pub enum Grant {
    Done,
    Sealed { places: usize, cues: usize },
    Number(usize),
    Marked { places: usize, marking: Marking },
    Help,
    Quit,
}

impl Grant {
    /// Whether the operator quits.
    pub fn ends(&self) -> bool
        ensures { result ≡ ends_of self.now }
    {
        matches!(self, Grant::Quit)
    }
}

/// Why a command was not granted: the library refused it, or no call was made.
#[derive(Clone, Copy, Debug, Error)]
pub enum Denial {
    #[error("{}: {}", .0.tell(), .0)]
    Refused(Refusal),
    #[error("error: {0}")]
    Unread(Problem),
    #[error("error: no net is being drafted; net arcs begins one")]
    NoDraft,
    #[error("error: no net is sealed; draft one and seal it")]
    NoNet,
    #[error("error: out of memory")]
    Memory,
}

// Not `#[from]`, which writes no contract: clauses name the denial that `?` makes.
impl From<Refusal> for Denial {
    ghost from_gives = { λ e r. r ≡ Refused' e };

    fn from(refusal: Refusal) -> Denial {
        Denial::Refused(refusal)
    }
}

impl From<Problem> for Denial {
    ghost from_gives = { λ e r. r ≡ Unread' e };

    fn from(problem: Problem) -> Denial {
        Denial::Unread(problem)
    }
}

impl From<Failure> for Denial {
    ghost from_gives = { λ e r. r ≡ failed e };

    fn from(failure: Failure) -> Denial {
        match failure {
            Failure::Refused(refusal) => Denial::Refused(refusal),
            Failure::Memory => Denial::Memory,
        }
    }
}

impl fmt::Display for Grant {
    fn fmt<W: fmt::Write>(&self, f: &mut fmt::Formatter<W>) -> fmt::Result {
        match *self {
            Grant::Done | Grant::Quit => f.write_str("ok"),
            Grant::Sealed { places, cues } => write!(f, "ok places {places} cues {cues}"),
            Grant::Number(number) => write!(f, "ok {number}"),
            Grant::Marked { places, marking } => {
                f.write_str("ok marking")?;
                // a place is a question to the marking, and no index of a list
                for place in 0..places {
                    write!(f, " {}", marking.tokens(place))?;
                }
                Ok(())
            }
            Grant::Help => f.write_str(HELP),
        }
    }
}

/// A line for each command.
const HELP: &str =
    "# net arcs PLACES START ...   begin an arc net, with a start count for each place
# arc CUE PLACE TAKEN GIVEN   add an arc, in rising order of cue, then place
# seal net                    end the draft; the net is then only asked
# ask net places              how many places the sealed net has
# ask net cues                how many cues it has
# ask net taken PLACE CUE     how many tokens a cue takes from a place
# ask net given PLACE CUE     how many tokens a cue gives to a place
# ask net start PLACE         how many tokens a place has at the start
# rehearse CUE ...            fire cues from the start, on a marking of its own
# help                        this list
# quit                        end";
