//! The operator's desk: commands read from lines, and their answers.
#![tactic(auto)]

mod answer;
mod command;
mod desk;
mod read;

pub use answer::{Denial, Grant};
pub use command::Command;
pub use desk::Desk;
pub use orders::{Question, is_idle};
pub use read::read_command;
