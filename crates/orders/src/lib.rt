//! The language of the desk: commands, and how a line is read as one.
#![tactic(auto)]

mod command;
mod parts;
mod question;
mod read;
#[cfg(test)]
mod tests;

pub use command::Command;
pub use parts::{is_idle, read_alone, read_arc, read_arcs, read_name};
pub use question::{Question, read_question};
pub use read::{file_named, read_command};
