//! Certificate files: blocks, their tests, and the records in them.
#![tactic(auto)]

mod counted;
mod layout;
mod reader;
mod tested;

pub use counted::count_records;
pub use layout::word;
pub use reader::{Reader, Record};
pub use tested::{test_blocks, test_length};
