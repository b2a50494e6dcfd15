//! A line as it comes in, byte by byte.
ghost use Rattle.std.specs.Prelude.{◌≡◌, ◌+◌, ◌<◌, ◌≤◌, length, vec_len, vec_capacity, IfOk};
ghost use Rattle.text.specs.Limits.{most_bytes};

use super::limits::MOST_BYTES;
use super::problem::Problem;
use std::alloc::{AllocError, Global};

/// The bytes of a line so far, up to one more than the limit, which shows that the line is too long. Its memory is had
/// when it is made.
// Ghost fields, and no `impl Model`: who holds a line is to know how few its bytes are.
#[derive(Drop)]
pub struct Line {
    bytes: Vec<u8>,
    ghost few: { vec_len bytes ≤ most_bytes + 1 },
    ghost room: { most_bytes < vec_capacity bytes },
}

impl Line {
    ghost use Rattle.text.specs.Lines.{empty_line, grown, handed, received, viewed};

    /// A line with no bytes.
    pub fn new(heap: Global) -> Result<Line, AllocError>
        ensures { IfOk result (λ l. received l ≡ empty_line) }
    {
        Ok(Line {
            bytes: Vec::with_capacity(heap, MOST_BYTES + 1)?,
        })
    }

    /// One byte more.
    #[tactic(auto, using(crate::proofs::Receiving::one_more))]
    pub fn push(&mut self, byte: u8)
        ensures { received self.new ≡ grown byte (received self.old) }
    {
        if self.bytes.len() <= MOST_BYTES {
            self.bytes.push_reserved(byte);
        }
    }

    /// Begins a new line.
    pub fn clear(&mut self)
        ensures { received self.new ≡ empty_line }
    {
        self.bytes.clear();
    }

    /// The line, if it is not too long and is text.
    #[tactic(auto, using(crate::proofs::Receiving::whole))]
    pub fn text(&self) -> Result<&[u8], Problem>
        ensures value { handed (received self.now) (viewed result) }
        ensures few { IfOk result (λ bytes. length bytes.now ≤ most_bytes) }
    {
        if self.bytes.len() > MOST_BYTES {
            return Err(Problem::TooLong);
        }
        let text = str::from_utf8(&self.bytes).map_err(|_| Problem::NotText)?;
        Ok(text.as_bytes())
    }
}
