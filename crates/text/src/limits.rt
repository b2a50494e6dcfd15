//! The limits of a line.

/// Bytes in a line, its end not counted.
pub const MOST_BYTES: usize = 4096;
/// A number in a line.
pub const MOST_NUMBER: u32 = u32::MAX;
