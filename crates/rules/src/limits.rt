//! The greatest and smallest numbers that the rules allow.

pub const MOST_PLACES: usize = 96;

pub const MOST_CUES: usize = 256;

pub const MOST_ARCS: usize = 2048;

pub const MOST_MOVES: usize = MOST_ARCS;

pub const MOST_THREADS: usize = 12;
/// Of a thread.
pub const FEWEST_STATES: usize = 2;

pub const MOST_STATES: usize = 8;

pub const MOST_CONDITIONS: usize = 16;
/// Of a condition.
pub const MOST_ROWS: usize = 4;
/// Of an arc, taken or given.
pub const MOST_WEIGHT: u32 = 255;
/// On a place, in a start or a running show.
pub const MOST_TOKENS: u32 = 65535;
/// Bytes of a block of a certificate file.
pub const BLOCK_SIZE: usize = 512;
/// Of a certificate file.
pub const MOST_BLOCKS: usize = 128;
/// Bytes of a block that records may take.
pub const MOST_USED: usize = 504;
