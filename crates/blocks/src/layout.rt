//! What a block carries. Numbers are little-endian.
ghost use Rattle.std.specs.Prelude.{◌≡◌, ◌<◌, length};
ghost use Rattle.blocks.specs.Layout.{blocks, blocks_of as blocks_of_file, number_in, sum_in, used_bytes, used_in, word as word_of};

use rules::limits::{BLOCK_SIZE, MOST_USED};

/// Where the payload begins in a block.
pub const PAYLOAD_AT: usize = 4;
/// Where the sum stands, behind the payload.
pub const SUM_AT: usize = PAYLOAD_AT + MOST_USED;

/// Of a record: its letter, and the length of its body.
pub const HEAD_SIZE: usize = 3;

/// A block of a file.
#[derive(Clone, Copy)]
pub struct Block<'a> {
    pub bytes: &'a [u8; BLOCK_SIZE],
}

/// The two bytes' number.
pub fn word(low: u8, high: u8) -> usize
    ensures value { result ≡ word_of low high }
    ensures small { result < 65536 }
{
    usize::from(u16::from_le_bytes([low, high]))
}

/// The blocks of a file.
pub fn blocks_of(file: &[u8]) -> &[[u8; BLOCK_SIZE]]
    ensures value { result.now ≡ blocks_of_file file.now }
    ensures count { length result.now ≡ blocks file.now }
{
    let (blocks, _) = file.as_chunks();
    blocks
}

impl<'a> Block<'a> {
    /// The number that the block carries.
    pub fn number(&self) -> usize
        ensures { result ≡ number_in self.now.bytes.now }
    {
        let [low, high, ..] = *self.bytes;
        word(low, high)
    }

    /// How many bytes its records take.
    pub fn used(&self) -> usize
        ensures { result ≡ used_in self.now.bytes.now }
    {
        let [_, _, low, high, ..] = *self.bytes;
        word(low, high)
    }

    /// The sum that the block carries.
    pub fn sum(&self) -> usize
        ensures { result ≡ sum_in self.now.bytes.now }
    {
        let [.., a, b, c, d] = *self.bytes;
        // `usize` has no `From` of a `u32`; the cast is proved to lose nothing.
        u32::from_le_bytes([a, b, c, d]) as usize
    }

    /// The bytes that its records take, as far as the payload goes.
    pub fn used_bytes(&self) -> &'a [u8]
        ensures { result.now ≡ used_bytes self.now.bytes.now }
    {
        let bytes = self.bytes;
        let used = self.used().min(MOST_USED);
        &bytes[PAYLOAD_AT..PAYLOAD_AT + used]
    }
}
