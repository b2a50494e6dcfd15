//! The tests of a whole file, before any record is read.
ghost use Rattle.std.specs.Prelude.{◌≡◌, ◌<◌, ◌≤◌, length};
ghost use Rattle.rules.specs.Limits.{most_blocks};
ghost use Rattle.blocks.specs.Layout.{sum_at, summed};
ghost use Rattle.blocks.specs.Tests.{checked, filled, measured, sound, weighted, zeros};

use crate::layout::{Block, PAYLOAD_AT, SUM_AT, blocks_of};
use rules::limits::{BLOCK_SIZE, MOST_BLOCKS, MOST_USED};
use rules::{Refusal, need};

/// Whether a file may be this long.
pub fn test_length(length: usize) -> Result<(), Refusal>
    ensures { result ≡ measured length }
{
    need(
        length != 0 && length <= MOST_BLOCKS * BLOCK_SIZE && length % BLOCK_SIZE == 0,
        Refusal::FileLength { length },
    )
}

#[tactic(auto, unfolding(crate::specs::Tests::zeros))]
fn all_zero(bytes: &[u8]) -> bool
    ensures { result ≡ zeros bytes.now }
{
    bytes.iter().all(|byte| *byte == 0)
}

/// The sum of each byte times its place, counted from 1.
fn weigh(bytes: &[u8]) -> usize
    requires { length bytes.now ≤ sum_at }
    ensures { result ≡ weighted 0 bytes.now }
{
    bytes
        .iter()
        .enumerate()
        .map(|(i, byte)| (i + 1) * usize::from(*byte))
        .sum()
}

impl Block<'_> {
    /// The weight of the bytes before the sum.
    fn weight(&self) -> usize
        ensures { result ≡ weighted 0 (summed self.now.bytes.now) }
    {
        let bytes = self.bytes;
        weigh(&bytes[..SUM_AT])
    }

    /// Whether the used count stays within the payload, and what is not used is zero.
    fn is_filled(&self) -> bool
        ensures { result ≡ filled self.now.bytes.now }
    {
        let bytes = self.bytes;
        let used = self.used();
        used <= MOST_USED && all_zero(&bytes[PAYLOAD_AT + used..SUM_AT])
    }

    fn test(&self, number: usize) -> Result<(), Refusal>
        requires { number < most_blocks }
        ensures { result ≡ sound number self.now.bytes.now }
    {
        let offset = BLOCK_SIZE * number;
        let carried = self.number();
        need(
            carried == number,
            Refusal::BlockNumber {
                offset,
                number: carried,
            },
        )?;
        let used = self.used();
        need(self.is_filled(), Refusal::BlockUsed { offset, used })?;
        let sum = self.sum();
        need(sum == self.weight(), Refusal::BlockSum { offset, sum })
    }
}

/// Whether a file's length and all its blocks pass their tests, each block in turn.
#[tactic(auto, using(crate::proofs::Passing::one_passes, crate::proofs::Passing::none_left))]
pub fn test_blocks(file: &[u8]) -> Result<(), Refusal>
    ensures { result ≡ checked file.now }
{
    test_length(file.len())?;
    for (number, bytes) in blocks_of(file).iter().enumerate() {
        Block { bytes }.test(number)?;
    }
    Ok(())
}
