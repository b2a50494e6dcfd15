//! A reader that hands out one record after another.
ghost use Rattle.std.specs.Prelude.{◌≡◌, ◌<◌, ◌≤◌, [], MatchOption, IfOk, OnOk, length, drop};
ghost use Rattle.std.specs.Option.{option_map};
ghost use Rattle.rules.specs.Outcome.{answered};
ghost use Rattle.blocks.specs.Covering.{Covered};
ghost use Rattle.blocks.specs.Layout.{used_bytes};
ghost use Rattle.blocks.specs.Records.{front as front_of, records};
ghost use Rattle.blocks.specs.Tests.{checked};
ghost use Rattle.blocks.specs.Views.{bytes_left, to_come, Stands};

use crate::layout::{Block, HEAD_SIZE, PAYLOAD_AT, blocks_of, word};
use crate::tested::test_blocks;
use rules::Refusal;
use rules::limits::BLOCK_SIZE;

/// A record of a file. Its body is a part of the file itself.
#[derive(Drop)]
pub struct Record<'a> {
    pub letter: u8,
    pub offset: usize,
    pub body: &'a [u8],
}

// No `impl Model`: one function alone promises of what is to come, beside the iterator's own clause.
/// Stands over the blocks of a file: before byte `at` of those that block `number` uses.
#[derive(Drop)]
pub struct Reader<'a> {
    blocks: &'a [[u8; BLOCK_SIZE]],
    number: usize,
    at: usize,
}

/// The letter and the body at the front, if they are there whole.
fn front(bytes: &[u8]) -> Option<(u8, &[u8])>
    ensures { option_map (λ x. (x.0, x.1.now)) result ≡ front_of bytes.now }
{
    let ([letter, low, high], rest) = bytes.split_first_chunk::<HEAD_SIZE>()?;
    let size = word(*low, *high);
    Some((*letter, rest.get(..size)?))
}

impl<'a> Reader<'a> {
    /// Stands before the first record of a file whose blocks all pass their tests.
    pub fn open(file: &'a [u8]) -> Result<Reader<'a>, Refusal>
        ensures answer { answered result ≡ checked file.now }
        ensures stands { IfOk result (λ x. to_come x ≡ records file.now) }
        ensures covered { OnOk result (Covered file.now (records file.now)) }
    {
        test_blocks(file)?;
        Ok(Reader {
            blocks: blocks_of(file),
            number: 0,
            at: 0,
        })
    }

    /// Goes on to the first block with used bytes still to be read, and gives them; none at the end.
    #[tactic(auto, using(crate::proofs::Handing::goes_on))]
    fn settle(&mut self) -> Option<&'a [u8]>
        ensures same { to_come self.new ≡ to_come self.old }
        ensures fewer { bytes_left self.new ≤ bytes_left self.old }
        ensures value { MatchOption result (to_come self.new ≡ []) (λ x. Stands self.new x.now) }
    {
        // The place lasts from call to call, so no `for` holds it.
        while let Some(bytes) = self.blocks.get(self.number) {
            let used = Block { bytes }.used_bytes();
            if self.at < used.len() {
                return Some(&used[self.at..]);
            }
            self.number += 1;
            self.at = 0;
        }
        None
    }
}

/// Gives the records past empty blocks. After one that is cut none comes.
impl<'a> Iterator for Reader<'a> {
    ghost use Rattle.std.specs.Iterator.{at_most};
    ghost use Rattle.blocks.specs.Views.{Hands, bytes_left};

    type Item = Result<Record<'a>, Refusal>;

    ghost next_gives = { Hands };

    ghost remaining = { λ r. at_most (bytes_left r) };

    #[tactic(auto, using(crate::proofs::Handing::calls))]
    fn next(&mut self) -> Option<Result<Record<'a>, Refusal>> {
        let used = self.settle()?;
        let offset = BLOCK_SIZE * self.number + PAYLOAD_AT + self.at;
        let Some((letter, body)) = front(used) else {
            self.blocks = &[];
            return Some(Err(Refusal::RecordCut {
                offset,
                left: used.len(),
            }));
        };
        self.at += HEAD_SIZE + body.len();
        Some(Ok(Record {
            letter,
            offset,
            body,
        }))
    }
}
