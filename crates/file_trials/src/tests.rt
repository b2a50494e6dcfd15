//! Files at their limits.
ghost use Rattle.std.specs.Prelude.{◌+◌, ◌*◌, ◌≤◌, length};

use super::{last_letter, longest_body};
use blocks::{Reader, test_blocks, test_length};
use rules::Refusal;
use std::test::Fail;

/// Five records: H, W, T, C, X.
const RECORDS: [u8; 37] = [
    72, 1, 0, 0, 87, 9, 0, 0, 255, 255, 1, 255, 255, 2, 255, 255, 84, 2, 0, 0, 2, 67, 9, 0, 0, 1,
    0, 1, 1, 0, 2, 1, 0, 88, 1, 0, 3,
];

/// Writes the sum of a block's bytes.
fn mend(block: &mut [u8; 512]) {
    let sum = block[..508]
        .iter()
        .zip(1..=508)
        .fold(0, |sum: u32, (byte, place)| {
            sum.wrapping_add(u32::from(*byte).wrapping_mul(place))
        });
    block[508..].copy_from_slice(&sum.to_le_bytes());
}

// What three helpers ask of the records is the test's own room, and no type is made for it.
/// Writes a block with these records.
fn fill(block: &mut [u8; 512], number: u8, records: &[u8])
    requires { length records.now ≤ 504 }
{
    block[0] = number;
    // The cast is proved to lose nothing.
    block[2..4].copy_from_slice(&(records.len() as u16).to_le_bytes());
    block[4..4 + records.len()].copy_from_slice(records);
    mend(block);
}

/// Writes block `number` of a file with these records.
fn fill_at(file: &mut [u8], number: u8, records: &[u8])
    requires within { 512 * (number + 1) ≤ length file.old }
    requires room { length records.now ≤ 504 }
{
    let (blocks, _) = file.as_chunks_mut();
    fill(&mut blocks[usize::from(number)], number, records);
}

/// Writes the same records into each block.
fn fill_each(file: &mut [u8], records: &[u8])
    requires { length records.now ≤ 504 }
{
    let (blocks, _) = file.as_chunks_mut();
    for (block, number) in blocks.iter_mut().zip(0..128) {
        fill(block, number, records);
    }
}

/// The number of the refusal, if there is one.
fn number_of(answer: Result<(), Refusal>) -> Option<u8> {
    answer.err().map(|refusal| refusal.tell().number)
}

#[test]
fn every_changed_byte_is_refused(rt: HostRuntime) {
    let mut good = [0; 512];
    fill(&mut good, 0, &RECORDS);
    assert_eq!(rt; test_blocks(&good), Ok(()));
    for i in 0..512 {
        for by in 1..=255 {
            let mut block = good;
            block[i] ^= by;
            let number = number_of(test_blocks(&block));
            let due = match i {
                0..2 => number == Some(2),
                2..4 => number == Some(3) || number == Some(4),
                4..41 => number == Some(4),
                41..508 => number == Some(3),
                _ => number == Some(4),
            };
            assert!(rt; due);
        }
    }
}

#[test]
fn a_mended_byte_is_read_as_changed(rt: HostRuntime) -> Result<(), Fail> {
    for by in 0..=255 {
        let mut block = [0; 512];
        fill(&mut block, 0, &RECORDS);
        block[37] = by;
        block[40] = by;
        mend(&mut block);
        let mut reader = Reader::open(&block)?;
        let Some(record) = reader.nth(4).transpose()? else {
            return Err(Fail::new("five records"));
        };
        assert_eq!(rt; record.letter, by);
        assert_eq!(rt; record.offset, 37);
        assert!(rt; record.body == [by].as_slice());
        assert!(rt; reader.next().is_none());
    }
    Ok(())
}

#[test]
fn empty_blocks_are_passed_over(rt: HostRuntime) -> Result<(), Fail> {
    let mut file = [0; 2560];
    fill_each(&mut file, &[]);
    assert_eq!(rt; last_letter(&file), Ok(None));
    fill_at(&mut file, 1, &[72, 1, 0, 7, 72, 0, 0]);
    fill_at(&mut file, 3, &[88, 1, 0, 3]);
    let mut reader = Reader::open(&file)?;
    for offset in [516, 520, 1540] {
        let Some(record) = reader.next().transpose()? else {
            return Err(Fail::new("three records"));
        };
        assert_eq!(rt; record.offset, offset);
    }
    assert!(rt; reader.next().is_none());
    assert!(rt; reader.next().is_none());
    assert_eq!(rt; last_letter(&file), Ok(Some(88)));
    Ok(())
}

#[test]
fn a_block_may_be_used_up_to_its_sum(rt: HostRuntime) {
    let mut record = [9; 504];
    record[0] = 88;
    record[1] = 245;
    record[2] = 1;
    let mut block = [0; 512];
    fill(&mut block, 0, &record);
    assert_eq!(rt; longest_body(&block), Ok(501));
    block[5] = 246;
    mend(&mut block);
    assert_eq!(rt; longest_body(&block), Ok(504));
    block[2] = 249;
    mend(&mut block);
    assert_eq!(rt;
        longest_body(&block),
        Err(Refusal::BlockUsed {
            offset: 0,
            used: 505,
        })
    );
}

#[test]
fn nothing_comes_after_a_cut_record(rt: HostRuntime) -> Result<(), Fail> {
    let record = [88, 1, 0, 9];
    for left in 1..4 {
        let mut file = [0; 1024];
        fill_at(&mut file, 0, &record[..left]);
        fill_at(&mut file, 1, &record);
        let mut reader = Reader::open(&file)?;
        assert_eq!(rt;
            reader.next().and_then(|record| record.err()),
            Some(Refusal::RecordCut { offset: 4, left })
        );
        assert!(rt; reader.next().is_none());
    }
    let mut block = [0; 512];
    fill(&mut block, 0, &record);
    assert_eq!(rt; last_letter(&block), Ok(Some(88)));
    Ok(())
}

#[test]
fn as_many_as_128_blocks(rt: HostRuntime) -> Result<(), Fail> {
    let mut file = [0; 65536];
    fill_each(&mut file, &[87, 1, 0, 9]);
    let mut reader = Reader::open(&file)?;
    for k in 0..128 {
        let Some(record) = reader.next().transpose()? else {
            return Err(Fail::new("128 records"));
        };
        assert_eq!(rt; record.offset, 512 * k + 4);
        assert!(rt; record.body == [9].as_slice());
    }
    assert!(rt; reader.next().is_none());
    file[65024] = 126;
    assert_eq!(rt;
        test_blocks(&file),
        Err(Refusal::BlockNumber {
            offset: 65024,
            number: 126,
        })
    );
    Ok(())
}

#[test]
fn lengths(rt: HostRuntime) {
    for length in [0, 1, 511, 513, 65537, 66048] {
        assert_eq!(rt; test_length(length), Err(Refusal::FileLength { length }));
    }
    assert_eq!(rt; test_length(512), Ok(()));
    assert_eq!(rt; test_length(65536), Ok(()));
}
