//! Entries, bounds and hexadecimal digits.
ghost use Rattle.std.specs.Prelude.{◌≡◌, ◌==◌, [], position, vec_items};
ghost use Rattle.std.specs.Option.{ok_or};
ghost use Rattle.row_words.specs.RowWords.{Grown, ReadBody, as_bound, as_entry, entries_onto, hex_body, hex_onto, row_body, spelt_body};
ghost use Rattle.text.specs.declared.problem.Problem.TheVariants.{NotAnEntry};
ghost use Rattle.text.specs.Words.{remaining};

use hex::FromHexError;
use std::alloc::Global;
use text::{Problem, Words, number, same, signed};

/// Where the first colon stands.
fn find_colon(word: &[u8]) -> Option<usize>
    ensures { result ≡ position (λ byte. byte == 58) word.now }
{
    word.iter().position(|byte| *byte == b':')
}

/// The three bytes of `PLACE:WEIGHT`.
#[tactic(auto, using(crate::proofs::Colons::colon_found, std::proofs::lemmas::List::take_rest))]
fn read_entry(word: &[u8]) -> Option<[u8; 3]>
    ensures { ok_or result NotAnEntry ≡ as_entry word.now }
{
    let colon = find_colon(word)?;
    let place = u8::try_from(number(&word[..colon])?).ok()?;
    let weight = i16::try_from(signed(&word[colon + 1..])?).ok()?;
    let [low, high] = weight.to_le_bytes();
    Some([place, low, high])
}

/// The four bytes of a bound.
fn read_bound(word: &[u8]) -> Result<[u8; 4], Problem>
    ensures { result ≡ as_bound word.now }
{
    let bound = signed(word).ok_or(Problem::NotANumber)?;
    Ok(bound.to_le_bytes())
}

/// Adds the entries of all further words to a body.
#[tactic(auto, using(crate::proofs::Gathering::entries_first, crate::proofs::Gathering::entries_end))]
fn read_entries(words: &mut Words, body: &mut Vec<u8>) -> Result<(), Problem>
    ensures { Grown (entries_onto body.old.items (remaining words.old)) result body.new.items }
{
    for word in words {
        let entry = read_entry(word).ok_or(Problem::NotAnEntry)?;
        body.extend_from_slice(&entry)?;
    }
    Ok(())
}

/// The bytes of hexadecimal digits.
#[tactic(auto, using(crate::proofs::Digits::hex_read))]
fn read_hex(heap: Global, word: &[u8]) -> Result<Vec<u8>, Problem>
    ensures { ReadBody vec_items (hex_onto [] word.now) result }
{
    hex::decode(heap, word).map_err(|error| match error {
        FromHexError::OutOfMemory => Problem::Memory,
        _ => Problem::NotHex,
    })
}

/// The bytes that further words write out: one word of digits, or none.
fn read_written(heap: Global, words: &mut Words) -> Result<Vec<u8>, Problem>
    ensures { ReadBody vec_items (hex_body (remaining words.old)) result }
{
    let Some(word) = words.next() else {
        return Ok(Vec::new(heap));
    };
    words.end()?;
    read_hex(heap, word)
}

/// A bound and the entries of all further words.
fn read_spelt(heap: Global, bound: &[u8], words: &mut Words) -> Result<Vec<u8>, Problem>
    ensures { ReadBody vec_items (spelt_body bound.now (remaining words.old)) result }
{
    let mut body = read_bound(bound)?.to_vec(heap)?;
    read_entries(words, &mut body)?;
    Ok(body)
}

/// The body of a row: a bound and entries, or bytes written out after `hex`.
pub fn read_row_body(heap: Global, words: &mut Words) -> Result<Vec<u8>, Problem>
    ensures { ReadBody vec_items (row_body (remaining words.old)) result }
{
    let word = words.next().ok_or(Problem::Missing)?;
    if same(word, b"hex") {
        read_written(heap, words)
    } else {
        read_spelt(heap, word, words)
    }
}
