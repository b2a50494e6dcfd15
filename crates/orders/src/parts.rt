//! Parts that the languages of desks share.
ghost use Rattle.std.specs.Prelude.{◌≡◌, vec_items};
ghost use Rattle.text.specs.Reading.{first_number};
ghost use Rattle.text.specs.Words.{remaining, tail, words as words_of};
ghost use Rattle.orders.specs.Parts.{ReadBy, alone, comment, first_named, idle, read_arcs, read_pair, read_pairs, read_single};

use std::alloc::Global;
use text::{Problem, Words};

fn is_comment(word: &[u8]) -> bool
    ensures { result ≡ comment word.now }
{
    word.first().is_none_or(|byte| *byte == b'#')
}

/// Whether a line orders nothing: it has no words, or the first begins with `#`.
pub fn is_idle(line: &[u8]) -> bool
    ensures { result ≡ idle (words_of line.now) }
{
    Words::new(line).next().is_none_or(is_comment)
}

/// Passes over the next word, which is this name.
#[tactic(auto, unfolding(text::specs::Names::same))]
pub fn read_name(words: &mut Words, name: &[u8]) -> Result<(), Problem>
    ensures value { result ≡ first_named name.now (remaining words.old) }
    ensures after { remaining words.new ≡ tail (remaining words.old) }
{
    if words.next().ok_or(Problem::Missing)? == name {
        Ok(())
    } else {
        Err(Problem::Unknown)
    }
}

/// The next word's number, as a count or an index of the library.
pub fn read_usize(words: &mut Words) -> Result<usize, Problem>
    ensures value { result ≡ first_number (remaining words.old) }
    ensures after { remaining words.new ≡ tail (remaining words.old) }
{
    // Not `try_from`: the cast is proved to lose nothing, and there is no error to tell.
    Ok(words.number()? as usize)
}

/// A value that takes no further words.
pub fn read_alone<T: Drop>(words: &mut Words, value: T) -> Result<T, Problem>
    ensures { result ≡ alone value (remaining words.old) }
{
    words.end()?;
    Ok(value)
}

/// One number and no more.
pub fn read_single(words: &mut Words) -> Result<usize, Problem>
    ensures { result ≡ read_single (remaining words.old) }
{
    let number = read_usize(words)?;
    read_alone(words, number)
}

/// Two numbers and no more.
pub fn read_pair(words: &mut Words) -> Result<(usize, usize), Problem>
    ensures { result ≡ read_pair (remaining words.old) }
{
    let pair = (read_usize(words)?, read_usize(words)?);
    read_alone(words, pair)
}

// The allocator is handed to what allocates, and does not travel in `Words`.
/// A number of places, and start counts.
pub fn read_arcs(heap: Global, words: &mut Words) -> Result<(usize, Vec<u32>), Problem>
    ensures { ReadBy (λ k. (k.0, vec_items k.1)) (read_arcs (remaining words.old)) result }
{
    Ok((read_usize(words)?, words.numbers(heap)?))
}

/// A cue and a place, and the tokens taken and given.
pub fn read_arc(words: &mut Words) -> Result<((usize, usize), (u32, u32)), Problem>
    ensures { result ≡ read_pairs (remaining words.old) }
{
    let at = (read_usize(words)?, read_usize(words)?);
    let tokens = (words.number()?, words.number()?);
    read_alone(words, (at, tokens))
}
