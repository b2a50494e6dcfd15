//! The words of a line, one after another.
ghost use Rattle.std.specs.Prelude.{◌≡◌, not, position};
ghost use Rattle.std.specs.Iterator.{YieldsFirstRef, item_count};
ghost use Rattle.text.specs.Words.{blank as blank_of, words, remaining as unread};

mod reads;

/// Reads a line word by word. Words stand between spaces and tabs.
// No `impl Model`: who holds one is to know that what comes are words of a line.
#[derive(Drop)]
pub struct Words<'a> {
    rest: &'a [u8],
}

fn is_blank(byte: u8) -> bool
    ensures { result ≡ blank_of byte }
{
    byte == b' ' || byte == b'\t'
}

/// Where the first byte of a word stands.
fn word_start(line: &[u8]) -> Option<usize>
    ensures { result ≡ position (λ byte. not (blank_of byte)) line.now }
{
    line.iter().position(|byte| !is_blank(*byte))
}

/// Where the first blank stands.
fn word_end(line: &[u8]) -> Option<usize>
    ensures { result ≡ position blank_of line.now }
{
    line.iter().position(|byte| is_blank(*byte))
}

impl<'a> Words<'a> {
    /// Stands before the first word of a line.
    pub fn new(line: &'a [u8]) -> Words<'a>
        ensures { unread result ≡ words line.now }
    {
        Words { rest: line }
    }
}

/// Each word is a part of the line.
impl<'a> Iterator for Words<'a> {
    type Item = &'a [u8];

    ghost next_gives = { YieldsFirstRef unread };

    ghost remaining = { item_count unread };

    #[tactic(auto, using(crate::proofs::Splitting::word_within, crate::proofs::Splitting::no_word))]
    fn next(&mut self) -> Option<&'a [u8]> {
        let Some(start) = word_start(self.rest) else {
            // A later call is spared these blanks.
            self.rest = &[];
            return None;
        };
        let line = &self.rest[start..];
        let end = word_end(line).unwrap_or(line.len());
        let (word, rest) = line.split_at(end);
        self.rest = rest;
        Some(word)
    }
}
