//! Certificate files gone through record by record, and files at their limits.
#![tactic(auto)]

ghost use Rattle.std.specs.Prelude.{◌≡◌};
ghost use Rattle.file_trials.specs.Following.{last_letter, longest_body};

use blocks::Reader;
use rules::Refusal;

#[cfg(test)]
mod tests;

/// The letter of the last record.
#[tactic(auto, unfolding(crate::specs::Following::follow))]
pub fn last_letter(file: &[u8]) -> Result<Option<u8>, Refusal>
    ensures { result ≡ last_letter file.now }
{
    let mut last = None;
    for record in Reader::open(file)? {
        last = Some(record?.letter);
    }
    Ok(last)
}

/// The length of the longest body. A cut record counts with the used bytes that are left.
#[tactic(auto, unfolding(crate::specs::Following::longest))]
pub fn longest_body(file: &[u8]) -> Result<usize, Refusal>
    ensures { result ≡ longest_body file.now }
{
    let mut longest: usize = 0;
    for record in Reader::open(file)? {
        let length = record.map_or_else(
            |refusal| refusal.tell().detail,
            |record| record.body.len(),
        );
        longest = longest.max(length);
    }
    Ok(longest)
}
