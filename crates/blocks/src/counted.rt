//! How many records a file has.
ghost use Rattle.std.specs.Prelude.{◌≡◌};
ghost use Rattle.blocks.specs.Counting.{count_records as counted};

use crate::reader::Reader;
use rules::Refusal;

/// The number of records of a file that passes its tests and has no cut record.
#[tactic(auto, unfolding(crate::specs::Counting::count_from))]
pub fn count_records(file: &[u8]) -> Result<usize, Refusal>
    ensures { result ≡ counted file.now }
{
    let mut count = 0;
    // Not `count` or `sum`: of a `Result` they do not say that it ends at the first refusal.
    for record in Reader::open(file)? {
        record?;
        count += 1;
    }
    Ok(count)
}
