//! Small nets: what the rules make of them, and what the code does at the limits.
#![tactic(auto)]

ghost use Rattle.examples.specs.Evidence.{EvidenceTable};
ghost use Rattle.examples.specs.Files.{Files};
ghost use Rattle.examples.specs.Table.{Table};

/// The certificate files come out as they should.
#[tactic(auto, unfolding(blocks::specs::Tests::all_sound, blocks::specs::Tests::weighted, blocks::specs::Tests::zeros, blocks::specs::Records::records_from, blocks::specs::Records::records_in))]
fn files_hold()
    ensures { Files }
{}

/// Bodies and evidence come out as they should.
#[tactic(auto, unfolding(scale::specs::Sums::times, scale::specs::Sums::weighed))]
fn evidence_holds()
    ensures { EvidenceTable }
{}

/// The small nets and files come out as they should.
pub fn table_holds()
    ensures { Table }
{
    files_hold();
    evidence_holds();
}

#[cfg(test)]
mod books;
#[cfg(test)]
mod kinds;
#[cfg(test)]
mod tests;
#[cfg(test)]
mod weights;
