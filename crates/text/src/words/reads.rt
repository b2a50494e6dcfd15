//! The next words, read as numbers.
ghost use Rattle.std.specs.Prelude.{◌≡◌, [], Ok, Err, OnOk, ◌≢◌, MatchResult};
ghost use Rattle.text.specs.Reading.{as_number, first_number, ended, all_numbers};
ghost use Rattle.text.specs.Words.{remaining, tail};
ghost use Rattle.text.specs.declared.problem.Problem.TheVariants.{Memory};

use super::super::numbers::number;
use super::super::problem::Problem;
use super::Words;
use std::alloc::Global;

fn as_number(word: &[u8]) -> Result<u32, Problem>
    ensures { result ≡ as_number word.now }
{
    number(word).ok_or(Problem::NotANumber)
}

impl<'a> Words<'a> {
    /// The next word's number.
    pub fn number(&mut self) -> Result<u32, Problem>
        ensures value { result ≡ first_number (remaining self.old) }
        ensures after { remaining self.new ≡ tail (remaining self.old) }
    {
        as_number(self.next().ok_or(Problem::Missing)?)
    }

    /// Refuses a further word.
    pub fn end(&mut self) -> Result<(), Problem>
        ensures value { result ≡ ended (remaining self.old) }
        ensures after { remaining self.new ≡ tail (remaining self.old) }
    {
        match self.next() {
            None => Ok(()),
            Some(_) => Err(Problem::Surplus),
        }
    }

    /// The numbers of all further words.
    #[tactic(auto, using(crate::proofs::Gathering::gather_more, crate::proofs::Gathering::gather_end))]
    pub fn numbers(&mut self, heap: Global) -> Result<Vec<u32>, Problem>
        ensures value { MatchResult result (λ v. all_numbers (remaining self.old) ≡ Ok v.items) (λ e. (e ≢ Memory) → all_numbers (remaining self.old) ≡ Err e) }
        ensures after { OnOk result (remaining self.new ≡ []) }
    {
        let mut numbers = Vec::new(heap);
        // A `for` over `self` proves nothing of the words left after it.
        while let Some(word) = self.next() {
            let number = as_number(word)?;
            numbers.push(number)?;
        }
        Ok(numbers)
    }
}
