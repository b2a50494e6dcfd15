//! Whole numbers, pairs of them, and residues.
ghost use Rattle.std.specs.Prelude.{◌≡◌, ◌%◌, ◌<◌, ◌≤◌, MatchOption};
ghost use Rattle.scale.specs.Makes.{WeighsRemainders, pair_passes, pairs, reduced, residues, whole, whole_passes};
ghost use Rattle.scale.specs.Plains.{whole_plain, whole_tested, residues_plain, pairs_plain, pairs_tested};

use super::scales::{Ordered, Scale};

/// Whole numbers.
#[derive(Clone, Copy)]
pub struct Whole;

impl Scale for Whole {
    type Weight = i64;

    ghost group = { λ _. whole };

    ghost plain = { λ s. whole_plain };

    fn zero(&self) -> i64 {
        0
    }

    fn is_zero(&self, a: i64) -> bool {
        a == 0
    }

    fn sum(&self, a: i64, b: i64) -> i64 {
        a + b
    }

    fn opposite(&self, a: i64) -> i64 {
        -a
    }

    fn multiple(&self, n: u16, a: i64) -> i64 {
        i64::from(n) * a
    }
}

impl Ordered for Whole {
    ghost passes = { λ _. whole_passes };

    ghost tested = { λ s. whole_tested };

    fn not_below_zero(&self, a: i64) -> bool {
        a >= 0
    }
}

/// Residues modulo a number from 2 to 65,535.
#[derive(Clone, Copy)]
pub struct Residues {
    modulus: u16,
    ghost fit: { (2 ≤ modulus) × (modulus < 65536) },
}

impl Residues {
    /// The residues of a modulus from 2 on. They weigh what the whole numbers' weight leaves.
    #[tactic(auto, using(crate::proofs::Remainders::weighs_remainders))]
    pub fn new(modulus: u16) -> Option<Residues>
        ensures { MatchOption result (modulus < 2) (λ s. (s.modulus ≡ modulus) × WeighsRemainders modulus) }
    {
        if modulus < 2 {
            return None;
        }
        Some(Residues { modulus })
    }

    /// The remainder of a number.
    pub fn reduce(&self, number: i64) -> u16
        ensures value { result ≡ reduced self.now.modulus number }
        ensures below { result < self.now.modulus }
    {
        // Not `try_from`, here and below: the cast is proved to lose nothing, and there is no error to tell.
        number.rem_euclid(i64::from(self.modulus)) as u16
    }

    /// The remainder of a number that is not below zero.
    fn remainder(&self, number: u32) -> u16
        ensures { result ≡ number % self.now.modulus }
    {
        (number % u32::from(self.modulus)) as u16
    }
}

impl Scale for Residues {
    type Weight = u16;

    ghost group = { λ s. residues s.modulus };

    ghost plain = { λ s. residues_plain s.modulus s.fit.0 };

    fn zero(&self) -> u16 {
        0
    }

    fn is_zero(&self, a: u16) -> bool {
        a == 0
    }

    fn sum(&self, a: u16, b: u16) -> u16 {
        self.remainder(u32::from(a) + u32::from(b))
    }

    fn opposite(&self, a: u16) -> u16 {
        self.remainder(u32::from(self.modulus - a))
    }

    #[tactic(auto, using(crate::proofs::Multiples::residue_times))]
    fn multiple(&self, n: u16, a: u16) -> u16 {
        self.remainder(u32::from(n) * u32::from(a))
    }
}

/// Two whole numbers.
#[derive(Clone, Copy, PartialEq, Debug, Default)]
pub struct Pair {
    pub left: i64,
    pub right: i64,
}

impl Pair {
    /// Each part changed.
    fn map<F: Fn(i64) -> i64>(self, change: F) -> Pair
        requires left { F.pre change self.left }
        requires right { F.pre change self.right }
        ensures left { F.post change self.left result.left }
        ensures right { F.post change self.right result.right }
    {
        Pair {
            left: change(self.left),
            right: change(self.right),
        }
    }
}

/// Pairs of whole numbers, added part by part.
#[derive(Clone, Copy)]
pub struct Pairs;

impl Scale for Pairs {
    type Weight = Pair;

    ghost group = { λ _. pairs };

    ghost plain = { λ s. pairs_plain };

    fn zero(&self) -> Pair {
        Pair::default()
    }

    fn is_zero(&self, a: Pair) -> bool {
        a == Pair::default()
    }

    fn sum(&self, a: Pair, b: Pair) -> Pair {
        Pair {
            left: Whole.sum(a.left, b.left),
            right: Whole.sum(a.right, b.right),
        }
    }

    fn opposite(&self, a: Pair) -> Pair {
        a.map(|part| Whole.opposite(part))
    }

    fn multiple(&self, n: u16, a: Pair) -> Pair {
        a.map(|part| Whole.multiple(n, part))
    }
}

impl Ordered for Pairs {
    ghost passes = { λ _. pair_passes };

    ghost tested = { λ s. pairs_tested };

    fn not_below_zero(&self, a: Pair) -> bool {
        Whole.not_below_zero(a.left) && Whole.not_below_zero(a.right)
    }
}
