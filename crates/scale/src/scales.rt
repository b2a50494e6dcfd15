//! What a scale is.
ghost use Rattle.std.specs.Prelude.{◌≡◌, ◌+◌, ◌^◌, ◌<◌, Bool, true, Decides};
ghost use Rattle.scale.specs.Scales.{Group, Plain, Tested};
ghost use Rattle.scale.specs.Sums.{times};

/// A plain scale: a zero, a sum that is associative and commutative, and opposites.
pub trait Scale {
    type Weight: Copy;

    ghost group: { Self → Group Self.Weight };

    fn zero(&self) -> Self::Weight
        ensures { result ≡ (group self.now).nil };

    fn is_zero(&self, a: Self::Weight) -> bool
        ensures { Decides result (a ≡ (group self.now).nil) };

    // Which weights are on a scale and how far they reach depends on the scale's value, as on a modulus, so no
    // type of weights can say it.
    fn sum(&self, a: Self::Weight, b: Self::Weight) -> Self::Weight
        requires reach { (group self.now).reach a + (group self.now).reach b < 2 ^ 62 }
        requires on { ((group self.now).on a ≡ true) × ((group self.now).on b ≡ true) }
        ensures { result ≡ (group self.now).plus a b };

    fn opposite(&self, a: Self::Weight) -> Self::Weight
        requires reach { (group self.now).reach a < 2 ^ 62 }
        requires on { (group self.now).on a ≡ true }
        ensures { result ≡ (group self.now).opp a };

    fn multiple(&self, n: u16, a: Self::Weight) -> Self::Weight
        requires reach { (group self.now).reach a < 2 ^ 46 }
        requires on { (group self.now).on a ≡ true }
        ensures { result ≡ times (group self.now) n a };

    ghost plain: { (s : Self) → Plain (group s) };
}

/// An ordered scale: a plain scale with a test "not below zero".
pub trait Ordered: Scale {
    ghost passes: { Self → Self.Weight → Bool };

    fn not_below_zero(&self, a: Self::Weight) -> bool
        ensures { result ≡ passes self.now a };

    ghost tested: { (s : Self) → Tested (Self.Scale.group s) (passes s) };
}
