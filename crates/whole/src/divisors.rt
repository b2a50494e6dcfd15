//! The greatest common divisor.
ghost use Rattle.std.specs.Prelude.{◌≡◌};
ghost use Rattle.whole.specs.Divisors.{divisor as divisor_of, row_divisor as row_divisor_of, Greatest, GreatestOfRow};

/// The divisor of two numbers, by Euclid's rule.
pub fn divisor(a: u64, b: u64) -> u64
    ensures value { result ≡ divisor_of a b }
    ensures greatest { Greatest a b result }
{
    if b == 0 { a } else { divisor(b, a % b) }
}

/// The divisor of all the numbers of a row, their signs left out.
pub fn row_divisor(row: &[i64]) -> u64
    ensures value { result ≡ row_divisor_of row.now }
    ensures greatest { GreatestOfRow row.now result }
{
    row.iter().fold(0, |all, x| divisor(all, x.unsigned_abs()))
}
