//! Division with both of its answers.
ghost use Rattle.std.specs.Prelude.{◌≡◌, ◌/◌, ◌%◌};
ghost use Rattle.std.specs.Int.NonZero.{non_zero_u64_get};

use std::num::NonZeroU64;

/// The quotient and the remainder.
pub fn divide(a: u64, by: NonZeroU64) -> (u64, u64)
    ensures quotient { result.0 ≡ a / non_zero_u64_get by }
    ensures remainder { result.1 ≡ a % non_zero_u64_get by }
{
    (a / by, a % by)
}
