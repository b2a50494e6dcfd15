//! Bounds moved up to a whole number.
ghost use Rattle.std.specs.Prelude.{◌≡◌, ◌^◌, pos, ◌≤ℤ◌};
ghost use Rattle.std.specs.Int.NonZero.{non_zero_u16_get, non_zero_u64_get};
ghost use Rattle.whole.specs.Rounding.{rounded_up, RoundsUp, risen, Rises};

use std::num::{NonZeroU16, NonZeroU64};

/// The bound divided, and rounded up.
pub fn round_up(bound: i64, by: NonZeroU64) -> i64
    ensures value { result ≡ rounded_up bound (non_zero_u64_get by) }
    ensures up { RoundsUp bound (non_zero_u64_get by) result }
{
    let opposite = -i128::from(bound);
    // Not `try_from`, here and below: the cast is proved to lose nothing, and there is no error to tell.
    -opposite.div_euclid(i128::from(by.get())) as i64
}

/// The least number not below `bound` that equals `to` modulo `modulus`.
pub fn least_congruent(bound: i64, to: i64, modulus: NonZeroU16) -> i64
    requires { bound ≤ℤ pos (2 ^ 62) }
    ensures value { result ≡ risen bound to (non_zero_u16_get modulus) }
    ensures rises { Rises bound to (non_zero_u16_get modulus) result }
{
    let gap = i128::from(to) - i128::from(bound);
    bound + gap.rem_euclid(i128::from(modulus.get())) as i64
}
