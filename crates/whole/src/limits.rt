//! The limit of a line's numbers.
ghost use Rattle.std.specs.Prelude.{◌≡◌, ◌^◌, pos, ◌+ℤ◌, ◌*ℤ◌, neg_ℤ, ◌≤ℤ◌};
ghost use Rattle.std.specs.Option.{SomeIff};
ghost use Rattle.whole.specs.Limits.{Limited, held};

/// The largest number of a line, and without its sign the smallest.
pub const LIMIT: i64 = 1 << 40;

/// The same number, if it lies within the limit.
pub fn limited(z: i128) -> Option<i64>
    ensures value { result ≡ held z }
    ensures checked { SomeIff result (Limited z) z }
{
    i64::try_from(z)
        .ok()
        .filter(|x| (-LIMIT..=LIMIT).contains(x))
}

/// The sum with a multiple of `x`, if it lies within the limit.
pub fn add_multiple(sum: i64, times: u16, x: i64) -> Option<i64>
    ensures value { result ≡ held (sum +ℤ pos times *ℤ x) }
    ensures checked { SomeIff result (Limited (sum +ℤ pos times *ℤ x)) (sum +ℤ pos times *ℤ x) }
{
    limited(i128::from(sum) + i128::from(times) * i128::from(x))
}
