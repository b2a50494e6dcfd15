//! Examples at the limits.
use super::*;
use std::num::{NonZeroU16, NonZeroU64};

#[test]
fn sums_within_the_limit(rt: HostRuntime) {
    assert_eq!(rt; add_multiple(LIMIT - 6, 2, 3), Some(LIMIT));
    assert_eq!(rt; add_multiple(LIMIT - 5, 2, 3), None);
    assert_eq!(rt; add_multiple(6 - LIMIT, 2, -3), Some(-LIMIT));
    assert_eq!(rt; add_multiple(5 - LIMIT, 2, -3), None);
    assert_eq!(rt; add_multiple(i64::MIN, 65535, i64::MIN), None);
    assert_eq!(rt; add_multiple(i64::MIN, 2, 1 << 62), Some(0));
}

#[test]
fn divisors(rt: HostRuntime) {
    assert_eq!(rt; divisor(6, 4), 2);
    assert_eq!(rt; divisor(4, 6), 2);
    assert_eq!(rt; divisor(0, 0), 0);
    assert_eq!(rt; divisor(0, 7), 7);
    assert_eq!(rt; row_divisor(&[6, -4, 0]), 2);
    assert_eq!(rt; row_divisor(&[0, 0]), 0);
}

#[test]
fn rounding(rt: HostRuntime) {
    assert_eq!(rt; round_up(3, NonZeroU64::new(2).unwrap()), 2);
    assert_eq!(rt; round_up(4, NonZeroU64::new(2).unwrap()), 2);
    assert_eq!(rt; round_up(1, NonZeroU64::new(3).unwrap()), 1);
    assert_eq!(rt; round_up(-1, NonZeroU64::new(3).unwrap()), 0);
    assert_eq!(rt; round_up(-3, NonZeroU64::new(2).unwrap()), -1);
    assert_eq!(rt; round_up(-4, NonZeroU64::new(2).unwrap()), -2);
    assert_eq!(rt; round_up(i64::MIN, NonZeroU64::new(1).unwrap()), i64::MIN);
}

#[test]
fn congruent_numbers(rt: HostRuntime) {
    assert_eq!(rt; least_congruent(2, 1, NonZeroU16::new(2).unwrap()), 3);
    assert_eq!(rt; least_congruent(-4, -1, NonZeroU16::new(2).unwrap()), -3);
    assert_eq!(rt; least_congruent(-4, 1, NonZeroU16::new(2).unwrap()), -3);
    assert_eq!(rt; least_congruent(0, 0, NonZeroU16::new(5).unwrap()), 0);
    assert_eq!(rt;
        least_congruent(i64::MIN, i64::MAX, NonZeroU16::new(3).unwrap()),
        i64::MIN
    );
}
