//! Examples at the limits.
ghost use Rattle.std.specs.Prelude.{◌≡◌, codes, Decides};

use super::*;
use std::test::Fail;

/// How a word is compared with a name.
fn is_quit(word: &[u8]) -> bool
    ensures { Decides result (word.now ≡ codes "quit") }
{
    same(word, b"quit")
}

#[test]
fn names(rt: HostRuntime) {
    assert!(rt; is_quit(b"quit"));
    assert!(rt; !is_quit(b"quits"));
    assert!(rt; !is_quit(b""));
}

#[test]
fn words_between_blanks(rt: HostRuntime) -> Result<(), Fail> {
    let mut words = Words::new(b"\t one \t\ttwo\xff ");
    assert!(rt; same(words.next().ok_or("no word")?, b"one"));
    assert!(rt; same(words.next().ok_or("no word")?, b"two\xff"));
    assert!(rt; words.next().is_none());
    assert!(rt; Words::new(b" \t").next().is_none());
    assert!(rt; Words::new(b"").next().is_none());
    Ok(())
}

#[test]
fn words_in_a_chain(rt: HostRuntime) {
    let longest = Words::new(b"\t one \t\tthree ")
        .map(|word| word.len())
        .max();
    assert_eq!(rt; longest, Some(5));
}

#[test]
fn numbers_at_the_limits(rt: HostRuntime) {
    let cases: [(&[u8], Option<u32>); 6] = [
        (b"4294967295", Some(4294967295)),
        (b"4294967296", None),
        (b"0000000000000000000000007", Some(7)),
        (&[b'9'; 4096], None),
        (b"1a", None),
        (b"", None),
    ];
    for (word, value) in cases {
        assert_eq!(rt; number(word), value);
    }
}

#[test]
fn signed_at_the_limits(rt: HostRuntime) {
    let cases: [(&[u8], Option<i32>); 7] = [
        (b"-2147483648", Some(-2147483648)),
        (b"-2147483649", None),
        (b"2147483647", Some(2147483647)),
        (b"2147483648", None),
        (b"-0", Some(0)),
        (b"-", None),
        (b"--1", None),
    ];
    for (word, value) in cases {
        assert_eq!(rt; signed(word), value);
    }
}

#[test]
fn numbers_from_a_line(rt: HostRuntime) -> Result<(), Fail> {
    let mut words = Words::new(b"1 x 2 3");
    assert_eq!(rt; words.number(), Ok(1));
    assert_eq!(rt; words.number(), Err(Problem::NotANumber));
    let rest = words.numbers(rt.alloc())?;
    assert_eq!(rt; rest.as_slice(), [2, 3].as_slice());
    assert_eq!(rt; words.number(), Err(Problem::Missing));
    assert_eq!(rt; words.end(), Ok(()));
    assert_eq!(rt; Words::new(b"1").end(), Err(Problem::Surplus));
    Ok(())
}
