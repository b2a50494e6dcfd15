//! Evidence on small nets, and bodies at their limits.
use super::tests::arc_net;
use super::weights::full_net;
use arcs::ArcNet;
use evidence::{Kind, Kinds, PlaceEvidence, TrapEvidence, WeightEvidence, base_kinds};
use line::Line;
use rules::{Failure, Fault};
use std::alloc::Global;
use std::array;
use std::process::Abort;
use std::test::Fail;

/// s1 → s3, s2 → s4, s5 → s3, s3 + s4 → s5 + s6, s6 → s4; a token on s1 and s2, and so many on s3.
fn figure(heap: Global, tokens: u32) -> Result<ArcNet, Failure> {
    let arcs = [
        (0, 0, 1, 0),
        (0, 2, 0, 1),
        (1, 1, 1, 0),
        (1, 3, 0, 1),
        (2, 2, 0, 1),
        (2, 4, 1, 0),
        (3, 2, 1, 0),
        (3, 3, 1, 0),
        (3, 4, 0, 1),
        (3, 5, 0, 1),
        (4, 3, 0, 1),
        (4, 5, 1, 0),
    ];
    arc_net(heap, &[1, 1, tokens, 0, 0, 0], &arcs)
}

/// The line has these coefficients, 0 after them, and this bound.
fn check_line(
    rt: &impl Abort,
    answer: Result<Line, Fault>,
    first: &[i64],
    bound: i64,
) -> Result<(), Fail> {
    let Ok(line) = answer else {
        return Err(Fail::new("refused"));
    };
    for (place, coefficient) in line.coefficients.iter().enumerate() {
        assert_eq!(rt; *coefficient, first.get(place).copied().unwrap_or(0));
    }
    assert_eq!(rt; line.bound, bound);
    Ok(())
}

#[test]
fn traps_of_a_figure(rt: HostRuntime) -> Result<(), Fail> {
    let unmarked = figure(rt.alloc(), 0)?;
    let none = Some(Fault::TrapUnmarked);
    assert_eq!(rt; TrapEvidence.ask(&unmarked, &[2, 4]).err(), none);
    assert_eq!(rt; TrapEvidence.ask(&unmarked, &[2, 3, 5]).err(), none);
    let leak = Some(Fault::NoTrap { cue: 0 });
    assert_eq!(rt; TrapEvidence.ask(&unmarked, &[0, 1]).err(), leak);
    let marked = figure(rt.alloc(), 1)?;
    check_line(&rt, TrapEvidence.ask(&marked, &[2, 4]), &[0, 0, 1, 0, 1], 1)?;
    check_line(
        &rt,
        TrapEvidence.ask(&marked, &[2, 3, 5]),
        &[0, 0, 1, 1, 0, 1],
        1,
    )
}

/// The same weight on 96 places.
fn everywhere(low: u8, high: u8) -> [u8; 288] {
    array::from_fn(|i| match i % 3 {
        // a cast that is proved to lose nothing
        0 => (i / 3) as u8,
        1 => low,
        _ => high,
    })
}

#[test]
fn weights_at_the_extremes(rt: HostRuntime) -> Result<(), Fail> {
    let net = full_net(rt.alloc())?;
    assert_eq!(rt;
        WeightEvidence.ask(&net, &everywhere(0, 128)).err(),
        Some(Fault::ColumnFalls { cue: 1 })
    );
    check_line(
        &rt,
        WeightEvidence.ask(&net, &everywhere(255, 127)),
        &[32767; 96],
        206148993120,
    )?;
    check_line(
        &rt,
        WeightEvidence.ask(&net, &[1, 0, 128]),
        &[0, -32768],
        -2147450880,
    )
}

#[test]
fn bodies_of_any_length(rt: HostRuntime) -> Result<(), Fail> {
    let net = figure(rt.alloc(), 0)?;
    let body = [0; 504];
    for length in 0..505 {
        let unfit = Fault::BodyLength { length };
        let weights = if length > 0 && length % 3 == 0 {
            Fault::EntryUnfit { entry: 0 }
        } else {
            unfit
        };
        assert_eq!(rt;
            WeightEvidence.ask(&net, &body[..length]).err(),
            Some(weights)
        );
        let place = if length == 1 { None } else { Some(unfit) };
        assert_eq!(rt; PlaceEvidence.ask(&net, &body[..length]).err(), place);
    }
    Ok(())
}

#[test]
fn kinds_by_their_letters(rt: HostRuntime) -> Result<(), Fail> {
    let net = figure(rt.alloc(), 0)?;
    let kinds = base_kinds();
    assert!(rt; kinds.has(b'W') && kinds.has(b'T') && kinds.has(b'P'));
    assert!(rt; !kinds.has(b'H') && kinds.ask(b'H', &net, &[5]).is_none());
    let Some(answer) = kinds.ask(b'P', &net, &[5]) else {
        return Err(Fail::new("there is a kind P"));
    };
    check_line(&rt, answer, &[0, 0, 0, 0, 0, 1], 0)
}
