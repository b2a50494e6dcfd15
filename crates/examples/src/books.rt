//! Thread books at their limits, and beside an arc net that means the same.
use super::tests::{arc_net, check_refused};
use arcs::ArcNet;
use net::Net;
use rules::{Failure, Refusal};
use std::alloc::Global;
use std::process::Abort;
use std::test::Fail;
use threads::{ThreadBook, ThreadDraft};

/// A draft of 12 threads of 8 states, each starting in its last.
fn twelve_threads(heap: Global) -> Result<ThreadDraft, Failure> {
    let mut draft = ThreadDraft::begin(heap);
    for _ in 0..12 {
        draft.add_thread(8, 7)?;
    }
    Ok(draft)
}

#[test]
fn threads_up_to_the_limit(rt: HostRuntime) -> Result<(), Fail> {
    let mut draft = twelve_threads(rt.alloc())?;
    check_refused(&rt, draft.add_thread(2, 0), Refusal::ThreadsFull)?;
    check_refused(
        &rt,
        draft.add_thread(1, 0),
        Refusal::StateCount { states: 1 },
    )?;
    check_refused(
        &rt,
        draft.add_thread(9, 0),
        Refusal::StateCount { states: 9 },
    )?;
    check_refused(
        &rt,
        draft.add_thread(2, 2),
        Refusal::StartState {
            start: 2,
            states: 2,
        },
    )?;
    assert_eq!(rt; draft.can_seal(), Err(Refusal::NoMoves));
    draft.add_move(0, 0, 7, 0)?;
    check_refused(&rt, draft.add_thread(2, 0), Refusal::ThreadAfterMove)
}

#[test]
fn a_full_book_takes_no_more(rt: HostRuntime) -> Result<(), Fail> {
    let mut draft = twelve_threads(rt.alloc())?;
    for i in 0..2048 {
        draft.add_move(i / 12, i % 12, 7, 0)?;
    }
    check_refused(&rt, draft.add_move(255, 11, 7, 0), Refusal::MovesFull)?;
    check_refused(&rt, draft.add_move(170, 7, 7, 0), Refusal::MoveOrder)?;
    check_refused(
        &rt,
        draft.add_move(255, 12, 7, 0),
        Refusal::NoSuchThread { thread: 12 },
    )?;
    check_refused(
        &rt,
        draft.add_move(255, 11, 7, 8),
        Refusal::NoSuchState { state: 8 },
    )?;
    draft.can_seal()?;
    let book = draft.seal();
    assert_eq!(rt; book.places(), 96);
    assert_eq!(rt; book.cues(), 171);
    assert_eq!(rt; book.taken(63, 170), 1);
    assert_eq!(rt; book.given(56, 170), 1);
    assert_eq!(rt; book.taken(71, 170), 0);
    assert_eq!(rt; book.taken(95, 169), 1);
    assert_eq!(rt; book.start(95), 1);
    Ok(())
}

/// Threads of 2 and 3 states; cue 0 moves the first on and needs the second where it is, cue 2 moves the second on.
fn two_threads(heap: Global) -> Result<ThreadBook, Failure> {
    let mut draft = ThreadDraft::begin(heap);
    draft.add_thread(2, 0)?;
    draft.add_thread(3, 1)?;
    draft.add_move(0, 0, 0, 1)?;
    draft.add_move(0, 1, 1, 1)?;
    draft.add_move(2, 1, 1, 2)?;
    draft.can_seal()?;
    Ok(draft.seal())
}

/// The same, arc by arc.
fn five_places(heap: Global) -> Result<ArcNet, Failure> {
    let arcs = [
        (0, 0, 1, 0),
        (0, 1, 0, 1),
        (0, 3, 1, 1),
        (2, 3, 1, 0),
        (2, 4, 0, 1),
    ];
    arc_net(heap, &[1, 0, 0, 1, 0], &arcs)
}

fn check_alike<A: Net, B: Net>(rt: &impl Abort, a: &A, b: &B) {
    assert_eq!(rt; a.places(), b.places());
    assert_eq!(rt; a.cues(), b.cues());
    for place in 0..100 {
        assert_eq!(rt; a.start(place), b.start(place));
        for cue in 0..260 {
            assert_eq!(rt; a.taken(place, cue), b.taken(place, cue));
            assert_eq!(rt; a.given(place, cue), b.given(place, cue));
        }
    }
}

#[test]
fn a_book_and_an_arc_net_mean_the_same(rt: HostRuntime) -> Result<(), Fail> {
    let book = two_threads(rt.alloc())?;
    let net = five_places(rt.alloc())?;
    assert_eq!(rt; book.taken(3, 0) + book.given(3, 0), 2);
    check_alike(&rt, &book, &net);
    Ok(())
}
