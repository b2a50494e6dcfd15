//! The code at its limits.
use arcs::{ArcDraft, ArcNet};
use net::{Marking, Net, rehearse};
use rules::{Failure, Refusal};
use std::alloc::Global;
use std::process::Abort;
use std::test::Fail;

/// The sealed net of these starts and arcs: cue, place, taken, given.
pub fn arc_net(
    heap: Global,
    starts: &[u32],
    arcs: &[(usize, usize, u32, u32)],
) -> Result<ArcNet, Failure> {
    ArcDraft::can_begin(starts.len(), starts)?;
    let mut draft = ArcDraft::begin(heap, starts.len(), starts);
    for (cue, place, taken, given) in arcs {
        draft.add(*cue, *place, *taken, *given)?;
    }
    draft.can_seal()?;
    Ok(draft.seal())
}

pub fn check_refused(
    rt: &impl Abort,
    answer: Result<(), Failure>,
    refusal: Refusal,
) -> Result<(), Fail> {
    match answer {
        Err(Failure::Refused(told)) => {
            assert_eq!(rt; told, refusal);
            Ok(())
        },
        _ => Err(Fail::new("granted, or out of memory")),
    }
}

#[test]
fn a_full_draft_takes_no_more(rt: HostRuntime) -> Result<(), Fail> {
    let starts = [65535; 96];
    ArcDraft::can_begin(96, &starts)?;
    let mut draft = ArcDraft::begin(rt.alloc(), 96, &starts);
    for i in 0..2048 {
        draft.add(i / 96, i % 96, 1, 0)?;
    }
    check_refused(&rt, draft.add(255, 95, 1, 0), Refusal::ArcsFull)?;
    check_refused(&rt, draft.add(21, 31, 1, 0), Refusal::ArcOrder)?;
    check_refused(&rt, draft.add(256, 0, 1, 0), Refusal::CueRange { cue: 256 })?;
    draft.can_seal()?;
    let net = draft.seal();
    assert_eq!(rt; net.cues(), 22);
    assert_eq!(rt; net.taken(31, 21), 1);
    assert_eq!(rt; net.taken(32, 21), 0);
    assert_eq!(rt; net.start(95), 65535);
    assert_eq!(rt; net.start(96), 0);
    Ok(())
}

#[test]
fn the_last_cue_and_place(rt: HostRuntime) -> Result<(), Fail> {
    let starts = [255; 96];
    ArcDraft::can_begin(96, &starts)?;
    let mut draft = ArcDraft::begin(rt.alloc(), 96, &starts);
    draft.add(255, 95, 255, 255)?;
    check_refused(
        &rt,
        draft.add(255, 96, 1, 0),
        Refusal::PlaceRange { place: 96 },
    )?;
    draft.can_seal()?;
    let net = draft.seal();
    assert_eq!(rt; net.cues(), 256);
    let marking = rehearse(&net, &[255, 0, 254])?;
    assert_eq!(rt; marking.tokens(95), 255);
    assert_eq!(rt;
        rehearse(&net, &[256]).err(),
        Some(Refusal::NoSuchCue { cue: 256 })
    );
    Ok(())
}

#[test]
fn tokens_up_to_the_limit(rt: HostRuntime) -> Result<(), Fail> {
    ArcDraft::can_begin(1, &[65534])?;
    let mut draft = ArcDraft::begin(rt.alloc(), 1, &[65534]);
    draft.add(0, 0, 0, 1)?;
    draft.add(1, 0, 1, 1)?;
    draft.can_seal()?;
    let net = draft.seal();
    let mut marking = Marking::start(&net);
    marking.fire(&net, 0)?;
    assert_eq!(rt; marking.fire(&net, 0), Err(Refusal::PlaceFull { place: 0 }));
    assert_eq!(rt; marking.tokens(0), 65535);
    marking.fire(&net, 1)?;
    assert_eq!(rt; marking.tokens(0), 65535);
    Ok(())
}

#[test]
fn an_unfit_draft_does_not_begin(rt: HostRuntime) {
    assert_eq!(rt;
        ArcDraft::can_begin(0, &[]),
        Err(Refusal::PlaceCount { places: 0 })
    );
    assert_eq!(rt;
        ArcDraft::can_begin(97, &[0; 97]),
        Err(Refusal::PlaceCount { places: 97 })
    );
    assert_eq!(rt; ArcDraft::can_begin(1, &[65535]), Ok(()));
    assert_eq!(rt;
        ArcDraft::can_begin(1, &[65536]),
        Err(Refusal::StartTokens {
            place: 0,
            tokens: 65536,
        })
    );
}
