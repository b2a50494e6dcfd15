//! Why a call is refused.
ghost use Rattle.std.specs.Prelude.{◌≡◌, Some};
ghost use Rattle.rules.specs.Refusals.{told, tells, line};

use super::fault::Fault;
use super::limits::{
    BLOCK_SIZE, FEWEST_STATES, MOST_ARCS, MOST_BLOCKS, MOST_CONDITIONS, MOST_CUES, MOST_MOVES,
    MOST_PLACES, MOST_ROWS, MOST_STATES, MOST_THREADS, MOST_TOKENS, MOST_USED, MOST_WEIGHT,
};
use std::fmt;
use thiserror::Error;

/// Each case with what the operator is told of it. A later layer adds its cases here, with their words,
/// and their numbers in `tell` and in the specification's `told`.
#[derive(Clone, Copy, PartialEq, Debug, Error)]
pub enum Refusal {
    #[error("a net has 1 to {most} places, not {places}", most = MOST_PLACES)]
    PlaceCount { places: usize },
    #[error("{starts} start counts for {places} places; give one for each place")]
    StartLength { starts: usize, places: usize },
    #[error("place {place} starts with {tokens} tokens; the most is {most}", most = MOST_TOKENS)]
    StartTokens { place: usize, tokens: u32 },
    #[error("cue {cue} is too high; cues are numbered below {end}", end = MOST_CUES)]
    CueRange { cue: usize },
    #[error("the net has no place {place}")]
    PlaceRange { place: usize },
    #[error("{taken} tokens taken; the most is {most}", most = MOST_WEIGHT)]
    TakenRange { taken: u32 },
    #[error("{given} tokens given; the most is {most}", most = MOST_WEIGHT)]
    GivenRange { given: u32 },
    #[error("an arc takes or gives at least one token")]
    EmptyArc,
    #[error("the net has no cue {cue}")]
    NoSuchCue { cue: usize },
    #[error("the net has {most} arcs, and takes no more", most = MOST_ARCS)]
    ArcsFull,
    #[error("this arc is not after the last; arcs come in rising order of cue, then place")]
    ArcOrder,
    #[error("place {place} has fewer tokens than the cue takes")]
    CueShort { place: usize },
    #[error("place {place} would have more than {most} tokens", most = MOST_TOKENS)]
    PlaceFull { place: usize },
    #[error("the net has no arc yet; add one before sealing")]
    NoArcs,
    #[error("a thread has {fewest} to {most} states, not {states}", fewest = FEWEST_STATES, most = MOST_STATES)]
    StateCount { states: usize },
    #[error("a thread of {states} states can't start in state {start}")]
    StartState { start: usize, states: usize },
    #[error("the book has no thread {thread}")]
    NoSuchThread { thread: usize },
    #[error("the thread has no state {state}")]
    NoSuchState { state: usize },
    #[error("the book has {most} threads, and takes no more", most = MOST_THREADS)]
    ThreadsFull,
    #[error("the book has {most} moves, and takes no more", most = MOST_MOVES)]
    MovesFull,
    #[error("threads come before the first move")]
    ThreadAfterMove,
    #[error("this move is not after the last; moves come in rising order of cue, then thread")]
    MoveOrder,
    #[error("the book has no move yet; add one before sealing")]
    NoMoves,
    #[error("condition {condition} is neither the last nor the next, or one of more than {most}", most = MOST_CONDITIONS)]
    ConditionRange { condition: usize },
    #[error("the condition has {most} rows, and takes no more", most = MOST_ROWS)]
    RowsFull,
    #[error("there is no row yet; add one before sealing")]
    NoRows,
    #[error("{fault}")]
    Step { offset: usize, fault: Fault },
    #[error("the file has {length} bytes, not 1 to {most} blocks of {size} bytes", most = MOST_BLOCKS, size = BLOCK_SIZE)]
    FileLength { length: usize },
    #[error("the block at byte {offset} carries the number {number}, which is not its own")]
    BlockNumber { offset: usize, number: usize },
    #[error("the block at byte {offset} uses {used} bytes; the most is {most}, and those not used are zero", most = MOST_USED)]
    BlockUsed { offset: usize, used: usize },
    #[error("the block at byte {offset} carries the sum {sum}, which is not its bytes'")]
    BlockSum { offset: usize, sum: usize },
    #[error("the record at byte {offset} is cut; only {left} used bytes are left")]
    RecordCut { offset: usize, left: usize },
}

/// A refusal in numbers.
#[derive(Clone, Copy, PartialEq, Debug)]
pub struct Told {
    pub number: u8,
    pub layer: u8,
    pub offset: usize,
    pub detail: usize,
}

impl Refusal {
    /// Number, layer, offset and detail.
    pub fn tell(&self) -> Told
        ensures { result ≡ told self.now }
    {
        let (number, layer, offset, detail) = self.numbers();
        Told {
            number,
            layer,
            offset,
            detail,
        }
    }

    // The numbers are those that operators and workshops know the refusals by.
    fn numbers(&self) -> (u8, u8, usize, usize)
        ensures { tells result.0 result.1 result.2 result.3 ≡ told self.now }
    {
        match *self {
            Refusal::PlaceCount { .. }
            | Refusal::StartLength { .. }
            | Refusal::StartTokens { .. }
            | Refusal::CueRange { .. }
            | Refusal::PlaceRange { .. }
            | Refusal::TakenRange { .. }
            | Refusal::GivenRange { .. }
            | Refusal::EmptyArc
            | Refusal::NoSuchCue { .. }
            | Refusal::StateCount { .. }
            | Refusal::StartState { .. }
            | Refusal::NoSuchThread { .. }
            | Refusal::NoSuchState { .. }
            | Refusal::ConditionRange { .. } => (20, 0, 0, 0),
            Refusal::ArcsFull | Refusal::ThreadsFull | Refusal::MovesFull | Refusal::RowsFull => (
                33, 0, 0, 0,
            ),
            Refusal::ArcOrder | Refusal::ThreadAfterMove | Refusal::MoveOrder => (34, 0, 0, 0),
            Refusal::CueShort { place } => (35, 0, 0, place),
            Refusal::PlaceFull { place } => (36, 0, 0, place),
            Refusal::NoArcs | Refusal::NoMoves | Refusal::NoRows => (39, 0, 0, 0),
            Refusal::Step { offset, fault } => {
                let (number, detail) = fault.tell();
                (number, 3, offset, detail)
            }
            Refusal::FileLength { length } => (1, 1, 0, length),
            Refusal::BlockNumber { offset, number } => (2, 1, offset, number),
            Refusal::BlockUsed { offset, used } => (3, 1, offset, used),
            Refusal::BlockSum { offset, sum } => (4, 1, offset, sum),
            Refusal::RecordCut { offset, left } => (5, 2, offset, left),
        }
    }
}

impl fmt::Display for Told {
    ghost output = { λ x. Some (line x) };

    fn fmt<W: fmt::Write>(&self, f: &mut fmt::Formatter<W>) -> fmt::Result {
        let Told {
            number,
            layer,
            offset,
            detail,
        } = *self;
        write!(
            f,
            "refused {number} layer {layer} offset {offset} detail {detail}"
        )
    }
}
