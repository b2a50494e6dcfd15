//! The commands of the desk.
use super::question::Question;

/// A command, with its numbers as they were written.
#[derive(Drop)]
pub enum Command {
    NetArcs {
        places: usize,
        starts: Vec<u32>,
    },
    Arc {
        cue: usize,
        place: usize,
        taken: u32,
        given: u32,
    },
    NetThreads,
    Thread {
        states: usize,
        start: usize,
    },
    Move {
        cue: usize,
        thread: usize,
        from: usize,
        to: usize,
    },
    SealNet,
    Conditions {
        places: usize,
    },
    Row {
        condition: usize,
        body: Vec<u8>,
    },
    SealConditions,
    AskNet(Question),
    Rehearse {
        cues: Vec<u32>,
    },
    Records,
    Help,
    Quit,
}
