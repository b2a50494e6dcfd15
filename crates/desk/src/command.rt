//! The commands of the desk.
use orders::Question;

/// A command, with its numbers as they were written.
#[derive(Drop)]
pub enum Command {
    NetArcs {
        places: usize,
        starts: Vec<u32>,
    },
    Arc {
        cue: usize,
        place: usize,
        taken: u32,
        given: u32,
    },
    SealNet,
    AskNet(Question),
    Rehearse {
        cues: Vec<u32>,
    },
    Help,
    Quit,
}
