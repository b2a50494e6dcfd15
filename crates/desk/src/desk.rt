//! What the desk holds, and how it obeys.
ghost use Rattle.std.specs.Prelude.{◌≡◌, None};
ghost use Rattle.text.specs.Words.{words};
ghost use Rattle.desk.specs.Desk.{Answered, Comes, Obeyed, perform_line, standing};
ghost use Rattle.desk.specs.Orders.{arc, ask_net, net_arcs, order, rehearse as rehearse_order, seal_net};

use super::answer::{Denial, Grant};
use super::command::Command;
use super::read::read_command;
use arcs::{ArcDraft, ArcNet};
use net::{Net, rehearse};
use orders::{Question, is_idle};
use std::alloc::Global;

/// A net being drafted, or one that is sealed.
// It has no `impl Model`: a start marking is a function, and a model's value holds none.
#[derive(Drop)]
pub struct Desk {
    heap: Global,
    draft: Option<ArcDraft>,
    net: Option<ArcNet>,
}

impl Desk {
    /// A desk with nothing on it.
    pub fn new(heap: Global) -> Desk
        ensures { standing result ≡ record { draft = None; net = None } }
    {
        Desk {
            heap,
            draft: None,
            net: None,
        }
    }

    fn begin(&mut self, places: usize, starts: &[u32]) -> Result<Grant, Denial>
        ensures { Obeyed (standing self.old) (net_arcs places starts.now) result (standing self.new) }
    {
        ArcDraft::can_begin(places, starts)?;
        self.draft = Some(ArcDraft::begin(self.heap, places, starts));
        self.net = None;
        Ok(Grant::Done)
    }

    fn ask(&self, question: Question) -> Result<Grant, Denial>
        ensures { Obeyed (standing self.now) (ask_net question) result (standing self.now) }
    {
        let net = self.net.as_ref().ok_or(Denial::NoNet)?;
        let number = match question {
            Question::Taken { place, cue } => usize::from(net.taken(place, cue)),
            Question::Given { place, cue } => usize::from(net.given(place, cue)),
            Question::Start { place } => usize::from(net.start(place)),
            Question::Places => net.places(),
            Question::Cues => net.cues(),
        };
        Ok(Grant::Number(number))
    }

    fn rehearse(&self, cues: &[u32]) -> Result<Grant, Denial>
        ensures { Obeyed (standing self.now) (rehearse_order cues.now) result (standing self.now) }
    {
        let net = self.net.as_ref().ok_or(Denial::NoNet)?;
        let marking = rehearse(net, cues)?;
        Ok(Grant::Marked {
            places: net.places(),
            marking,
        })
    }

    fn add(&mut self, cue: usize, place: usize, taken: u32, given: u32) -> Result<Grant, Denial>
        ensures { Obeyed (standing self.old) (arc cue place taken given) result (standing self.new) }
    {
        let draft = self.draft.as_mut().ok_or(Denial::NoDraft)?;
        draft.add(cue, place, taken, given)?;
        Ok(Grant::Done)
    }

    fn seal(&mut self) -> Result<Grant, Denial>
        ensures { Obeyed (standing self.old) seal_net result (standing self.new) }
    {
        self.draft.as_ref().ok_or(Denial::NoDraft)?.can_seal()?;
        let net = self.draft.take().unwrap().seal();
        let grant = Grant::Sealed {
            places: net.places(),
            cues: net.cues(),
        };
        self.net = Some(net);
        Ok(grant)
    }

    /// Makes the call that a command asks for.
    fn obey(&mut self, command: Command) -> Result<Grant, Denial>
        ensures { Obeyed (standing self.old) (order command) result (standing self.new) }
    {
        match command {
            Command::NetArcs { places, starts } => self.begin(places, &starts),
            Command::Arc {
                cue,
                place,
                taken,
                given,
            } => self.add(cue, place, taken, given),
            Command::SealNet => self.seal(),
            Command::AskNet(question) => self.ask(question),
            Command::Rehearse { cues } => self.rehearse(&cues),
            Command::Help => Ok(Grant::Help),
            Command::Quit => Ok(Grant::Quit),
        }
    }

    /// Reads the command of a line and obeys it.
    fn obey_line(&mut self, line: &[u8]) -> Result<Grant, Denial>
        ensures { Comes (perform_line (standing self.old) (words line.now)) (standing self.old) result (standing self.new) }
    {
        let command = read_command(self.heap, line)?;
        self.obey(command)
    }

    /// Answers a line; one that orders nothing has no answer.
    pub fn answer(&mut self, line: &[u8]) -> Option<Result<Grant, Denial>>
        ensures { Answered (standing self.old) (words line.now) result (standing self.new) }
    {
        if is_idle(line) {
            return None;
        }
        Some(self.obey_line(line))
    }
}
