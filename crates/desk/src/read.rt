//! Commands read from the words of a line: a shorter language than that of `orders`, whose other words are unknown here.
ghost use Rattle.std.specs.Prelude.{◌≡◌};
ghost use Rattle.text.specs.Words.{remaining, words as words_of};
ghost use Rattle.desk.specs.Orders.{ReadAs, read, read_arc, read_ask, read_net, read_rehearse, read_seal, verb};

use super::command::Command;
use orders::{read_alone, read_arcs, read_name, read_question};
use std::alloc::Global;
use text::{Problem, Words};

fn read_net(heap: Global, words: &mut Words) -> Result<Command, Problem>
    ensures { ReadAs (read_net (remaining words.old)) result }
{
    read_name(words, b"arcs")?;
    let (places, starts) = read_arcs(heap, words)?;
    Ok(Command::NetArcs { places, starts })
}

fn read_arc(words: &mut Words) -> Result<Command, Problem>
    ensures { ReadAs (read_arc (remaining words.old)) result }
{
    let ((cue, place), (taken, given)) = orders::read_arc(words)?;
    Ok(Command::Arc {
        cue,
        place,
        taken,
        given,
    })
}

fn read_seal(words: &mut Words) -> Result<Command, Problem>
    ensures { ReadAs (read_seal (remaining words.old)) result }
{
    read_name(words, b"net")?;
    read_alone(words, Command::SealNet)
}

fn read_ask(words: &mut Words) -> Result<Command, Problem>
    ensures { ReadAs (read_ask (remaining words.old)) result }
{
    read_name(words, b"net")?;
    read_question(words).map(Command::AskNet)
}

fn read_rehearse(heap: Global, words: &mut Words) -> Result<Command, Problem>
    ensures { ReadAs (read_rehearse (remaining words.old)) result }
{
    let cues = words.numbers(heap)?;
    Ok(Command::Rehearse { cues })
}

/// The first word of a command.
// Its own list, and not that of `orders`: a command that the desk lacks is unknown before its words are read.
#[derive(Clone, Copy)]
enum Verb {
    Net,
    Arc,
    Seal,
    Ask,
    Rehearse,
    Help,
    Quit,
}

impl TryFrom<&[u8]> for Verb {
    type Error = Problem;

    ghost try_from_gives = { λ word r. r ≡ verb word.now };

    #[tactic(auto, unfolding(text::specs::Names::same))]
    fn try_from(word: &[u8]) -> Result<Verb, Problem> {
        match word {
            b"net" => Ok(Verb::Net),
            b"arc" => Ok(Verb::Arc),
            b"seal" => Ok(Verb::Seal),
            b"ask" => Ok(Verb::Ask),
            b"rehearse" => Ok(Verb::Rehearse),
            b"help" => Ok(Verb::Help),
            b"quit" => Ok(Verb::Quit),
            _ => Err(Problem::Unknown),
        }
    }
}

/// The command of a line that is not idle.
pub fn read_command(heap: Global, line: &[u8]) -> Result<Command, Problem>
    ensures { ReadAs (read (words_of line.now)) result }
{
    let mut words = Words::new(line);
    match Verb::try_from(words.next().ok_or(Problem::Missing)?)? {
        Verb::Net => read_net(heap, &mut words),
        Verb::Arc => read_arc(&mut words),
        Verb::Seal => read_seal(&mut words),
        Verb::Ask => read_ask(&mut words),
        Verb::Rehearse => read_rehearse(heap, &mut words),
        Verb::Help => read_alone(&mut words, Command::Help),
        Verb::Quit => read_alone(&mut words, Command::Quit),
    }
}
