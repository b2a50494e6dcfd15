//! Commands read from the words of a line.
ghost use Rattle.std.specs.Prelude.{◌≡◌};
ghost use Rattle.std.specs.Option.{option_map};
ghost use Rattle.text.specs.Words.{remaining, words as words_of};
ghost use Rattle.orders.specs.Orders.{ReadAs, file_named, make, object, read, read_arc, read_ask, read_conditions, read_move, read_net, read_records, read_rehearse, read_row, read_seal, read_thread, verb};

use super::command::Command;
use super::parts::{self, read_alone, read_arcs, read_name, read_pair, read_single, read_usize};
use super::question::read_question;
use row_words::read_row_body;
use std::alloc::Global;
use text::{Problem, Words};

/// How a net is drafted.
#[derive(Clone, Copy)]
enum Make {
    Arcs,
    Threads,
}

impl TryFrom<&[u8]> for Make {
    type Error = Problem;

    ghost try_from_gives = { λ word r. r ≡ make word.now };

    #[tactic(auto, unfolding(text::specs::Names::same))]
    fn try_from(word: &[u8]) -> Result<Make, Problem> {
        match word {
            b"arcs" => Ok(Make::Arcs),
            b"threads" => Ok(Make::Threads),
            _ => Err(Problem::Unknown),
        }
    }
}

fn read_net(heap: Global, words: &mut Words) -> Result<Command, Problem>
    ensures { ReadAs (read_net (remaining words.old)) result }
{
    match Make::try_from(words.next().ok_or(Problem::Missing)?)? {
        Make::Arcs => {
            let (places, starts) = read_arcs(heap, words)?;
            Ok(Command::NetArcs { places, starts })
        }
        Make::Threads => read_alone(words, Command::NetThreads),
    }
}

fn read_arc(words: &mut Words) -> Result<Command, Problem>
    ensures { ReadAs (read_arc (remaining words.old)) result }
{
    let ((cue, place), (taken, given)) = parts::read_arc(words)?;
    Ok(Command::Arc {
        cue,
        place,
        taken,
        given,
    })
}

fn read_thread(words: &mut Words) -> Result<Command, Problem>
    ensures { ReadAs (read_thread (remaining words.old)) result }
{
    let (states, start) = read_pair(words)?;
    Ok(Command::Thread { states, start })
}

fn read_move(words: &mut Words) -> Result<Command, Problem>
    ensures { ReadAs (read_move (remaining words.old)) result }
{
    let (cue, thread) = (read_usize(words)?, read_usize(words)?);
    let (from, to) = read_pair(words)?;
    Ok(Command::Move {
        cue,
        thread,
        from,
        to,
    })
}

/// What is sealed.
#[derive(Clone, Copy)]
enum Object {
    Net,
    Conditions,
}

impl TryFrom<&[u8]> for Object {
    type Error = Problem;

    ghost try_from_gives = { λ word r. r ≡ object word.now };

    #[tactic(auto, unfolding(text::specs::Names::same))]
    fn try_from(word: &[u8]) -> Result<Object, Problem> {
        match word {
            b"net" => Ok(Object::Net),
            b"conditions" => Ok(Object::Conditions),
            _ => Err(Problem::Unknown),
        }
    }
}

fn read_seal(words: &mut Words) -> Result<Command, Problem>
    ensures { ReadAs (read_seal (remaining words.old)) result }
{
    match Object::try_from(words.next().ok_or(Problem::Missing)?)? {
        Object::Net => read_alone(words, Command::SealNet),
        Object::Conditions => read_alone(words, Command::SealConditions),
    }
}

fn read_conditions(words: &mut Words) -> Result<Command, Problem>
    ensures { ReadAs (read_conditions (remaining words.old)) result }
{
    let places = read_single(words)?;
    Ok(Command::Conditions { places })
}

fn read_row(heap: Global, words: &mut Words) -> Result<Command, Problem>
    ensures { ReadAs (read_row (remaining words.old)) result }
{
    let condition = read_usize(words)?;
    let body = read_row_body(heap, words)?;
    Ok(Command::Row { condition, body })
}

fn read_ask(words: &mut Words) -> Result<Command, Problem>
    ensures { ReadAs (read_ask (remaining words.old)) result }
{
    read_name(words, b"net")?;
    read_question(words).map(Command::AskNet)
}

fn read_rehearse(heap: Global, words: &mut Words) -> Result<Command, Problem>
    ensures { ReadAs (read_rehearse (remaining words.old)) result }
{
    let cues = words.numbers(heap)?;
    Ok(Command::Rehearse { cues })
}

fn read_records(words: &mut Words) -> Result<Command, Problem>
    ensures { ReadAs (read_records (remaining words.old)) result }
{
    words.next().ok_or(Problem::Missing)?;
    read_alone(words, Command::Records)
}

/// The first word of a command.
#[derive(Clone, Copy)]
enum Verb {
    Net,
    Arc,
    Thread,
    Move,
    Seal,
    Conditions,
    Row,
    Ask,
    Rehearse,
    Records,
    Help,
    Quit,
}

impl TryFrom<&[u8]> for Verb {
    type Error = Problem;

    ghost try_from_gives = { λ word r. r ≡ verb word.now };

    #[tactic(auto, unfolding(text::specs::Names::same))]
    fn try_from(word: &[u8]) -> Result<Verb, Problem> {
        match word {
            b"net" => Ok(Verb::Net),
            b"arc" => Ok(Verb::Arc),
            b"thread" => Ok(Verb::Thread),
            b"move" => Ok(Verb::Move),
            b"seal" => Ok(Verb::Seal),
            b"conditions" => Ok(Verb::Conditions),
            b"row" => Ok(Verb::Row),
            b"ask" => Ok(Verb::Ask),
            b"rehearse" => Ok(Verb::Rehearse),
            b"records" => Ok(Verb::Records),
            b"help" => Ok(Verb::Help),
            b"quit" => Ok(Verb::Quit),
            _ => Err(Problem::Unknown),
        }
    }
}

/// The command of a line that is not idle.
pub fn read_command(heap: Global, line: &[u8]) -> Result<Command, Problem>
    ensures { ReadAs (read (words_of line.now)) result }
{
    let mut words = Words::new(line);
    match Verb::try_from(words.next().ok_or(Problem::Missing)?)? {
        Verb::Net => read_net(heap, &mut words),
        Verb::Arc => read_arc(&mut words),
        Verb::Thread => read_thread(&mut words),
        Verb::Move => read_move(&mut words),
        Verb::Seal => read_seal(&mut words),
        Verb::Conditions => read_conditions(&mut words),
        Verb::Row => read_row(heap, &mut words),
        Verb::Ask => read_ask(&mut words),
        Verb::Rehearse => read_rehearse(heap, &mut words),
        Verb::Records => read_records(&mut words),
        Verb::Help => read_alone(&mut words, Command::Help),
        Verb::Quit => read_alone(&mut words, Command::Quit),
    }
}

/// The name of the file that a line's command reads.
#[tactic(auto, unfolding(text::specs::Names::same))]
pub fn file_named(line: &[u8]) -> Option<&[u8]>
    ensures { option_map (λ x. x.now) result ≡ file_named (words_of line.now) }
{
    let mut words = Words::new(line);
    match words.next()? {
        b"records" => words.next(),
        _ => None,
    }
}
