//! Questions to a net, read from the words of a line.
ghost use Rattle.std.specs.Prelude.{◌≡◌};
ghost use Rattle.text.specs.Words.{remaining};
ghost use Rattle.orders.specs.Questions.{read_question, topic};

use super::parts::{read_alone, read_pair, read_single};
use text::{Problem, Words};

/// One of the five questions to a net.
#[derive(Clone, Copy, PartialEq, Debug)]
pub enum Question {
    Taken { place: usize, cue: usize },
    Given { place: usize, cue: usize },
    Start { place: usize },
    Places,
    Cues,
}

/// What a question is about.
#[derive(Clone, Copy)]
enum Topic {
    Taken,
    Given,
    Start,
    Places,
    Cues,
}

impl TryFrom<&[u8]> for Topic {
    type Error = Problem;

    ghost try_from_gives = { λ word r. r ≡ topic word.now };

    #[tactic(auto, unfolding(text::specs::Names::same))]
    fn try_from(word: &[u8]) -> Result<Topic, Problem> {
        match word {
            b"taken" => Ok(Topic::Taken),
            b"given" => Ok(Topic::Given),
            b"start" => Ok(Topic::Start),
            b"places" => Ok(Topic::Places),
            b"cues" => Ok(Topic::Cues),
            _ => Err(Problem::Unknown),
        }
    }
}

/// The question that all further words ask.
pub fn read_question(words: &mut Words) -> Result<Question, Problem>
    ensures { result ≡ read_question (remaining words.old) }
{
    match Topic::try_from(words.next().ok_or(Problem::Missing)?)? {
        Topic::Taken => {
            let (place, cue) = read_pair(words)?;
            Ok(Question::Taken { place, cue })
        }
        Topic::Given => {
            let (place, cue) = read_pair(words)?;
            Ok(Question::Given { place, cue })
        }
        Topic::Start => {
            let place = read_single(words)?;
            Ok(Question::Start { place })
        }
        Topic::Places => read_alone(words, Question::Places),
        Topic::Cues => read_alone(words, Question::Cues),
    }
}
