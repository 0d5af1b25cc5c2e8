//! A whole body, read as what it says.
#![tactic(auto)]

ghost use Rattle.std.specs.Prelude.{◌≡◌};
ghost use Rattle.wire.specs.Fields.{content};
ghost use Rattle.numbering.specs.Exactly.{Exactly};
ghost use Rattle.look.specs.declared.Refusal.TheVariants.{Faulty};
ghost use Rattle.look.specs.Looks.{Shows, Looked, Placed, refusal_number};

use asking::question::Question;
use numbering::Command;
use protocol::answer::Answer;
use wire::body::{Direction, Fields};
use wire::fault::Fault;
use wire::receiver::LONGEST;

/// What a body says. A complaint is an answer whose fourth status is not 0; its data are not read.
// The two ends stand in each case: a struct around the enum would put a second match before each case's fields.
#[derive(Clone, Copy, Debug, PartialEq, Eq)]
pub enum Look<'a> {
    Question {
        destination: u16,
        source: u16,
        password: [u8; 4],
        question: Question,
    },
    Answer {
        destination: u16,
        source: u16,
        status: [u8; 3],
        answer: Answer<'a>,
    },
    Complaint {
        destination: u16,
        source: u16,
        command: Command,
        status: [u8; 4],
    },
}

/// Why bytes are not read: they are no good body, or the command is unknown or the data are not lawful for it.
#[derive(Clone, Copy, Debug, PartialEq, Eq)]
pub enum Refusal {
    Faulty(Fault),
    Unlawful,
}

/// The refusal's number; a fault has its own.
impl From<Refusal> for u8 {
    ghost from_gives = { λ refusal n. n ≡ refusal_number refusal };

    fn from(refusal: Refusal) -> u8 {
        match refusal {
            Refusal::Faulty(fault) => u8::from(fault),
            Refusal::Unlawful => 39,
        }
    }
}

impl From<Fault> for Refusal {
    ghost from_gives = { λ fault refusal. refusal ≡ Faulty fault };

    fn from(value: Fault) -> Refusal {
        Refusal::Faulty(value)
    }
}

/// What the fields of a good body say.
fn seen(fields: Fields<'_>) -> Option<Look<'_>>
    ensures { Exactly (Shows (content fields.entry)) result }
{
    let (destination, source) = (fields.destination, fields.source);
    let [first, second, third, fourth] = fields.four;
    match fields.direction {
        Direction::Request => {
            let question = Question::read(fields.command, fields.payload)?;
            Some(Look::Question {
                destination,
                source,
                password: fields.four,
                question,
            })
        }
        Direction::Answer => {
            let command = Command::try_from(fields.command).ok()?;
            if fourth != 0 {
                return Some(Look::Complaint {
                    destination,
                    source,
                    command,
                    status: fields.four,
                });
            }
            let answer = Answer::read(command, source, fields.payload)?;
            Some(Look::Answer {
                destination,
                source,
                status: [first, second, third],
                answer,
            })
        }
    }
}

impl<'a> Look<'a> {
    /// What a body says; a text is a part of the body.
    pub fn read(body: &'a [u8]) -> Result<Look<'a>, Refusal>
        ensures looks { Looked body.now result }
        ensures place { Placed body.now result }
    {
        if body.len() > LONGEST {
            return Err(Refusal::Faulty(Fault::Overlong));
        }
        seen(Fields::read(body)?).ok_or(Refusal::Unlawful)
    }
}
