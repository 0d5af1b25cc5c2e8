//! What the data of an answer say.

ghost use Rattle.protocol.specs.Answers.{Means};
ghost use Rattle.numbering.specs.Exactly.{Exactly};

use crate::counters::Counters;
use crate::text::shown;
use numbering::{Command, Energy, Parameter, TextField};

/// A text is a part of the data, without its zeros.
#[derive(Clone, Copy, Debug, PartialEq, Eq, Hash)]
pub enum Answer<'a> {
    Ping { version: u8, info: u8 },
    Counter { energy: Energy, counters: Counters },
    Text { field: TextField, text: &'a [u8] },
    Parameter { parameter: Parameter, value: u16 },
    Relay,
}

// Source and data stay two parameters of each reader: a struct around them would be taken apart in each again. A reader takes the source also
// where it looks at the data alone, since its contract says whose answer it is.
fn read_ping(source: u16, bytes: &[u8]) -> Option<Answer<'_>>
    ensures { Exactly (Means Command.Ping source bytes.now) result }
{
    match *bytes {
        [version, info, low, high] if u16::from_le_bytes([low, high]) == source => {
            Some(Answer::Ping { version, info })
        }
        _ => None,
    }
}

fn read_counter(source: u16, bytes: &[u8]) -> Option<Answer<'_>>
    ensures { Exactly (Means Command.Counters source bytes.now) result }
{
    let (number, rest) = bytes.split_first()?;
    let energy = Energy::try_from(*number).ok()?;
    let counters = Counters::read(rest)?;
    Some(Answer::Counter { energy, counters })
}

fn read_text(source: u16, bytes: &[u8]) -> Option<Answer<'_>>
    ensures { Exactly (Means Command.Strings source bytes.now) result }
{
    let (number, rest) = bytes.split_first()?;
    let field = TextField::try_from(*number).ok()?;
    let text = shown(rest)?;
    Some(Answer::Text { field, text })
}

fn read_parameter(source: u16, bytes: &[u8]) -> Option<Answer<'_>>
    ensures { Exactly (Means Command.Parameters source bytes.now) result }
{
    let &[number, low, high] = bytes else {
        return None;
    };
    let parameter = Parameter::try_from(number).ok()?;
    let value = u16::from_le_bytes([low, high]);
    parameter
        .allows(value)
        .then_some(Answer::Parameter { parameter, value })
}

fn read_relay(source: u16, bytes: &[u8]) -> Option<Answer<'_>>
    ensures { Exactly (Means Command.Relay source bytes.now) result }
{
    bytes.is_empty().then_some(Answer::Relay)
}

impl Answer<'_> {
    /// What these data say in an answer to the command from a meter at the address `source`.
    pub fn read(command: Command, source: u16, bytes: &[u8]) -> Option<Answer<'_>>
        ensures { Exactly (Means command source bytes.now) result }
    {
        match command {
            Command::Ping => read_ping(source, bytes),
            Command::Counters => read_counter(source, bytes),
            Command::Strings => read_text(source, bytes),
            Command::Parameters => read_parameter(source, bytes),
            Command::Relay => read_relay(source, bytes),
        }
    }
}
