//! What is filed of an answer.

ghost use Rattle.std.specs.Prelude.{◌≡◌, ◌∷◌, Some};
ghost use Rattle.protocol.specs.Answers.{Kept, Read, «RecordsApart»};
ghost use Rattle.asking.specs.Putting.{Put};
ghost use Rattle.numbering.specs.Exactly.{Exactly};
ghost use Rattle.numbering.specs.Numbered.{field_number};
ghost use Rattle.protocol.specs.Records.{selector_of, data_of};

use crate::answer::Answer;
use crate::counters::Counters;
use crate::text::filled;
use asking::buffer::put;
use asking::selector::Selector;
use numbering::{Energy, Parameter, TextField};

// Beside `Answer`, since a record owns its text, in places of a fixed number, and nothing is filed of a relay.
/// A text holds its characters and then zeros.
#[derive(Clone, Copy, Debug, PartialEq, Eq, Hash)]
pub enum Record {
    Ping { version: u8, info: u8 },
    Counter { energy: Energy, counters: Counters },
    Text { field: TextField, text: [u8; 30] },
    Parameter { parameter: Parameter, value: u16 },
}

fn text_data(field: TextField, text: &[u8; 30]) -> [u8; 31]
    ensures { result ≡ field_number field ∷ text.now }
{
    let mut data = [u8::from(field); 31];
    data[1..].copy_from_slice(text);
    data
}

// No `TryFrom`: that nothing is filed of an answer is no error.
fn filed(answer: Answer<'_>) -> Option<Record>
    ensures { Exactly (Kept answer.entry) result }
{
    match answer {
        Answer::Ping { version, info } => Some(Record::Ping { version, info }),
        Answer::Counter { energy, counters } => Some(Record::Counter { energy, counters }),
        Answer::Text { field, text } => Some(Record::Text {
            field,
            text: filled(text)?,
        }),
        Answer::Parameter { parameter, value } => Some(Record::Parameter { parameter, value }),
        Answer::Relay => None,
    }
}

/// Goes by the answer that the data mean, and by what is filed of it; what `read` says besides follows from this alone.
fn read_record(selector: Selector, source: u16, bytes: &[u8]) -> Option<Record>
    ensures { Exactly (Read selector source bytes.now) result }
{
    let answer = Answer::read(selector.command(), source, bytes)?;
    let record = filed(answer)?;
    (record.selector() == selector).then_some(record)
}

impl Record {
    /// What these data say in the answer to this selector from a meter at the address `source`.
    #[tactic(auto, using(crate::proofs::Recording::read_back, crate::proofs::Recording::records_apart))]
    pub fn read(selector: Selector, source: u16, bytes: &[u8]) -> Option<Record>
        ensures reads { Exactly (Read selector source bytes.now) result }
        ensures back { (x : Record) → Read selector source bytes.now x → result ≡ Some x }
        ensures apart { RecordsApart }
    {
        read_record(selector, source, bytes)
    }

    /// The selector whose answer this is.
    pub fn selector(&self) -> Selector
        ensures { result ≡ selector_of self.now }
    {
        match self {
            Record::Ping { .. } => Selector::Ping,
            Record::Counter { energy, .. } => Selector::Counter(*energy),
            Record::Text { field, .. } => Selector::Text(*field),
            Record::Parameter { parameter, .. } => Selector::Parameter(*parameter),
        }
    }

    /// Puts at the front of `out` the data of the answer that said this, and answers their number.
    pub fn write(&self, address: u16, out: &mut [u8]) -> Option<usize>
        ensures { Put (data_of address self.now) out.old out.new result }
    {
        match self {
            Record::Ping { version, info } => {
                let [low, high] = address.to_le_bytes();
                put(&[*version, *info, low, high], out)
            }
            Record::Counter { energy, counters } => put(&counters.data(*energy), out),
            Record::Text { field, text } => put(&text_data(*field, text), out),
            Record::Parameter { parameter, value } => {
                let [low, high] = value.to_le_bytes();
                put(&[u8::from(*parameter), low, high], out)
            }
        }
    }
}
