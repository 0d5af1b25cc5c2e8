//! What a question asks, as its command and its data.

ghost use Rattle.std.specs.Prelude.{◌≡◌, Some, ◌≢◌};
ghost use Rattle.asking.specs.Putting.{Put};
ghost use Rattle.numbering.specs.Exactly.{Exactly};
ghost use Rattle.asking.specs.Questions.{Asks, question_command, question_data};

use crate::buffer::put;
use crate::selector::Selector;
use numbering::{Command, Position, Relay};

/// Each value is a lawful question: a relay is one of nine, so no number stands for none.
#[derive(Clone, Copy, Debug, PartialEq, Eq, Hash)]
pub enum Question {
    Read(Selector),
    Switch { relay: Relay, position: Position },
}

fn read_ping(bytes: &[u8]) -> Option<Question>
    ensures { Exactly (Asks 0x01 bytes.now) result }
{
    match bytes {
        [] => Some(Question::Read(Selector::Ping)),
        _ => None,
    }
}

// By its number, as `Selector::named` takes it and decodes every command.
/// A reading question that is not a ping.
fn read_selector(command: u8, bytes: &[u8]) -> Option<Question>
    requires { (command ≢ 0x01) × (command ≢ 0x3A) }
    ensures { Exactly (Asks command bytes.now) result }
{
    match bytes {
        [selector] => Some(Question::Read(Selector::named(command, *selector)?)),
        _ => None,
    }
}

fn read_switch(bytes: &[u8]) -> Option<Question>
    ensures { Exactly (Asks 0x3A bytes.now) result }
{
    let [relay, position] = bytes else {
        return None;
    };
    let relay = Relay::try_from(*relay).ok()?;
    let position = Position::try_from(*position).ok()?;
    Some(Question::Switch { relay, position })
}

impl Question {
    /// The question of a frame with this command's number and these data.
    pub fn read(command: u8, bytes: &[u8]) -> Option<Question>
        ensures reads { Exactly (Asks command bytes.now) result }
        ensures back { (x : Question) → Asks command bytes.now x → result ≡ Some x }
    {
        match Command::try_from(command).ok()? {
            Command::Ping => read_ping(bytes),
            Command::Relay => read_switch(bytes),
            _ => read_selector(command, bytes),
        }
    }

    /// The command that the question is sent with.
    pub fn command(self) -> Command
        ensures { result ≡ question_command self }
    {
        match self {
            Question::Read(selector) => selector.command(),
            Question::Switch { .. } => Command::Relay,
        }
    }

    /// Puts the data at the front of `out`, and answers their number.
    pub fn write(self, out: &mut [u8]) -> Option<usize>
        ensures { Put (question_data self) out.old out.new result }
    {
        match self {
            Question::Read(Selector::Ping) => put(&[], out),
            Question::Read(selector) => put(&[selector.byte()], out),
            Question::Switch { relay, position } => put(
                &[u8::from(relay), u8::from(position)],
                out,
            ),
        }
    }
}
