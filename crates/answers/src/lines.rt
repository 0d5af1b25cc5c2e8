//! Lines of a script, answered.

ghost use Rattle.std.specs.Prelude.{string_bytes, OnOk};
ghost use Rattle.answers.specs.Answering.{AnswerText, Reply, Answers, Appends};

use crate::frames::{write_packed, write_unpacked};
use crate::looks::write_looked;
use script::{Command, Line, read_line};
use std::alloc::{AllocError, Global};
use wire::body::Fields;

/// Appends the answer to a command.
fn write_answer(heap: Global, out: &mut String, command: &Command) -> Result<(), AllocError>
    ensures { OnOk result (Appends (AnswerText command.now) (string_bytes out.old) (string_bytes out.new)) }
{
    match command {
        Command::Pack {
            direction,
            destination,
            source,
            command,
            four,
            buffer,
            data,
        } => {
            let mut places = vec![in heap; 0; usize::from(*buffer)]?;
            let fields = Fields {
                direction: *direction,
                destination: *destination,
                source: *source,
                command: *command,
                four: *four,
                payload: data.as_slice(),
            };
            write_packed(out, &fields, places.as_mut_slice())
        }
        Command::Unpack { buffer, bytes } => {
            let mut places = vec![in heap; 0; usize::from(*buffer)]?;
            write_unpacked(out, bytes.as_slice(), places.as_mut_slice())
        }
        Command::Look { bytes } => write_looked(out, bytes.as_slice()),
        Command::Post { .. } | Command::Same { .. } | Command::Call { .. } => out.push_str(
            "not yet",
        ),
    }
}

/// Appends the answer to a command and its line end.
fn write_reply(heap: Global, out: &mut String, command: &Command) -> Result<(), AllocError>
    ensures { OnOk result (Appends (Reply command.now) (string_bytes out.old) (string_bytes out.new)) }
{
    write_answer(heap, out, command)?;
    out.push_str("\n")
}

/// Appends the answer to a line, and its line end; nothing for a blank line or a remark.
pub fn answer_line(heap: Global, out: &mut String, line: &[u8]) -> Result<(), AllocError>
    ensures { OnOk result (Appends (Answers line.now) (string_bytes out.old) (string_bytes out.new)) }
{
    match read_line(heap, line)? {
        Line::Nothing => Ok(()),
        Line::Unreadable => out.push_str("unreadable\n"),
        Line::Command(command) => write_reply(heap, out, &command),
    }
}
