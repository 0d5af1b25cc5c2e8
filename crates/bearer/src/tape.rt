//! The tape: a bearer that reads a capture and writes a buffer, both the caller's.

ghost use Rattle.std.specs.Prelude.{◌≡◌, ◌-◌, ◌≤◌, [], length};
ghost use Rattle.bearer.specs.Lines.{Takes, Sends, after_send, exact_fall};

use crate::{Bearer, NoRoom};

/// A capture with the place of the next byte, and an outgoing buffer with its first unwritten place.
#[derive(Drop)]
pub struct Tape<'a> {
    // By position, as the capture stays whole with its owner. The clauses `same` tie the buffer's loan before a call to the one after it.
    capture: &'a [u8],
    at: usize,
    out: &'a mut [u8],
    written: usize,
    ghost fits: { written ≤ length out.now },
}

/// Copies `bytes` into as many places.
fn copy(places: &mut [u8], bytes: &[u8])
    requires { length places.old ≡ length bytes.now }
    ensures { places.new ≡ bytes.now }
{
    places.copy_from_slice(bytes);
}

impl<'a> Tape<'a> {
    ghost use Rattle.bearer.specs.Tapes.{output, tape_line, written_at, Leaves};

    /// A tape at the beginning of the capture and of the buffer.
    pub fn new(capture: &'a [u8], out: &'a mut [u8]) -> Tape<'a>
        ensures line { tape_line result ≡ record { waiting = capture.now; sent = []; room = length out.old } }
        ensures output { output result ≡ out.old }
        ensures same { result.out.ghost_name ≡ out.entry.ghost_name }
    {
        Tape {
            capture,
            at: 0,
            out,
            written: 0,
        }
    }

    /// Writes the bytes from the first unwritten place on.
    #[tactic(auto, using(crate::proofs::Tapes::sent_more, crate::proofs::Tapes::whole, crate::proofs::Tapes::room_less))]
    fn write(&mut self, bytes: &[u8])
        requires { length bytes.now ≤ length (output self.old) - self.old.written }
        ensures sent { tape_line self.new ≡ after_send exact_fall bytes.now (tape_line self.old) }
        ensures output { output self.new ≡ written_at (length (tape_line self.old).sent) bytes.now (output self.old) }
        ensures same { self.new.out.ghost_name ≡ self.old.out.ghost_name }
    {
        let start = self.written;
        let end = start + bytes.len();
        copy(&mut self.out[start..end], bytes);
        self.written = end;
    }
}

impl<'a> Bearer for Tape<'a> {
    ghost use Rattle.bearer.specs.Tapes.{output, tape_line, written_at, Leaves};

    ghost state = { tape_line };

    fn next(&mut self) -> Option<u8>
        ensures taken { Takes (tape_line self.old) result (tape_line self.new) }
        ensures output { output self.new ≡ output self.old }
        ensures same { self.new.out.ghost_name ≡ self.old.out.ghost_name }
    {
        let byte = *self.capture.get(self.at)?;
        self.at += 1;
        Some(byte)
    }

    fn send(&mut self, bytes: &[u8]) -> Result<(), NoRoom>
        ensures sent { Sends exact_fall bytes.now (tape_line self.old) result (tape_line self.new) }
        ensures output { Leaves bytes.now self.old result self.new }
        ensures same { self.new.out.ghost_name ≡ self.old.out.ghost_name }
    {
        if bytes.len() > self.room() {
            return Err(NoRoom);
        }
        self.write(bytes);
        Ok(())
    }

    fn room(&self) -> usize {
        self.out.len() - self.written
    }
}
