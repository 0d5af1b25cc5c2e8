//! Bearers: any line that bytes cross.
#![tactic(auto)]

pub mod cable;
mod ring;
pub mod tape;

ghost use Rattle.std.specs.Prelude.{◌≡◌, ◌<◌, length, OnSome};
ghost use Rattle.bearer.specs.Bearing.{Heard};
ghost use Rattle.bearer.specs.Lines.{Line, Takes, Sends, exact_fall};
ghost use Rattle.wire.specs.Receivers.{shows, held, outcome};

use wire::receiver::{Event, Receiver};

/// The bytes exceed the room.
#[derive(Clone, Copy, Debug, PartialEq, Eq)]
pub struct NoRoom;

/// A line that bytes cross: what it means is the bytes that wait, the bytes sent and not yet fetched, and its room.
pub trait Bearer {
    ghost state: { Self → Line };

    /// Removes and answers the first byte that waits.
    fn next(&mut self) -> Option<u8>
        ensures taken { Takes (state self.old) result (state self.new) };

    /// Sends the bytes, unless they exceed the room.
    fn send(&mut self, bytes: &[u8]) -> Result<(), NoRoom>
        ensures sent { Sends exact_fall bytes.now (state self.old) result (state self.new) };

    /// How many more bytes can be sent.
    fn room(&self) -> usize
        ensures { result ≡ (state self.now).room };
}

/// Moves the receiver over the waiting bytes, up to the first fault or good frame.
pub fn listen<B: Bearer>(bearer: &mut B, receiver: &mut Receiver) -> Option<Event>
    ensures shorter { OnSome result (length (B.Bearer.state bearer.new).waiting < length (B.Bearer.state bearer.old).waiting) }
    ensures heard { Heard (B.Bearer.state bearer.old) (shows receiver.old) (B.Bearer.state bearer.new) (shows receiver.new) (outcome result (held receiver.new)) }
{
    while let Some(byte) = bearer.next() {
        if let Some(event) = receiver.receive(byte) {
            return Some(event);
        }
    }
    None
}
