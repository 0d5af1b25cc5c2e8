//! The receiver: frames found in a stream of bytes.

ghost use Rattle.std.specs.Prelude.{◌≡◌, ◌≤◌, [], ◌∷◌, ◌++◌, length, drop};
ghost use Rattle.wire.specs.Receiving.{hunting, inside, joined, closed, step, run};

use crate::body::judge;
use crate::fault::Fault;
use arrayvec::ArrayVec;

/// The most bytes that a body has.
pub const LONGEST: usize = 43;

/// Begins a frame, and every escape inside one.
pub const MARK: u8 = 0x73;
/// Follows the mark at a frame's beginning, and ends the frame.
pub const FLAG: u8 = 0x55;
/// Behind a mark inside a frame: the flag, as a byte of the body.
pub const FLAG_ESCAPED: u8 = 0x11;
/// Behind a mark inside a frame: the mark, as a byte of the body.
pub const MARK_ESCAPED: u8 = 0x22;

/// Where a receiver stands between two bytes.
#[derive(Clone, Copy, Debug, PartialEq, Eq)]
enum Condition {
    /// Outside a frame.
    Hunting,
    /// Behind a mark outside a frame.
    Marked,
    /// In a frame.
    Inside,
    /// Behind a mark in a frame.
    Escaped,
}

/// What ends a body: a fault, or a good frame, whose body stays in the receiver until the next frame begins.
pub type Event = Result<(), Fault>;

/// A receiver, with the body as far as it has come in; its places are fixed, as the board has no heap.
#[derive(Debug, Drop)]
pub struct Receiver {
    condition: Condition,
    body: ArrayVec<u8, LONGEST>,
    // What the list's own type keeps to itself, said to callers.
    ghost few: { length body.items ≤ 43 },
}

impl Receiver {
    ghost use Rattle.wire.specs.Receivers.{shows, held, outcome, standing};

    /// A receiver that hunts for a frame.
    pub fn new() -> Receiver
        ensures { shows result ≡ hunting }
    {
        Receiver::empty(Condition::Hunting)
    }

    /// A receiver behind a frame's first two bytes.
    pub(crate) fn inside() -> Receiver
        ensures { shows result ≡ inside [] }
    {
        Receiver::empty(Condition::Inside)
    }

    /// A receiver that holds nothing.
    fn empty(condition: Condition) -> Receiver
        ensures { shows result ≡ standing condition [] }
    {
        Receiver {
            condition,
            body: ArrayVec::new(),
        }
    }

    /// Takes one byte in.
    pub fn receive(&mut self, byte: u8) -> Option<Event>
        ensures { step (shows self.old) byte ≡ (shows self.new, outcome result (held self.new)) }
    {
        match (self.condition, byte) {
            (Condition::Hunting, MARK) => self.turn(Condition::Marked, None),
            (Condition::Hunting, _) => None,
            (Condition::Marked, FLAG) => self.open(None),
            (Condition::Marked, MARK) => None,
            (Condition::Marked, _) => self.turn(Condition::Hunting, None),
            (Condition::Inside, FLAG) => self.close(),
            (Condition::Inside, MARK) => self.turn(Condition::Escaped, None),
            (Condition::Inside, _) => self.join(byte),
            (Condition::Escaped, FLAG_ESCAPED) => self.join(FLAG),
            (Condition::Escaped, MARK_ESCAPED) => self.join(MARK),
            (Condition::Escaped, FLAG) => self.open(Some(Err(Fault::Escape))),
            (Condition::Escaped, MARK) => self.turn(Condition::Marked, Some(Err(Fault::Escape))),
            (Condition::Escaped, _) => self.turn(Condition::Hunting, Some(Err(Fault::Escape))),
        }
    }

    /// Takes bytes in up to the first event; answers how many it took, and the event.
    pub fn run(&mut self, bytes: &[u8]) -> (usize, Option<Event>)
        ensures taken { result.0 ≤ length bytes.now }
        ensures ran { run (shows self.old) bytes.now ≡ record { receiver = shows self.new; outcome = outcome result.1 (held self.new); left = drop result.0 bytes.now } }
    {
        for (i, byte) in bytes.iter().enumerate() {
            if let Some(event) = self.receive(*byte) {
                return (i + 1, Some(event));
            }
        }
        (bytes.len(), None)
    }

    /// The body that the receiver holds: after a good frame, that frame's.
    pub fn body(&self) -> &[u8]
        ensures bytes { result.now ≡ held self.now }
        ensures bound { length result.now ≤ 43 }
    {
        self.body.as_slice()
    }

    /// Goes on in another condition, and hands the event on.
    fn turn(&mut self, condition: Condition, event: Option<Event>) -> Option<Event>
        ensures event { result ≡ event }
        ensures shows { shows self.new ≡ standing condition (held self.old) }
        ensures held { held self.new ≡ held self.old }
    {
        self.condition = condition;
        event
    }

    /// Begins a body, and hands the event on.
    fn open(&mut self, event: Option<Event>) -> Option<Event>
        ensures event { result ≡ event }
        ensures shows { shows self.new ≡ inside [] }
    {
        self.condition = Condition::Inside;
        self.body.clear();
        event
    }

    /// Ends a frame: its body is judged.
    fn close(&mut self) -> Option<Event>
        ensures { closed (held self.old) ≡ (shows self.new, outcome result (held self.new)) }
    {
        self.condition = Condition::Hunting;
        Some(judge(self.body()))
    }

    /// One byte more of the body, if it has place for it.
    fn join(&mut self, byte: u8) -> Option<Event>
        ensures { joined (held self.old) byte ≡ (shows self.new, outcome result (held self.new)) }
    {
        if self.body.is_full() {
            self.condition = Condition::Hunting;
            return Some(Err(Fault::Overlong));
        }
        self.condition = Condition::Inside;
        self.body.push(byte);
        None
    }
}
