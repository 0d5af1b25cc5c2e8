//! The cable: a bearer whose far side is in the hands of the program.

ghost use Rattle.std.specs.Prelude.{◌≡◌, ◌+◌, [], length};
ghost use Rattle.bearer.specs.Cables.{feed_number, line_of, feed_room, ends_of, Feeds, Fetches, Frees};
ghost use Rattle.bearer.specs.Lines.{Takes, Sends, exact_fall};

use crate::ring::Ring;
use crate::{Bearer, NoRoom};

/// Why bytes are not fed; the discriminant is the refusal's number.
#[derive(Clone, Copy, Debug, PartialEq, Eq)]
pub enum FeedRefusal {
    /// The bytes exceed the free places.
    ExceedsPlaces = 7,
}

impl From<FeedRefusal> for u8 {
    ghost from_gives = { λ refusal n. n ≡ feed_number refusal };

    fn from(refusal: FeedRefusal) -> u8 {
        refusal as u8
    }
}

/// A line of 128 places each way.
#[derive(Debug, Drop)]
pub struct Cable {
    inward: Ring,
    outward: Ring,
}

impl Cable {
    /// A cable on which nothing waits and nothing is sent, with 128 free places each way.
    pub fn new() -> Cable
        ensures { ends_of result ≡ record { line = record { waiting = []; sent = []; room = 128 }; places = 128 } }
    {
        Cable {
            inward: Ring::new(),
            outward: Ring::new(),
        }
    }

    /// The far side sends: the bytes wait behind those that wait.
    pub fn feed(&mut self, bytes: &[u8]) -> Result<(), FeedRefusal>
        ensures { Feeds bytes.now self.old result self.new }
    {
        if bytes.len() > self.inward.free() {
            return Err(FeedRefusal::ExceedsPlaces);
        }
        self.inward.append(bytes);
        Ok(())
    }

    /// The far side takes the oldest byte that was sent.
    pub fn fetch(&mut self) -> Option<u8>
        ensures { Fetches self.old result self.new }
    {
        self.outward.pop()
    }
}

impl Bearer for Cable {
    ghost state = { line_of };

    fn next(&mut self) -> Option<u8>
        ensures taken { Takes (line_of self.old) result (line_of self.new) }
        ensures places { Frees (feed_room self.old) result (feed_room self.new) }
    {
        self.inward.pop()
    }

    fn send(&mut self, bytes: &[u8]) -> Result<(), NoRoom>
        ensures sent { Sends exact_fall bytes.now (line_of self.old) result (line_of self.new) }
        ensures places { feed_room self.new ≡ feed_room self.old }
    {
        if bytes.len() > self.room() {
            return Err(NoRoom);
        }
        self.outward.append(bytes);
        Ok(())
    }

    fn room(&self) -> usize
        ensures places { result + length (line_of self.now).sent ≡ 128 }
    {
        self.outward.free()
    }
}
