//! What a line of a script may ask for.

use tokens::Name;
use wire::body::Direction;

/// A call on the post of a name.
#[derive(Debug, PartialEq, Eq, Drop)]
pub enum Call {
    Enrol {
        meter: u16,
    },
    Strike {
        meter: u16,
    },
    Ask {
        meter: u16,
        command: u8,
        selector: u8,
        password: [u8; 4],
        scratch: u16,
    },
    Switch {
        meter: u16,
        relay: u8,
        position: u8,
        password: [u8; 4],
        scratch: u16,
    },
    Wire {
        bytes: Vec<u8>,
    },
    Fetch,
    Hear,
    GiveUp,
    Told {
        meter: u16,
        slot: u8,
        buffer: u16,
    },
    Silent {
        slot: u8,
        list: u16,
    },
    Save {
        buffer: u32,
    },
    Load {
        bytes: Vec<u8>,
    },
}

#[derive(Debug, PartialEq, Eq, Drop)]
pub enum Command {
    Post {
        name: Name,
        meters: u16,
        readings: u16,
    },
    Pack {
        direction: Direction,
        destination: u16,
        source: u16,
        command: u8,
        four: [u8; 4],
        buffer: u16,
        data: Vec<u8>,
    },
    Unpack {
        buffer: u16,
        bytes: Vec<u8>,
    },
    Look {
        bytes: Vec<u8>,
    },
    Same {
        first: Name,
        second: Name,
    },
    Call {
        name: Name,
        call: Call,
    },
}

/// What a line says.
// No `Result<Option<Command>, _>`: that a line says nothing or is unreadable is an answer like any other, and is no error.
#[derive(Debug, PartialEq, Eq, Drop)]
pub enum Line {
    Nothing,
    Unreadable,
    Command(Command),
}
