//! What a receiver says of a body that it gives up.

ghost use Rattle.std.specs.Prelude.{◌≡◌};
ghost use Rattle.wire.specs.Faults.{fault_number};

/// Why a body is given up; the discriminant is the fault's number.
#[derive(Clone, Copy, Debug, PartialEq, Eq)]
pub enum Fault {
    /// An escape byte is followed by neither of the two bytes that may follow it.
    Escape = 31,
    /// A body of more than 43 bytes.
    Overlong = 32,
    /// A body of fewer than 12 bytes.
    Short = 33,
    /// The body's length is not the one that its parameter byte states.
    Length = 34,
    /// The last byte is not the CRC of those before it.
    Crc = 35,
    /// C, V0 or the reserve byte is not 0.
    Reserved = 36,
}

impl From<Fault> for u8 {
    ghost from_gives = { λ fault n. n ≡ fault_number fault };

    fn from(fault: Fault) -> u8 {
        fault as u8
    }
}
