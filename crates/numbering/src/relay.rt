//! The relays that can be switched, and the number that stands for each.

ghost use Rattle.std.specs.Prelude.{◌≡◌};
ghost use Rattle.numbering.specs.Numbered.{Decodes, relay_number};

use crate::number::UnknownNumber;

/// A relay that can be switched.
#[derive(Clone, Copy, Debug, PartialEq, Eq, Hash)]
pub enum Relay {
    R0 = 0,
    R1 = 1,
    R2 = 2,
    R3 = 3,
    R4 = 4,
    R5 = 5,
    R6 = 6,
    R7 = 7,
    R8 = 8,
}

/// The relay of this number.
impl TryFrom<u8> for Relay {
    type Error = UnknownNumber;

    ghost try_from_gives = { Decodes relay_number };

    fn try_from(number: u8) -> Result<Self, UnknownNumber> {
        match number {
            0 => Ok(Relay::R0),
            1 => Ok(Relay::R1),
            2 => Ok(Relay::R2),
            3 => Ok(Relay::R3),
            4 => Ok(Relay::R4),
            5 => Ok(Relay::R5),
            6 => Ok(Relay::R6),
            7 => Ok(Relay::R7),
            8 => Ok(Relay::R8),
            _ => Err(UnknownNumber(number)),
        }
    }
}

/// The number that stands for it in a frame.
impl From<Relay> for u8 {
    ghost from_gives = { λ relay number. number ≡ relay_number relay };

    fn from(relay: Relay) -> u8 {
        relay as u8
    }
}
