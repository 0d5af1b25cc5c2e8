//! To close or to open a relay, and the number that stands for it.

ghost use Rattle.std.specs.Prelude.{◌≡◌};
ghost use Rattle.numbering.specs.Numbered.{Decodes, position_number};

use crate::number::UnknownNumber;

/// To close or to open a relay.
#[derive(Clone, Copy, Debug, PartialEq, Eq, Hash)]
pub enum Position {
    Close = 0,
    Open = 1,
}

/// The position of this number.
impl TryFrom<u8> for Position {
    type Error = UnknownNumber;

    ghost try_from_gives = { Decodes position_number };

    fn try_from(number: u8) -> Result<Self, UnknownNumber> {
        match number {
            0 => Ok(Position::Close),
            1 => Ok(Position::Open),
            _ => Err(UnknownNumber(number)),
        }
    }
}

/// The number that stands for it in a frame.
impl From<Position> for u8 {
    ghost from_gives = { λ position number. number ≡ position_number position };

    fn from(position: Position) -> u8 {
        position as u8
    }
}
