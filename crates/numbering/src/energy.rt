//! The type of a counter, and the number that stands for it.

ghost use Rattle.std.specs.Prelude.{◌≡◌};
ghost use Rattle.numbering.specs.Numbered.{Decodes, energy_number};

use crate::number::UnknownNumber;

/// The type of a counter.
#[derive(Clone, Copy, Debug, PartialEq, Eq, Hash)]
pub enum Energy {
    ActiveForward = 0,
    ActiveReverse = 1,
    ReactiveForward = 2,
    ReactiveReverse = 3,
    ActiveAbsolute = 4,
    ReactiveAbsolute = 5,
    ReactiveR1 = 6,
    ReactiveR2 = 7,
    ReactiveR3 = 8,
    ReactiveR4 = 9,
}

/// The counter of this number.
impl TryFrom<u8> for Energy {
    type Error = UnknownNumber;

    ghost try_from_gives = { Decodes energy_number };

    fn try_from(number: u8) -> Result<Self, UnknownNumber> {
        match number {
            0 => Ok(Energy::ActiveForward),
            1 => Ok(Energy::ActiveReverse),
            2 => Ok(Energy::ReactiveForward),
            3 => Ok(Energy::ReactiveReverse),
            4 => Ok(Energy::ActiveAbsolute),
            5 => Ok(Energy::ReactiveAbsolute),
            6 => Ok(Energy::ReactiveR1),
            7 => Ok(Energy::ReactiveR2),
            8 => Ok(Energy::ReactiveR3),
            9 => Ok(Energy::ReactiveR4),
            _ => Err(UnknownNumber(number)),
        }
    }
}

/// The number that stands for it in a frame.
impl From<Energy> for u8 {
    ghost from_gives = { λ energy number. number ≡ energy_number energy };

    fn from(energy: Energy) -> u8 {
        energy as u8
    }
}
