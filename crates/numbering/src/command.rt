//! What a frame is about, and the number that stands for it.

ghost use Rattle.std.specs.Prelude.{◌≡◌};
ghost use Rattle.numbering.specs.Numbered.{Decodes, command_number};

use crate::number::UnknownNumber;

/// What a frame is about.
#[derive(Clone, Copy, Debug, PartialEq, Eq, Hash)]
pub enum Command {
    Ping = 0x01,
    Counters = 0x05,
    Strings = 0x07,
    Parameters = 0x37,
    Relay = 0x3A,
}

/// The command of this number.
impl TryFrom<u8> for Command {
    type Error = UnknownNumber;

    ghost try_from_gives = { Decodes command_number };

    fn try_from(number: u8) -> Result<Self, UnknownNumber> {
        match number {
            0x01 => Ok(Command::Ping),
            0x05 => Ok(Command::Counters),
            0x07 => Ok(Command::Strings),
            0x37 => Ok(Command::Parameters),
            0x3A => Ok(Command::Relay),
            _ => Err(UnknownNumber(number)),
        }
    }
}

/// The number that stands for it in a frame.
impl From<Command> for u8 {
    ghost from_gives = { λ command number. number ≡ command_number command };

    fn from(command: Command) -> u8 {
        command as u8
    }
}
