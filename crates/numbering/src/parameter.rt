//! The parameters of the meter, their numbers and the values that they take.

ghost use Rattle.std.specs.Prelude.{◌≡◌, MatchBool};
ghost use Rattle.numbering.specs.Numbered.{Decodes, parameter_number};
ghost use Rattle.numbering.specs.Parameters.{Allowed, allowed};

use crate::number::UnknownNumber;

/// A parameter of the meter.
#[derive(Clone, Copy, Debug, PartialEq, Eq, Hash)]
pub enum Parameter {
    AnswerDelay = 0,
    RelayDelay = 1,
    ConnectionTime = 2,
    UnlockTime = 3,
    Temperature = 4,
    InputMode = 0x10,
}

/// The parameter of this number.
impl TryFrom<u8> for Parameter {
    type Error = UnknownNumber;

    ghost try_from_gives = { Decodes parameter_number };

    fn try_from(number: u8) -> Result<Self, UnknownNumber> {
        match number {
            0 => Ok(Parameter::AnswerDelay),
            1 => Ok(Parameter::RelayDelay),
            2 => Ok(Parameter::ConnectionTime),
            3 => Ok(Parameter::UnlockTime),
            4 => Ok(Parameter::Temperature),
            0x10 => Ok(Parameter::InputMode),
            _ => Err(UnknownNumber(number)),
        }
    }
}

/// The number that stands for it in a frame.
impl From<Parameter> for u8 {
    ghost from_gives = { λ parameter number. number ≡ parameter_number parameter };

    fn from(parameter: Parameter) -> u8 {
        parameter as u8
    }
}

impl Parameter {
    /// Whether the parameter takes this value: the mode of the inputs takes two, any other each.
    pub fn allows(self, value: u16) -> bool
        ensures takes { MatchBool result (Allowed self value) (Allowed self value → ⊥) }
        ensures test { result ≡ allowed self value }
    {
        match self {
            Parameter::InputMode => value == 0 || value == 0x000F,
            _ => true,
        }
    }
}
