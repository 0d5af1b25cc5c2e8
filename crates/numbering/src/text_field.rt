//! The subscriber strings, and the number that stands for each.

ghost use Rattle.std.specs.Prelude.{◌≡◌};
ghost use Rattle.numbering.specs.Numbered.{Decodes, field_number};

use crate::number::UnknownNumber;

/// A subscriber string.
#[derive(Clone, Copy, Debug, PartialEq, Eq, Hash)]
pub enum TextField {
    Account = 1,
    Settlement = 2,
    Street = 3,
    House = 4,
    Flat = 5,
    Subscriber = 6,
    BillingId = 7,
    Input1 = 0x10,
    Input2 = 0x11,
    Input3 = 0x12,
    Input4 = 0x13,
}

/// The string of this number.
impl TryFrom<u8> for TextField {
    type Error = UnknownNumber;

    ghost try_from_gives = { Decodes field_number };

    fn try_from(number: u8) -> Result<Self, UnknownNumber> {
        match number {
            1 => Ok(TextField::Account),
            2 => Ok(TextField::Settlement),
            3 => Ok(TextField::Street),
            4 => Ok(TextField::House),
            5 => Ok(TextField::Flat),
            6 => Ok(TextField::Subscriber),
            7 => Ok(TextField::BillingId),
            0x10 => Ok(TextField::Input1),
            0x11 => Ok(TextField::Input2),
            0x12 => Ok(TextField::Input3),
            0x13 => Ok(TextField::Input4),
            _ => Err(UnknownNumber(number)),
        }
    }
}

/// The number that stands for it in a frame.
impl From<TextField> for u8 {
    ghost from_gives = { λ field number. number ≡ field_number field };

    fn from(field: TextField) -> u8 {
        field as u8
    }
}
