//! Numbers as words.

ghost use Rattle.std.specs.Prelude.{◌≡◌, ◌≤◌, nat_lt, if◌then◌else◌, Some, None};
ghost use Rattle.std.specs.Char.{digit_value};
ghost use Rattle.tokens.specs.Numerals.{digits_in, numeral, up_to};

/// The value of a digit of the base, and none of any other byte.
pub(crate) fn digit(byte: u8, base: u32) -> Option<u32>
    requires { (2 ≤ base) × (base ≤ 36) }
    ensures { result ≡ (if nat_lt (digit_value byte) base then Some (digit_value byte) else None) }
{
    char::from(byte).to_digit(base)
}

/// The number that these digits of the base make, up to `most`; there is at least one.
fn read_digits(digits: &[u8], base: u32, most: u32) -> Option<u32>
    requires { (2 ≤ base) × (base ≤ 36) }
    ensures { result ≡ up_to most (digits_in base digits.now) }
{
    if digits.is_empty() {
        return None;
    }
    let mut n: u64 = 0;
    for d in digits {
        let value = digit(*d, base)?;
        n = n * u64::from(base) + u64::from(value);
        if n > u64::from(most) {
            return None;
        }
    }
    Some(n as u32)
}

/// The number that the word spells, up to `most`.
#[tactic(auto, using(crate::proofs::Spelling::hex_word))]
pub fn read_number(word: &[u8], most: u32) -> Option<u32>
    ensures { result ≡ up_to most (numeral word.now) }
{
    match word {
        [b'0', b'x', digits @ ..] => read_digits(digits, 16, most),
        _ => read_digits(word, 10, most),
    }
}
