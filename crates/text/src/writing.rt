//! Answers as text. The functions append to a `String` and are no `Display`: what they write are bytes and numbers, in forms of the console's.

ghost use Rattle.std.specs.Prelude.{◌≡◌, ◌<◌, ◌++◌, string_bytes, codes, OnOk};
ghost use Rattle.text.specs.Answers.{hex_digit, two_digits, solid_pairs, trailing_pairs, trailing_numbers, text_word, refusal};

use crate::phrases::meaning;
use std::alloc::AllocError;
use std::fmt::Write;

/// The upper-case digit of a value below 16.
fn hex_digit(value: u8) -> char
    requires { value < 16 }
    ensures digit { result ≡ hex_digit value }
    ensures ascii { result < 128 }
{
    let code = if value < 10 {
        b'0' + value
    } else {
        b'A' + (value - 10)
    };
    char::from(code)
}

// Digit by digit, not by the format `{:02X}`, and the space by itself: the format and a separator of any length cost twice to five times as much
// for each byte.
/// Appends a byte as two digits.
fn write_pair(out: &mut String, byte: u8) -> Result<(), AllocError>
    ensures { OnOk result (string_bytes out.new ≡ string_bytes out.old ++ two_digits byte) }
{
    out.push(hex_digit(byte / 16))?;
    out.push(hex_digit(byte % 16))?;
    Ok(())
}

/// Appends bytes as pairs with nothing between them.
fn write_solid(out: &mut String, bytes: &[u8]) -> Result<(), AllocError>
    ensures { OnOk result (string_bytes out.new ≡ string_bytes out.old ++ solid_pairs bytes.now) }
{
    for byte in bytes {
        write_pair(out, *byte)?;
    }
    Ok(())
}

/// Appends bytes as pairs, each behind a space.
fn write_trailing(out: &mut String, bytes: &[u8]) -> Result<(), AllocError>
    ensures { OnOk result (string_bytes out.new ≡ string_bytes out.old ++ trailing_pairs bytes.now) }
{
    for byte in bytes {
        out.push(' ')?;
        write_pair(out, *byte)?;
    }
    Ok(())
}

/// Appends numbers in decimal, each behind a space.
// A loop of its own beside that of the pairs: a closure for what is written of an item would be longer than the loop.
pub fn write_numbers(out: &mut String, numbers: &[u32]) -> Result<(), AllocError>
    ensures { OnOk result (string_bytes out.new ≡ string_bytes out.old ++ trailing_numbers numbers.now) }
{
    for number in numbers {
        write!(out, " {number}")?;
    }
    Ok(())
}

/// Appends four bytes as eight digits.
pub fn write_password(out: &mut String, password: [u8; 4]) -> Result<(), AllocError>
    ensures { OnOk result (string_bytes out.new ≡ string_bytes out.old ++ solid_pairs password) }
{
    write_solid(out, &password)
}

/// Appends a text of bytes as one word: its pairs, or `-` where it has none.
pub fn write_text(out: &mut String, text: &[u8]) -> Result<(), AllocError>
    ensures { OnOk result (string_bytes out.new ≡ string_bytes out.old ++ text_word text.now) }
{
    if text.is_empty() {
        out.push('-')
    } else {
        write_solid(out, text)
    }
}

// A number and no type, since the refusals of several crates come here.
/// Appends `refused N (MEANING)`.
pub fn write_refusal(out: &mut String, number: u8) -> Result<(), AllocError>
    ensures { OnOk result (string_bytes out.new ≡ string_bytes out.old ++ refusal number) }
{
    let words = meaning(number);
    write!(out, "refused {number} ({words})")
}

/// Appends `bytes HEX`, or `bytes` alone where there are none.
pub fn write_bytes(out: &mut String, bytes: &[u8]) -> Result<(), AllocError>
    ensures { OnOk result (string_bytes out.new ≡ string_bytes out.old ++ (codes "bytes" ++ trailing_pairs bytes.now)) }
{
    out.push_str("bytes")?;
    write_trailing(out, bytes)
}
