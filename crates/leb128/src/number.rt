//! Numbers read from bytes and written to them.

ghost use Rattle.std.specs.Prelude.{◌≡◌, ◌+◌, ◌<◌, ◌≤◌, ◌++◌, length, take, drop};
ghost use Rattle.leb128.specs.Laws.{Back, Only};
ghost use Rattle.leb128.specs.Numbers.{number_form, number_read, groups_read};
ghost use Rattle.leb128.specs.Reads.{Took};
ghost use Rattle.leb128.specs.Steps.{Group, Spelled};
ghost use Rattle.leb128.specs.Writes.{Put};

use crate::cause::{Cause, Parsed};

/// How many values the seven bits of a group have.
const BASE: u32 = 128;
/// Bit 7, set in every byte but the last.
const MORE: u8 = 0x80;

/// The place of the fifth byte, counted from 0: no byte follows it.
const LAST_PLACE: u8 = 4;
/// The largest fifth byte: four of the 32 bits are left for it.
const LAST_MOST: u8 = 0x0F;

/// The first byte, if it may stand at this place of a number, counted from 0.
fn read_group(bytes: &[u8], place: u8) -> Parsed<'_, u8>
    requires { place ≤ 4 }
    ensures { Group bytes.now place result }
{
    let [byte, rest @ ..] = bytes else {
        return Err(Cause::Ended);
    };
    if place == LAST_PLACE && *byte > LAST_MOST {
        return Err(Cause::TooLarge);
    }
    Ok((*byte, rest))
}

/// Reads a number's groups from this place on, in any spelling.
fn read_groups(bytes: &[u8], place: u8) -> Parsed<'_, u32>
    requires { place ≤ 4 }
    ensures { Took (groups_read place bytes.now) result }
{
    let (byte, rest) = read_group(bytes, place)?;
    if byte < MORE {
        return Ok((u32::from(byte), rest));
    }
    let (high, rest) = read_groups(rest, place + 1)?;
    Ok((u32::from(byte - MORE) + BASE * high, rest))
}

/// Reads the number at the front, in any spelling.
fn read_spelling(bytes: &[u8]) -> Parsed<'_, u32>
    ensures spelled { Spelled bytes.now result }
    ensures back { Back }
    ensures only { Only }
{
    read_groups(bytes, 0)
}

/// Reads the number at the front: its value and the bytes behind it.
pub fn read_number(bytes: &[u8]) -> Parsed<'_, u32>
    ensures read { Took (number_read bytes.now) result }
    ensures back { Back }
    ensures only { Only }
{
    let (number, rest) = read_spelling(bytes)?;
    if bytes.len() - rest.len() > number_size(number) {
        return Err(Cause::LongSpelling);
    }
    Ok((number, rest))
}

/// How many bytes a number takes.
#[tactic(auto, using(crate::proofs::Sizing::one_byte, crate::proofs::Sizing::two_bytes, crate::proofs::Sizing::three_bytes, crate::proofs::Sizing::four_bytes, crate::proofs::Sizing::five_bytes))]
pub fn number_size(n: u32) -> usize
    ensures whole { result ≡ length (number_form n) }
    ensures small { result ≤ 5 }
{
    // Most numbers of a book take one byte; of the others a sum of tests, in which nothing branches, since their sizes differ.
    match n {
        0..0x80 => 1,
        _ => {
            2 + usize::from(n >= 0x4000)
                + usize::from(n >= 0x20_0000)
                + usize::from(n >= 0x1000_0000)
        }
    }
}

// Buffer and place stay two parameters of each writer: a struct around them would hold the loan of the buffer between a caller's writes.
/// Writes a number at `at`, where it fits.
fn write_groups(out: &mut [u8], at: usize, n: u32)
    requires { at + length (number_form n) ≤ length out.old }
    ensures { out.new ≡ take at out.old ++ (number_form n ++ drop (at + length (number_form n)) out.old) }
{
    let mut left = n;
    let mut end = at;
    // By index: a loop over the places themselves would leave nothing known of what it wrote.
    while left >= BASE {
        out[end] = (left % BASE) as u8 + MORE;
        left /= BASE;
        end += 1;
    }
    out[end] = left as u8;
}

/// Writes a number at `at` and answers the place behind it; where it does not fit, nothing is written.
pub fn write_number(out: &mut [u8], at: usize, n: u32) -> Option<usize>
    ensures { Put at (number_form n) out.old out.new result }
{
    let size = number_size(n);
    if out.len() < size || out.len() - size < at {
        return None;
    }
    write_groups(out, at, n);
    Some(at + size)
}
