//! Worked examples of the rules, as theorems that the checker computes from the definitions.
#![tactic(auto)]

ghost use Rattle.std.specs.Prelude.{◌≡◌};
ghost use Rattle.worked.specs.Examples.{Examples};
ghost use Rattle.worked.specs.Saved.{SavedExamples};
ghost use Rattle.worked.specs.Worked.{WorkedExamples};

use book::ReadRefusal;
use leb128::{Cause, number_size};
use wire::crc::crc8;

/// How many examples of frames the first theorem lists.
pub const EXAMPLES: usize = 7;
/// How many examples of numbers and books the second theorem lists.
pub const SAVED_EXAMPLES: usize = 11;

/// Does nothing: its contract is the examples of frames.
fn examples_hold()
    ensures { Examples }
{}

/// Does nothing: its contract is the examples of numbers and books.
fn saved_examples_hold()
    ensures { SavedExamples }
{}

/// Answers how many examples of frames stand: all that the contract lists, where the code comes to the same CRCs as the definitions.
pub fn examples() -> usize
    ensures count { result ≡ 7 }
    ensures examples { Examples }
{
    examples_hold();
    if crc8(&[]) == 0x00 && crc8(&[0x01]) == 0xA9 && crc8(&[0x02]) == 0xFB {
        EXAMPLES
    } else {
        0
    }
}

/// Answers how many examples of numbers and books stand: all that the contract lists, where the code comes to the same sizes and refusals
/// as the definitions.
pub fn saved_examples() -> usize
    ensures count { result ≡ 11 }
    ensures examples { SavedExamples }
{
    saved_examples_hold();
    if number_size(127) == 1
        && number_size(128) == 2
        && u8::from(Cause::LongSpelling) == 52
        && u8::from(ReadRefusal::Broken(Cause::NoStanding)) == 53
    {
        SAVED_EXAMPLES
    } else {
        0
    }
}

/// Answers how many examples stand of either kind; its contract is the one list of all.
pub fn worked_examples() -> usize
    ensures count { result ≡ 18 }
    ensures examples { WorkedExamples }
{
    examples() + saved_examples()
}
