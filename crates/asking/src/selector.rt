//! What a reading question asks for; each selector has one slot, where its answer is filed.

ghost use Rattle.std.specs.Prelude.{◌≡◌, ◌+◌, ◌-◌, ◌≤◌, true, is_some, if◌then◌else◌, nat_lt};
ghost use Rattle.numbering.specs.Exactly.{Exactly, Iff};
ghost use Rattle.numbering.specs.Numbered.{command_number};
ghost use Rattle.asking.specs.Selectors.{command_of, byte_of, slot_of, rank, «SlotsApart»};

use numbering::{Command, Energy, Parameter, TextField};

/// A ping, a counter, a string or a parameter.
#[derive(Clone, Copy, Debug, PartialEq, Eq, Hash)]
pub enum Selector {
    Ping,
    Counter(Energy),
    Text(TextField),
    Parameter(Parameter),
}

/// Where a numbering leaves out the numbers from `low` to 0x0F, the place of the number `n`.
fn rank_of(low: u8, n: u8) -> u8
    requires { low ≤ 16 }
    ensures { result ≡ rank low n }
{
    if n < 0x10 { n } else { n - 0x10 + low }
}

/// The inverse of `rank_of`: the number at the place `rank`. One function for both directions would be no plainer.
fn number_at(low: u8, rank: u8) -> u8
    requires { (low ≤ 16) × (rank ≤ 16) }
    ensures { result ≡ (if nat_lt rank low then rank else rank - low + 16) }
{
    if rank < low { rank } else { rank - low + 0x10 }
}

/// Goes by the ranges of slots that counters, strings and parameters have; what `at` says besides follows from this alone.
fn find(slot: u8) -> Option<Selector>
    ensures { Exactly (λ x. slot_of x ≡ slot) result }
{
    match slot {
        0 => None,
        1 => Some(Selector::Ping),
        ..=11 => Energy::try_from(slot - 2).ok().map(Selector::Counter),
        ..=22 => TextField::try_from(number_at(8, slot - 11))
            .ok()
            .map(Selector::Text),
        ..=28 => Parameter::try_from(number_at(5, slot - 23))
            .ok()
            .map(Selector::Parameter),
        _ => None,
    }
}

impl Selector {
    /// The selector that a command's number and a selector byte name; a ping's byte is 0.
    pub fn named(command: u8, selector: u8) -> Option<Selector>
        ensures { Exactly (λ x. (command_number (command_of x) ≡ command) × (byte_of x ≡ selector)) result }
    {
        match Command::try_from(command).ok()? {
            Command::Ping if selector == 0 => Some(Selector::Ping),
            Command::Counters => Energy::try_from(selector).ok().map(Selector::Counter),
            Command::Strings => TextField::try_from(selector).ok().map(Selector::Text),
            Command::Parameters => Parameter::try_from(selector).ok().map(Selector::Parameter),
            _ => None,
        }
    }

    /// The selector whose slot this is; the slots are the numbers from 1 to 28.
    pub fn at(slot: u8) -> Option<Selector>
        ensures finds { Exactly (λ x. slot_of x ≡ slot) result }
        ensures all { Iff (is_some result ≡ true) ((1 ≤ slot) × (slot ≤ 28)) }
        ensures apart { SlotsApart }
    {
        find(slot)
    }

    /// The command whose question has this selector.
    pub fn command(self) -> Command
        ensures { result ≡ command_of self }
    {
        match self {
            Selector::Ping => Command::Ping,
            Selector::Counter(_) => Command::Counters,
            Selector::Text(_) => Command::Strings,
            Selector::Parameter(_) => Command::Parameters,
        }
    }

    /// The byte that names it in a question and its answer; 0 for a ping, which has none.
    pub fn byte(self) -> u8
        ensures { result ≡ byte_of self }
    {
        match self {
            Selector::Ping => 0,
            Selector::Counter(energy) => u8::from(energy),
            Selector::Text(field) => u8::from(field),
            Selector::Parameter(parameter) => u8::from(parameter),
        }
    }

    /// Where its answer is filed: the ping first, then counters, strings and parameters, each in the order of their numbers.
    pub fn slot(self) -> u8
        ensures { result ≡ slot_of self }
    {
        match self {
            Selector::Ping => 1,
            Selector::Counter(energy) => 2 + u8::from(energy),
            Selector::Text(field) => 11 + rank_of(8, u8::from(field)),
            Selector::Parameter(parameter) => 23 + rank_of(5, u8::from(parameter)),
        }
    }
}
