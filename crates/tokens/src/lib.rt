//! The words of a line, and what a word says: a number, a name, bytes.
#![tactic(auto)]

mod bytes;
mod names;
mod numerals;
mod words;

pub use bytes::{read_bytes, read_four};
pub use names::{Name, read_name};
pub use numerals::read_number;
pub use words::split_words;
