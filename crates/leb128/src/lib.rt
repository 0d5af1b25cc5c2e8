//! The numbers of a saved book: unsigned LEB128, cut at 32 bits, in the shortest spelling only.
#![tactic(auto)]

mod cause;
mod number;

pub use cause::{Cause, Parsed};
pub use number::{number_size, read_number, write_number};
