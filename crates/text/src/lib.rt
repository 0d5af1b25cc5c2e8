//! Answers as text: bytes in pairs of hexadecimal digits, numbers in decimal, and the words of every refusal.
#![tactic(auto)]

mod phrases;
mod writing;

pub use phrases::meaning;
pub use writing::{write_bytes, write_numbers, write_password, write_refusal, write_text};
