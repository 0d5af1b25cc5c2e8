//! What the console answers to a line of a script.
#![tactic(auto)]

mod frames;
mod lines;
mod looks;

pub use lines::answer_line;
