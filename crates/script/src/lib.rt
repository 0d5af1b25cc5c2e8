//! Reads the lines of a script into commands.
#![tactic(auto)]

mod command;
mod reading;

pub use command::{Call, Command, Line};
pub use reading::read_line;
pub use wire::body::Direction;
