//! The numbers that stand in a frame for commands, energies, text fields, parameters, relays and positions.
//!
//! Each enum has its own lists of numbers, which differ in every line.
#![tactic(auto)]

mod command;
mod energy;
mod number;
mod parameter;
mod position;
mod relay;
mod text_field;

pub use command::Command;
pub use energy::Energy;
pub use number::UnknownNumber;
pub use parameter::Parameter;
pub use position::Position;
pub use relay::Relay;
pub use text_field::TextField;
