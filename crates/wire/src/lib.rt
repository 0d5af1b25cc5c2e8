//! The packet layer of the meters' line: CRC8, frames and the receiver.
#![tactic(auto)]

pub mod body;
pub mod crc;
pub mod fault;
pub mod frame;
pub mod receiver;
