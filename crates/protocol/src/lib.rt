//! The answers and records of third-generation MIRTEK electricity meters, as the data bytes of a frame.
//! A number of several bytes has its lowest byte first.
#![tactic(auto)]

pub mod answer;
pub mod counters;
pub mod record;
pub mod text;
