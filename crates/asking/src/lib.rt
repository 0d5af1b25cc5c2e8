//! What a request asks a third-generation MIRTEK electricity meter: selectors with their slots, and questions as the data bytes of a frame.
#![tactic(auto)]

pub mod buffer;
pub mod question;
pub mod selector;
