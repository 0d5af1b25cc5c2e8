//! One ordered file for every kind of record that has a key.
#![tactic(auto)]

mod key;
mod places;
mod table;

pub use key::{Key, Keyed};
pub use table::{Full, Table};
