//! The book: what a post's two files are saved as.
#![tactic(auto)]

mod filing;
mod parts;
mod passes;
mod reading;
mod refusal;
mod sink;
mod writing;

pub use reading::read_book;
pub use refusal::{ReadRefusal, WriteRefusal};
pub use writing::write_book;
