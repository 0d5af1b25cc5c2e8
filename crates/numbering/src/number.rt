//! A number that stands for nothing.

ghost use Rattle.std.specs.Prelude.{Some, ◌++◌, codes};
ghost use Rattle.std.specs.Fmt.{decimal};

use std::error::Error;
use std::fmt;

/// A number that stands for none of the values asked for.
#[derive(Clone, Copy, Debug, PartialEq, Eq, Hash)]
pub struct UnknownNumber(pub u8);

impl fmt::Display for UnknownNumber {
    ghost output = { λ n. Some (codes "unknown number " ++ decimal n.0) };

    fn fmt<W: fmt::Write>(&self, f: &mut fmt::Formatter<W>) -> fmt::Result {
        write!(f, "unknown number {}", self.0)
    }
}

impl Error for UnknownNumber {}
