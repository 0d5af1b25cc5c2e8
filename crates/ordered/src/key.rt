//! Keys, and records that have one.

ghost use Rattle.std.specs.Prelude.{◌≡◌, ℕ, ◌<◌};
ghost use Rattle.std.specs.Ordering.{MatchOrdering};

use std::cmp::Ordering;

/// A key, which has a rank: keys are ordered by it, and keys of equal rank are equal.
pub trait Key: Copy {
    ghost rank: { Self → ℕ };

    // Not `Ord`: a law of a trait speaks of numbers of any size in a key's fields, among which a pair is not ordered by its rank.
    /// How the key stands to another. That it is equal is answered of equal keys alone, and one of the three is always answered.
    fn order(&self, other: &Self) -> Ordering
        ensures { MatchOrdering result (rank self.now < rank other.now) (self.now ≡ other.now) (rank other.now < rank self.now) };
}

/// A record that has a key; its place in the order is the rank of its key.
pub trait Keyed: Copy {
    type Id: Key;

    ghost place: { Self → ℕ };

    fn key(&self) -> Self::Id
        ensures { Self.Id.Key.rank result ≡ place self.now };
}
