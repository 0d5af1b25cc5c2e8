//! A ring of 128 places for bytes.

ghost use Rattle.std.specs.Prelude.{◌≡◌, ◌+◌, ◌<◌, ◌≤◌, [], ◌∷◌, ◌++◌, length, MatchOption, slice_index};
ghost use Rattle.bearer.specs.Held.{held};

/// The places of a ring.
const PLACES: usize = 128;

/// Bytes in the order in which they came; a place that is freed is used again. The places are fixed, as the board has no heap.
// No model that shows the bytes alone: no clause could then say that a refused call leaves the ring as it was, place by place.
#[derive(Debug, Drop)]
pub struct Ring {
    places: [u8; PLACES],
    head: usize,
    count: usize,
    ghost inside: { head < 128 },
    ghost few: { count ≤ 128 },
}

impl Ring {
    /// A ring that holds nothing.
    pub(crate) fn new() -> Ring
        ensures { held result.places result.head result.count ≡ [] }
    {
        Ring {
            places: [0; PLACES],
            head: 0,
            count: 0,
        }
    }

    /// The number of free places.
    #[tactic(auto, using(crate::proofs::Rings::length_held))]
    pub(crate) fn free(&self) -> usize
        ensures { result + length (held self.now.places self.now.head self.now.count) ≡ 128 }
    {
        PLACES - self.count
    }

    /// Removes the oldest byte.
    #[tactic(auto, using(crate::proofs::Rings::length_held))]
    pub(crate) fn pop(&mut self) -> Option<u8>
        ensures few { length (held self.old.places self.old.head self.old.count) ≤ 128 }
        ensures oldest { MatchOption result ((held self.old.places self.old.head self.old.count ≡ []) × (self.new ≡ self.old)) (λ b. held self.old.places self.old.head self.old.count ≡ b ∷ held self.new.places self.new.head self.new.count) }
    {
        if self.count == 0 {
            return None;
        }
        let byte = self.places[self.head];
        self.release();
        Some(byte)
    }

    /// Frees the place of the oldest byte.
    #[tactic(auto, using(crate::proofs::Rings::held_pop))]
    fn release(&mut self)
        requires { 0 < self.old.count }
        ensures { held self.old.places self.old.head self.old.count ≡ slice_index self.old.places self.old.head ∷ held self.new.places self.new.head self.new.count }
    {
        self.head = (self.head + 1) % PLACES;
        self.count -= 1;
    }

    /// Puts a byte behind the others.
    #[tactic(auto, using(crate::proofs::Rings::length_held, crate::proofs::Rings::held_push))]
    fn push(&mut self, byte: u8)
        requires { length (held self.old.places self.old.head self.old.count) < 128 }
        ensures { held self.new.places self.new.head self.new.count ≡ held self.old.places self.old.head self.old.count ++ byte ∷ [] }
    {
        self.places[(self.head + self.count) % PLACES] = byte;
        self.count += 1;
    }

    /// Puts the bytes behind the others.
    pub(crate) fn append(&mut self, bytes: &[u8])
        requires { length (held self.old.places self.old.head self.old.count) + length bytes.now ≤ 128 }
        ensures { held self.new.places self.new.head self.new.count ≡ held self.old.places self.old.head self.old.count ++ bytes.now }
    {
        for byte in bytes {
            self.push(*byte);
        }
    }
}
