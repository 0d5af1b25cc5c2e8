//! Three kinds of records: keyed by a number, by a pair and by a triple.

ghost use Rattle.std.specs.Prelude.{◌+◌, ◌*◌};

use ordered::{Key, Keyed};
use std::cmp::Ordering;

#[derive(Clone, Copy)]
pub struct Number(pub u16);

impl Key for Number {
    ghost rank = { λ k. k.0 };

    fn order(&self, other: &Number) -> Ordering {
        self.0.cmp(&other.0)
    }
}

#[derive(Clone, Copy)]
pub struct Meter {
    pub number: Number,
    pub kind: u8,
}

impl Keyed for Meter {
    type Id = Number;

    ghost place = { λ m. m.number.0 };

    fn key(&self) -> Number {
        self.number
    }
}

#[derive(Clone, Copy)]
pub struct Spot {
    pub address: u16,
    pub slot: u8,
}

impl Key for Spot {
    ghost rank = { λ k. k.address * 256 + k.slot };

    fn order(&self, other: &Spot) -> Ordering {
        let (slot, its_slot) = (self.slot, other.slot);
        self.address.cmp(&other.address).then(slot.cmp(&its_slot))
    }
}

#[derive(Clone, Copy)]
pub struct Reading {
    pub spot: Spot,
    pub value: u32,
}

impl Keyed for Reading {
    type Id = Spot;

    ghost place = { λ r. r.spot.address * 256 + r.spot.slot };

    fn key(&self) -> Spot {
        self.spot
    }
}

#[derive(Clone, Copy)]
pub struct EventKey {
    pub address: u16,
    pub journal: u8,
    pub entry: u8,
}

impl Key for EventKey {
    ghost rank = { λ k. k.address * 65536 + k.journal * 256 + k.entry };

    fn order(&self, other: &EventKey) -> Ordering {
        let (journal, its_journal) = (self.journal, other.journal);
        let (entry, its_entry) = (self.entry, other.entry);
        self.address
            .cmp(&other.address)
            .then(journal.cmp(&its_journal))
            .then(entry.cmp(&its_entry))
    }
}

#[derive(Clone, Copy)]
pub struct Event {
    pub key: EventKey,
    pub code: u8,
}

impl Keyed for Event {
    type Id = EventKey;

    ghost place = { λ e. e.key.address * 65536 + e.key.journal * 256 + e.key.entry };

    fn key(&self) -> EventKey {
        self.key
    }
}
