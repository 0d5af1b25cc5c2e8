//! The ordered table.

ghost use Rattle.std.specs.Prelude.{◌≡◌, ℕ, None, ◌-◌, ◌≤◌, ◌↔◌, min, [], take, length, is_some, slice_get, IsTrue};
ghost use Rattle.ordered.specs.Ranks.{Rises, found, without};

use crate::Keyed;
use crate::places::{append, find, put, remove};

/// Every place that counts is taken.
#[derive(Clone, Copy, Debug, PartialEq, Eq)]
pub struct Full;

/// Records in the order of their keys, none with the key of another, at the front of places that the caller lends.
// Places and their number taken, not a `Vec`: the places are the caller's, as the board has no heap. The clauses `same` tie a loan before a call
// to the one after it, which no type can say.
#[derive(Drop)]
pub struct Table<'a, R: Keyed> {
    places: &'a mut [R],
    limit: usize,
    held: usize,
    ghost fits: { held ≤ min limit (length places.now) },
    ghost rising: { Rises R.Keyed.place (take held places.now) },
}

impl<'a, R: Keyed> Table<'a, R> {
    ghost use Rattle.ordered.specs.Tables.{state_of, records, room, holding, Puts, FindsPut, FindsRest};

    /// An empty table over the caller's places, of which the first `limit` count.
    pub fn new(places: &'a mut [R], limit: usize) -> Table<'a, R>
        ensures state { state_of result ≡ record { places = places.entry.now; limit = limit; held = 0 } }
        ensures finds { (k : ℕ) → found R.Keyed.place k (records (state_of result)) ≡ None }
        ensures same { result.places.ghost_name ≡ places.entry.ghost_name }
    {
        Table {
            places,
            limit,
            held: 0,
        }
    }

    /// The records, in the order of their keys.
    pub fn as_slice(&self) -> &[R]
        ensures { result.now ≡ records (state_of self.now) }
    {
        &self.places[..self.held]
    }

    /// How many records it holds.
    pub fn len(&self) -> usize
        ensures { result ≡ length (records (state_of self.now)) }
    {
        self.as_slice().len()
    }

    /// Whether it holds no record.
    pub fn is_empty(&self) -> bool
        ensures { IsTrue result ↔ (records (state_of self.now) ≡ []) }
    {
        self.as_slice().is_empty()
    }

    /// How many records it can hold.
    pub fn capacity(&self) -> usize
        ensures { result ≡ room (state_of self.now) }
    {
        self.limit.min(self.places.len())
    }

    /// How many more records it can hold.
    pub fn free(&self) -> usize
        ensures { result ≡ room (state_of self.now) - length (records (state_of self.now)) }
    {
        self.capacity() - self.len()
    }

    /// The record at an index, counted from the lowest key.
    pub fn get(&self, index: usize) -> Option<R>
        ensures { result ≡ slice_get (records (state_of self.now)) index }
    {
        self.as_slice().get(index).copied()
    }

    /// The record with the key.
    pub fn find(&self, key: &R::Id) -> Option<R>
        ensures { result ≡ found R.Keyed.place (R.Id.Key.rank key.now) (records (state_of self.now)) }
    {
        find(self.as_slice(), key)
    }

    /// Adds the record in its order, or replaces the one that has its key.
    pub fn put(&mut self, item: R) -> Result<(), Full>
        ensures puts { Puts R.Keyed.place item (state_of self.old) result (state_of self.new) }
        ensures finds { FindsPut R.Keyed.place item (state_of self.old) result (state_of self.new) }
        ensures same { self.new.places.ghost_name ≡ self.old.places.ghost_name }
    {
        let (limit, held) = (self.limit, self.held);
        self.held = put(self.places, limit, held, item)?;
        Ok(())
    }

    /// Does what `put` does, without a search where the key is above all others: for records that come in order.
    pub fn append(&mut self, item: R) -> Result<(), Full>
        ensures puts { Puts R.Keyed.place item (state_of self.old) result (state_of self.new) }
        ensures finds { FindsPut R.Keyed.place item (state_of self.old) result (state_of self.new) }
        ensures same { self.new.places.ghost_name ≡ self.old.places.ghost_name }
    {
        let (limit, held) = (self.limit, self.held);
        self.held = append(self.places, limit, held, item)?;
        Ok(())
    }

    /// Removes the record with the key, and answers whether there was one.
    pub fn remove(&mut self, key: &R::Id) -> bool
        ensures held { result ≡ is_some (found R.Keyed.place (R.Id.Key.rank key.now) (records (state_of self.old))) }
        ensures left { state_of self.new ≡ holding (without R.Keyed.place (R.Id.Key.rank key.now) (R.Id.Key.rank key.now) (records (state_of self.old))) (state_of self.old) }
        ensures finds { FindsRest R.Keyed.place (R.Id.Key.rank key.now) (R.Id.Key.rank key.now) (state_of self.old) (state_of self.new) }
        ensures same { self.new.places.ghost_name ≡ self.old.places.ghost_name }
    {
        let held = self.held;
        let before = self.len();
        self.held = remove(self.places, held, key, key);
        self.held < before
    }

    /// Removes every record from the first key to the last.
    pub fn remove_range(&mut self, first: &R::Id, last: &R::Id)
        ensures left { state_of self.new ≡ holding (without R.Keyed.place (R.Id.Key.rank first.now) (R.Id.Key.rank last.now) (records (state_of self.old))) (state_of self.old) }
        ensures finds { FindsRest R.Keyed.place (R.Id.Key.rank first.now) (R.Id.Key.rank last.now) (state_of self.old) (state_of self.new) }
        ensures same { self.new.places.ghost_name ≡ self.old.places.ghost_name }
    {
        let held = self.held;
        self.held = remove(self.places, held, first, last);
    }

    /// Removes every record.
    pub fn clear(&mut self)
        ensures left { state_of self.new ≡ holding [] (state_of self.old) }
        ensures finds { (k : ℕ) → found R.Keyed.place k (records (state_of self.new)) ≡ None }
        ensures same { self.new.places.ghost_name ≡ self.old.places.ghost_name }
    {
        self.held = 0;
    }
}
