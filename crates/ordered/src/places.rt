//! Records at the front of places, in the order of their keys. The functions take a table's fields and are no methods of it, since its
//! facts do not hold while records move.

ghost use Rattle.std.specs.Prelude.{◌≡◌, ℕ, ◌+◌, ◌-◌, ◌<◌, ◌≤◌, true, length, take, Err, slice_index_or, slice_set};
ghost use Rattle.ordered.specs.Ranks.{Located, found, within};
ghost use Rattle.ordered.specs.Ranks.{Rises};
ghost use Rattle.ordered.specs.Filing.{lent, Filed, Kept};
ghost use Rattle.ordered.specs.Tables.{Sound};

use crate::table::Full;
use crate::{Key, Keyed};
use std::cmp::Ordering;

// No binary search: the project's rule is that a search goes up from the lowest key and reads nothing above the first that is not below.
/// Where the key stands, or where it would.
fn locate<R: Keyed>(records: &[R], key: &R::Id) -> Result<usize, usize>
    ensures { Located R.Keyed.place (R.Id.Key.rank key.now) records.now result }
{
    for (i, record) in records.iter().enumerate() {
        match record.key().order(key) {
            Ordering::Less => {}
            Ordering::Equal => return Ok(i),
            Ordering::Greater => return Err(i),
        }
    }
    Err(records.len())
}

// A match, of which each way out is proved by itself: `ok().map(..)` was tried, and its one goal does not close by the search.
/// The record with the key.
pub(crate) fn find<R: Keyed>(records: &[R], key: &R::Id) -> Option<R>
    ensures { Rises R.Keyed.place records.now → result ≡ found R.Keyed.place (R.Id.Key.rank key.now) records.now }
{
    match locate(records, key) {
        Ok(at) => Some(records[at]),
        Err(_) => None,
    }
}

/// Moves the records from `at` on up by one place, and writes the record there.
fn insert<R: Copy>(places: &mut [R], held: usize, at: usize, item: R)
    requires { (at ≤ held) × (held < length places.old) }
    ensures below { (k : ℕ) (d : R) → k < at → slice_index_or places.new k d ≡ slice_index_or places.old k d }
    ensures here { (d : R) → slice_index_or places.new at d ≡ item }
    ensures above { (k : ℕ) (d : R) → at < k → k ≤ held → slice_index_or places.new k d ≡ slice_index_or places.old (k - 1) d }
    ensures rest { (k : ℕ) (d : R) → held < k → slice_index_or places.new k d ≡ slice_index_or places.old k d }
{
    places.copy_within(at..held, at + 1);
    places[at] = item;
}

/// Writes a record over the one at `at`.
fn replace<R: Copy>(places: &mut [R], at: usize, item: R)
    requires { at < length places.old }
    ensures { places.new ≡ slice_set places.old at item }
{
    places[at] = item;
}

/// Puts a record among those in the first `held` places, of which `limit` may be taken; answers how many are taken then.
pub(crate) fn put<R: Keyed>(
    places: &mut [R],
    limit: usize,
    held: usize,
    item: R,
) -> Result<usize, Full>
    requires { Sound R.Keyed.place (lent places.old limit held) }
    ensures { Filed R.Keyed.place item limit held places.old result places.new }
{
    match locate(&places[..held], &item.key()) {
        Ok(at) => {
            replace(places, at, item);
            Ok(held)
        }
        Err(at) => {
            if held >= limit.min(places.len()) {
                return Err(Full);
            }
            insert(places, held, at, item);
            Ok(held + 1)
        }
    }
}

/// Whether the key is above those of all the records.
fn is_above<R: Keyed>(records: &[R], key: &R::Id) -> bool
    ensures { Rises R.Keyed.place records.now → result ≡ true → Located R.Keyed.place (R.Id.Key.rank key.now) records.now (Err (length records.now)) }
{
    let Some(last) = records.last() else {
        return true;
    };
    last.key().order(key).is_lt()
}

/// Puts a record as `put` does, at once where its key is above all others.
pub(crate) fn append<R: Keyed>(
    places: &mut [R],
    limit: usize,
    held: usize,
    item: R,
) -> Result<usize, Full>
    requires { Sound R.Keyed.place (lent places.old limit held) }
    ensures { Filed R.Keyed.place item limit held places.old result places.new }
{
    if held >= limit.min(places.len()) || !is_above(&places[..held], &item.key()) {
        return put(places, limit, held, item);
    }
    replace(places, held, item);
    Ok(held + 1)
}

/// Whether the key is from the first to the last.
fn is_within<K: Key>(key: &K, first: &K, last: &K) -> bool
    ensures { result ≡ within (K.Key.rank first.now) (K.Key.rank last.now) (K.Key.rank key.now) }
{
    key.order(first).is_ge() && key.order(last).is_le()
}

/// Removes the records from the first key to the last among those in the first `held` places; answers how many are left.
pub(crate) fn remove<R: Keyed>(places: &mut [R], held: usize, first: &R::Id, last: &R::Id) -> usize
    requires { held ≤ length places.old }
    ensures { Kept R.Keyed.place (R.Id.Key.rank first.now) (R.Id.Key.rank last.now) held places.old result places.new }
{
    let mut left = 0;
    // By index, since each turn reads one of the places and writes another.
    for i in 0..held {
        let record = places[i];
        if !is_within(&record.key(), first, last) {
            places[left] = record;
            left += 1;
        }
    }
    left
}
