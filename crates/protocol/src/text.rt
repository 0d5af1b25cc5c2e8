//! Text in its 30 places: characters, and then zeros.

ghost use Rattle.std.specs.Prelude.{◌≡◌, ℕ, ◌<◌, ◌≤◌, length, MatchBool, ◌≢◌, slice_index};
ghost use Rattle.numbering.specs.Exactly.{Exactly};
ghost use Rattle.protocol.specs.Text.{character, Character, padded, Shown};

/// Whether text may hold this byte.
pub fn is_character(byte: u8) -> bool
    ensures holds { MatchBool result (Character byte) (Character byte → ⊥) }
    ensures test { result ≡ character byte }
{
    matches!(byte, 0x20..=0x7E)
}

/// How many characters stand in front of the first byte that is none.
fn count(text: &[u8]) -> usize
    ensures within { result ≤ length text.now }
    ensures before { (k : ℕ) → k < result → Character (slice_index text.now k) }
    ensures stops { result < length text.now → Character (slice_index text.now result) → ⊥ }
{
    text.iter()
        .position(|&byte| !is_character(byte))
        .unwrap_or(text.len())
}

/// Whether all bytes are zero.
fn blank(bytes: &[u8]) -> bool
    ensures { MatchBool result ((k : ℕ) → k < length bytes.now → slice_index bytes.now k ≡ 0) ((k : ℕ) × (k < length bytes.now) × (slice_index bytes.now k ≢ 0)) }
{
    bytes.iter().all(|&byte| byte == 0)
}

/// The characters of a text with its zeros, or nothing where the bytes are no such text.
pub(crate) fn shown(bytes: &[u8]) -> Option<&[u8]>
    ensures { Shown bytes.now result }
{
    if bytes.len() != 30 {
        return None;
    }
    let (front, rest) = bytes.split_at(count(bytes));
    blank(rest).then_some(front)
}

/// The characters with the zeros behind them, if there is a place for each.
pub(crate) fn filled(text: &[u8]) -> Option<[u8; 30]>
    ensures { Exactly (λ x. (length text.now ≤ 30) × (x ≡ padded text.now)) result }
{
    if text.len() > 30 {
        return None;
    }
    let mut places = [0; 30];
    places[..text.len()].copy_from_slice(text);
    Some(places)
}
