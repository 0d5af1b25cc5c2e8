//! Bytes as pairs of hexadecimal digits.

ghost use Rattle.std.specs.Prelude.{◌≡◌, [], map, IfOk, vec_items};
ghost use Rattle.std.specs.Option.{option_map};
ghost use Rattle.tokens.specs.Bytes.{pair as byte_of, pairs, behind, bytes_of, four_of};

use crate::numerals::digit;
use std::alloc::{AllocError, Global};

/// The byte that two hexadecimal digits write.
fn pair(high: u8, low: u8) -> Option<u8>
    ensures { result ≡ byte_of high low }
{
    let high = digit(high, 16)?;
    let low = digit(low, 16)?;
    Some((high * 16 + low) as u8)
}

/// Appends the bytes of a word, if it is made of whole pairs; of any other word, those before what is no pair.
fn push_pairs(bytes: &mut Vec<u8>, word: &[u8]) -> Result<Option<()>, AllocError>
    ensures { IfOk result (λ o. option_map (λ _. bytes.new.items) o ≡ behind bytes.old.items (pairs word.now)) }
{
    let mut rest = word;
    while let [high, low, after @ ..] = rest {
        let Some(byte) = pair(*high, *low) else {
            break;
        };
        bytes.push(byte)?;
        rest = after;
    }
    Ok(rest.is_empty().then_some(()))
}

/// Fills an empty list with the bytes of words, if each is made of whole pairs; else with those before what is no pair.
fn push_words(bytes: &mut Vec<u8>, words: &[&[u8]]) -> Result<Option<()>, AllocError>
    requires { bytes.old.items ≡ [] }
    ensures { IfOk result (λ o. option_map (λ _. bytes.new.items) o ≡ bytes_of (map (λ w. w.now) words.now)) }
{
    for word in words {
        let Some(()) = push_pairs(bytes, *word)? else {
            return Ok(None);
        };
    }
    Ok(Some(()))
}

/// The bytes of words that are each made of whole pairs.
pub fn read_bytes(heap: Global, words: &[&[u8]]) -> Result<Option<Vec<u8>>, AllocError>
    ensures { IfOk result (λ o. option_map vec_items o ≡ bytes_of (map (λ w. w.now) words.now)) }
{
    let mut bytes = Vec::new(heap);
    Ok(push_words(&mut bytes, words)?.map(|()| bytes))
}

/// Four bytes, as exactly eight digits.
pub fn read_four(word: &[u8]) -> Option<[u8; 4]>
    ensures { result ≡ four_of word.now }
{
    let [a, b, c, d, e, f, g, h] = word else {
        return None;
    };
    Some([pair(*a, *b)?, pair(*c, *d)?, pair(*e, *f)?, pair(*g, *h)?])
}
