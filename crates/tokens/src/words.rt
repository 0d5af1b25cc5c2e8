//! A line cut into its words, which borrow it.

ghost use Rattle.std.specs.Prelude.{◌≡◌, true, [], map, IfOk};
ghost use Rattle.tokens.specs.Words.{blank, Ended, words as words_of};

use std::alloc::{AllocError, Global};

fn is_blank(byte: u8) -> bool
    ensures { result ≡ blank byte }
{
    matches!(byte, b' ' | b'\t')
}

// A loop by hand, not `split` with `filter`: that takes nearly twice as long where many blanks stand side by side.
/// Fills an empty list with the words that a blank ends, and answers where the last word begins.
fn push_ended<'a>(words: &mut Vec<&'a [u8]>, line: &'a [u8]) -> Result<usize, AllocError>
    requires { words.old.items ≡ [] }
    ensures { IfOk result (λ start. Ended words.new.items start line.now) }
{
    let mut start = 0;
    for i in 0..line.len() {
        if !is_blank(line[i]) {
            continue;
        }
        if start < i {
            words.push(&line[start..i])?;
        }
        start = i + 1;
    }
    Ok(start)
}

/// The words of the line, in order.
pub fn split_words(heap: Global, line: &[u8]) -> Result<Vec<&[u8]>, AllocError>
    ensures { IfOk result (λ v. map (λ w. w.now) v.items ≡ words_of line.now) }
{
    let mut words = Vec::new(heap);
    let start = push_ended(&mut words, line)?;
    if start < line.len() {
        words.push(&line[start..])?;
    }
    Ok(words)
}
