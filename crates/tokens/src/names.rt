//! Names of posts.

ghost use Rattle.std.specs.Prelude.{◌≡◌, ◌-◌, ◌≤◌, ◌++◌, length, replicate, if◌then◌else◌, Some, None};
ghost use Rattle.std.specs.Option.{option_map};
ghost use Rattle.tokens.specs.Names.{letter, all_letters, name_of, letters_of};

/// The name of a post: 1 to 16 letters a to z, with zeros behind them. It has its 16 places in itself, since it is copied about.
#[derive(Clone, Copy, Debug, PartialEq, Eq)]
pub struct Name {
    pub letters: [u8; 16],
}

fn is_letter(byte: u8) -> bool
    ensures { result ≡ letter byte }
{
    byte.is_ascii_lowercase()
}

/// The word with zeros behind it, where it is all letters.
fn padded(word: &[u8]) -> Option<[u8; 16]>
    requires { length word.now ≤ 16 }
    ensures { result ≡ (if all_letters word.now then Some (word.now ++ replicate (16 - length word.now) 0) else None) }
{
    if !word.iter().all(|byte| is_letter(*byte)) {
        return None;
    }
    let mut letters = [0; 16];
    letters[..word.len()].copy_from_slice(word);
    Some(letters)
}

/// The name that the word is.
pub fn read_name(word: &[u8]) -> Option<Name>
    ensures { option_map letters_of result ≡ name_of word.now }
{
    if word.is_empty() || word.len() > 16 {
        return None;
    }
    let letters = padded(word)?;
    Some(Name { letters })
}
