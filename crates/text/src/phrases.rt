//! The words for people of every refusal and outcome.

ghost use Rattle.std.specs.Prelude.{◌≡◌, true};
ghost use Rattle.text.specs.Phrases.{phrase, entries, apart as all_apart};

/// What a number of a refusal or an outcome says, and nothing of any other number; no two say the same.
// Every caller prints the words: an Option would only be turned back into the empty text.
pub fn meaning(number: u8) -> &'static str
    ensures words { result.now ≡ phrase number }
    ensures apart { all_apart entries ≡ true }
{
    match number {
        0 => "done",
        1 => "more than 31 data bytes",
        2 => "the buffer is shorter than the frame",
        3 => "the buffer is under 43 bytes",
        4 => "the input does not begin with 73 55",
        5 => "the input ends before the frame does",
        6 => "bytes follow the frame",
        7 => "the bytes exceed the free places of the cable",
        10 => "address 0 or 65535 is no meter's",
        11 => "the meter is enrolled already",
        12 => "all meter places are taken",
        13 => "the meter is not enrolled",
        20 => "the buffer is too short",
        21 => "no slot has this command and selector",
        22 => "relay above 8 or position above 1",
        23 => "the frame exceeds the room",
        30 => "no byte waits",
        31 => "a wrong byte after the escape byte",
        32 => "a body of more than 43 bytes",
        33 => "a body of fewer than 12 bytes",
        34 => "the body's length is not the one that it states",
        35 => "wrong CRC",
        36 => "a coded or reserved bit or byte is set",
        37 => "not the answer to the question",
        38 => "the meter complains",
        39 => "an unknown command or data not lawful for it",
        40 => "no reading place is left",
        41 => "the list is too short",
        50 => "the buffer is shorter than the book",
        51 => "the book ends too early",
        52 => "a number is not spelt in the shortest way",
        53 => "a value breaks a rule",
        54 => "too few places",
        55 => "bytes follow the book",
        _ => "",
    }
}
