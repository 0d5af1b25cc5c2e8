//! The words of a line, read into a command.

ghost use Rattle.std.specs.Prelude.{◌≡◌, false, [], ◌∷◌, map, IfOk, ◌==◌, slice_index};
ghost use Rattle.std.specs.Option.{option_map};
ghost use Rattle.script.specs.Grammar.{number, four, num, body, body_of, said_by, found, calls, commands, direction_of, ask, switch, told, silent, save, post, pack, unpack, same, direction, commanded, calling, sentence, meaning_of};
ghost use Rattle.tokens.specs.Laws.{WordsExact, NumeralsExact, DecimalBack, HexBack, PairsExact, BytesBack};
ghost use Rattle.tokens.specs.Numerals.{numeral, up_to};
ghost use Rattle.script.specs.Shown.{verb_form, keyword_form, direction_shown, question_shown, head_shown, call_shown, answered, line_shown};
ghost use Rattle.script.specs.Spells.{FormsExact, LinesExact};
ghost use Rattle.tokens.specs.Words.{words as words_of};

use crate::command::{Call, Command, Line};
use std::alloc::{AllocError, Global};
use tokens::{read_bytes, read_four, read_name, read_number, split_words};
use wire::body::Direction;

/// The keywords that follow a name.
#[derive(Clone, Copy, Debug, PartialEq, Eq)]
pub enum Verb {
    Enrol,
    Strike,
    Ask,
    Switch,
    Wire,
    Fetch,
    Hear,
    GiveUp,
    Told,
    Silent,
    Save,
    Load,
}

/// The keywords that begin a line.
#[derive(Clone, Copy, Debug, PartialEq, Eq)]
pub enum Keyword {
    Post,
    Pack,
    Unpack,
    Look,
    Same,
}

// Taken apart by both, since the two words in its middle have a name of their own in each call.
/// What `ask` and `switch` say, in the order of the words.
#[derive(Clone, Copy, Debug, PartialEq, Eq)]
pub struct Question {
    pub meter: u16,
    pub first: u8,
    pub second: u8,
    pub password: [u8; 4],
    pub scratch: u16,
}

// Taken apart in `Command::Pack`, whose data stand beside what it holds.
/// What `pack` says before the data.
#[derive(Clone, Copy, Debug, PartialEq, Eq)]
pub struct Head {
    pub direction: Direction,
    pub destination: u16,
    pub source: u16,
    pub command: u8,
    pub four: [u8; 4],
    pub buffer: u16,
}

/// The keyword of a command, if the word is one.
// No `TryFrom`: a word that is no keyword is no error, but may be a name.
fn read_keyword(word: &[u8]) -> Option<Keyword>
    ensures { option_map keyword_form result ≡ found commands word.now }
{
    match word {
        b"post" => Some(Keyword::Post),
        b"pack" => Some(Keyword::Pack),
        b"unpack" => Some(Keyword::Unpack),
        b"look" => Some(Keyword::Look),
        b"same" => Some(Keyword::Same),
        _ => None,
    }
}

/// The keyword of a call, if the word is one.
// No `TryFrom`: that the whole line is unreadable says all that an error of this word could.
fn read_verb(word: &[u8]) -> Option<Verb>
    ensures { option_map verb_form result ≡ found calls word.now }
{
    match word {
        b"enrol" => Some(Verb::Enrol),
        b"strike" => Some(Verb::Strike),
        b"ask" => Some(Verb::Ask),
        b"switch" => Some(Verb::Switch),
        b"wire" => Some(Verb::Wire),
        b"fetch" => Some(Verb::Fetch),
        b"hear" => Some(Verb::Hear),
        b"giveup" => Some(Verb::GiveUp),
        b"told" => Some(Verb::Told),
        b"silent" => Some(Verb::Silent),
        b"save" => Some(Verb::Save),
        b"load" => Some(Verb::Load),
        _ => None,
    }
}

/// `request` or `answer`.
// No `TryFrom`, as above, and the type is another crate's.
fn read_direction(word: &[u8]) -> Option<Direction>
    ensures { option_map direction_shown result ≡ direction_of word.now }
{
    match word {
        b"request" => Some(Direction::Request),
        b"answer" => Some(Direction::Answer),
        _ => None,
    }
}

/// A number up to `most`.
// Not one generic with the next: its contract would have to say which number a value of its type is, and be longer than both.
fn read_short(word: &[u8], most: u16) -> Option<u16>
    ensures { result ≡ up_to most (numeral word.now) }
{
    Some(read_number(word, u32::from(most))? as u16)
}

/// A number of one byte.
fn read_byte(word: &[u8]) -> Option<u8>
    ensures { result ≡ up_to 255 (numeral word.now) }
{
    Some(read_number(word, 255)? as u8)
}

/// A meter, and no more.
fn read_meter(args: &[&[u8]]) -> Option<u16>
    ensures { option_map (λ m. body (num m ∷ []) []) result ≡ body_of (number 65535 ∷ []) false (map (λ w. w.now) args.now) }
{
    let [meter] = args else {
        return None;
    };
    read_short(meter, 65535)
}

/// A meter, two numbers of one byte, a password and the length of the scratch.
fn read_question(args: &[&[u8]]) -> Option<Question>
    ensures { option_map question_shown result ≡ body_of (number 65535 ∷ number 255 ∷ number 255 ∷ four ∷ number 256 ∷ []) false (map (λ w. w.now) args.now) }
{
    let [meter, first, second, password, scratch] = args else {
        return None;
    };
    Some(Question {
        meter: read_short(meter, 65535)?,
        first: read_byte(first)?,
        second: read_byte(second)?,
        password: read_four(password)?,
        scratch: read_short(scratch, 256)?,
    })
}

fn read_told(args: &[&[u8]]) -> Option<Call>
    ensures { option_map call_shown result ≡ said_by told (map (λ w. w.now) args.now) }
{
    let [meter, slot, buffer] = args else {
        return None;
    };
    Some(Call::Told {
        meter: read_short(meter, 65535)?,
        slot: read_byte(slot)?,
        buffer: read_short(buffer, 256)?,
    })
}

fn read_silent(args: &[&[u8]]) -> Option<Call>
    ensures { option_map call_shown result ≡ said_by silent (map (λ w. w.now) args.now) }
{
    let [slot, list] = args else {
        return None;
    };
    Some(Call::Silent {
        slot: read_byte(slot)?,
        list: read_short(list, 1000)?,
    })
}

fn read_save(args: &[&[u8]]) -> Option<Call>
    ensures { option_map call_shown result ≡ said_by save (map (λ w. w.now) args.now) }
{
    let [buffer] = args else {
        return None;
    };
    Some(Call::Save {
        buffer: read_number(buffer, 70000)?,
    })
}

fn read_ask(args: &[&[u8]]) -> Option<Call>
    ensures { option_map call_shown result ≡ said_by ask (map (λ w. w.now) args.now) }
{
    let Question {
        meter,
        first: command,
        second: selector,
        password,
        scratch,
    } = read_question(args)?;
    Some(Call::Ask {
        meter,
        command,
        selector,
        password,
        scratch,
    })
}

fn read_switch(args: &[&[u8]]) -> Option<Call>
    ensures { option_map call_shown result ≡ said_by switch (map (λ w. w.now) args.now) }
{
    let Question {
        meter,
        first: relay,
        second: position,
        password,
        scratch,
    } = read_question(args)?;
    Some(Call::Switch {
        meter,
        relay,
        position,
        password,
        scratch,
    })
}

/// A call that takes no words.
fn alone(call: Call, args: &[&[u8]]) -> Option<Call>
    ensures { option_map call_shown result ≡ option_map (λ _. call_shown call) (body_of [] false (map (λ w. w.now) args.now)) }
{
    args.is_empty().then_some(call)
}

/// The call that the verb and its words make.
fn read_call(heap: Global, verb: Verb, args: &[&[u8]]) -> Result<Option<Call>, AllocError>
    ensures { IfOk result (λ o. option_map call_shown o ≡ said_by (verb_form verb) (map (λ w. w.now) args.now)) }
{
    match verb {
        Verb::Enrol => Ok(read_meter(args).map(|meter| Call::Enrol { meter })),
        Verb::Strike => Ok(read_meter(args).map(|meter| Call::Strike { meter })),
        Verb::Ask => Ok(read_ask(args)),
        Verb::Switch => Ok(read_switch(args)),
        Verb::Wire => Ok(read_bytes(heap, args)?.map(|bytes| Call::Wire { bytes })),
        Verb::Fetch => Ok(alone(Call::Fetch, args)),
        Verb::Hear => Ok(alone(Call::Hear, args)),
        Verb::GiveUp => Ok(alone(Call::GiveUp, args)),
        Verb::Told => Ok(read_told(args)),
        Verb::Silent => Ok(read_silent(args)),
        Verb::Save => Ok(read_save(args)),
        Verb::Load => Ok(read_bytes(heap, args)?.map(|bytes| Call::Load { bytes })),
    }
}

fn read_post(args: &[&[u8]]) -> Option<Command>
    ensures { answered result ≡ commanded (said_by post (map (λ w. w.now) args.now)) }
{
    let [name, meters, readings] = args else {
        return None;
    };
    Some(Command::Post {
        name: read_name(name)?,
        meters: read_short(meters, 1000)?,
        readings: read_short(readings, 5000)?,
    })
}

fn read_same(args: &[&[u8]]) -> Option<Command>
    ensures { answered result ≡ commanded (said_by same (map (λ w. w.now) args.now)) }
{
    let [first, second] = args else {
        return None;
    };
    Some(Command::Same {
        first: read_name(first)?,
        second: read_name(second)?,
    })
}

fn read_unpack(heap: Global, args: &[&[u8]]) -> Result<Option<Command>, AllocError>
    ensures { IfOk result (λ o. answered o ≡ commanded (said_by unpack (map (λ w. w.now) args.now))) }
{
    let [buffer, bytes @ ..] = args else {
        return Ok(None);
    };
    let Some(buffer) = read_short(buffer, 256) else {
        return Ok(None);
    };
    Ok(read_bytes(heap, bytes)?.map(|bytes| Command::Unpack { buffer, bytes }))
}

/// The words of a frame before its data.
fn read_head(args: &[&[u8]]) -> Option<Head>
    ensures { option_map head_shown result ≡ body_of (direction ∷ number 65535 ∷ number 65535 ∷ number 255 ∷ four ∷ number 256 ∷ []) false (map (λ w. w.now) args.now) }
{
    let [direction, destination, source, command, four, buffer] = args else {
        return None;
    };
    Some(Head {
        direction: read_direction(direction)?,
        destination: read_short(destination, 65535)?,
        source: read_short(source, 65535)?,
        command: read_byte(command)?,
        four: read_four(four)?,
        buffer: read_short(buffer, 256)?,
    })
}

fn read_pack(heap: Global, args: &[&[u8]]) -> Result<Option<Command>, AllocError>
    ensures { IfOk result (λ o. answered o ≡ commanded (said_by pack (map (λ w. w.now) args.now))) }
{
    let Some((head, data)) = args.split_at_checked(6) else {
        return Ok(None);
    };
    let Some(head) = read_head(head) else {
        return Ok(None);
    };
    let Head {
        direction,
        destination,
        source,
        command,
        four,
        buffer,
    } = head;
    Ok(read_bytes(heap, data)?.map(|data| Command::Pack {
        direction,
        destination,
        source,
        command,
        four,
        buffer,
        data,
    }))
}

/// The command that the keyword and its words make.
fn read_command(
    heap: Global,
    keyword: Keyword,
    args: &[&[u8]],
) -> Result<Option<Command>, AllocError>
    ensures { IfOk result (λ o. answered o ≡ commanded (said_by (keyword_form keyword) (map (λ w. w.now) args.now))) }
{
    match keyword {
        Keyword::Post => Ok(read_post(args)),
        Keyword::Pack => read_pack(heap, args),
        Keyword::Unpack => read_unpack(heap, args),
        Keyword::Look => Ok(read_bytes(heap, args)?.map(|bytes| Command::Look { bytes })),
        Keyword::Same => Ok(read_same(args)),
    }
}

/// The call of a name, where the first word is one.
fn read_to_name(heap: Global, first: &[u8], args: &[&[u8]]) -> Result<Option<Command>, AllocError>
    ensures { IfOk result (λ o. answered o ≡ calling first.now (map (λ w. w.now) args.now)) }
{
    let [verb, args @ ..] = args else {
        return Ok(None);
    };
    let Some(name) = read_name(first) else {
        return Ok(None);
    };
    let Some(verb) = read_verb(verb) else {
        return Ok(None);
    };
    Ok(read_call(heap, verb, args)?.map(|call| Command::Call { name, call }))
}

/// Whether the word begins a remark.
fn is_remark(word: &[u8]) -> bool
    ensures { result ≡ (slice_index word.now 0 == 35) }
{
    matches!(word, [b'#', ..])
}

/// The first word is the keyword of a command, or a name.
fn read_sentence(heap: Global, first: &[u8], args: &[&[u8]]) -> Result<Option<Command>, AllocError>
    ensures { IfOk result (λ o. answered o ≡ sentence (found commands first.now) first.now (map (λ w. w.now) args.now)) }
{
    match read_keyword(first) {
        Some(keyword) => read_command(heap, keyword, args),
        None => read_to_name(heap, first, args),
    }
}

/// What the words of a line say.
#[tactic(auto, using(crate::proofs::Parsing::a_sentence))]
fn read_words(heap: Global, words: &[&[u8]]) -> Result<Line, AllocError>
    ensures { IfOk result (λ l. line_shown l ≡ meaning_of (map (λ w. w.now) words.now)) }
{
    let [first, args @ ..] = words else {
        return Ok(Line::Nothing);
    };
    if is_remark(first) {
        return Ok(Line::Nothing);
    }
    Ok(read_sentence(heap, first, args)?.map_or(Line::Unreadable, Line::Command))
}

/// What a line of a script says; a line has no line end.
pub fn read_line(heap: Global, line: &[u8]) -> Result<Line, AllocError>
    ensures meaning { IfOk result (λ l. line_shown l ≡ meaning_of (words_of line.now)) }
    ensures lines { LinesExact }
    ensures forms { FormsExact }
    ensures words { WordsExact }
    ensures numerals { NumeralsExact × DecimalBack × HexBack }
    ensures bytes { PairsExact × BytesBack }
{
    let words = split_words(heap, line)?;
    read_words(heap, words.as_slice())
}
