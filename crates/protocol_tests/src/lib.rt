//! What the crates `asking`, `protocol` and `look` do on examples.
#![tactic(auto)]

use asking::question::Question;
use asking::selector::Selector;
use look::Look;
use numbering::Command;
use protocol::answer::Answer;
use protocol::record::Record;
use wire::crc::crc8;

const SOURCE: u16 = 0x1234;

// The slot of the record that these data are read as, if they are written out again as they were.
fn filed(command: u8, selector: u8, bytes: &[u8]) -> Option<u8> {
    let selector = Selector::named(command, selector)?;
    let record = Record::read(selector, SOURCE, bytes)?;
    let mut out = [0xEE; 31];
    let n = record.write(SOURCE, &mut out)?;
    (&out[..n] == bytes).then_some(record.selector().slot())
}

// The command of the question that these data are read as, if they are written out again as they were.
fn asked(command: u8, bytes: &[u8]) -> Option<u8> {
    let question = Question::read(command, bytes)?;
    let mut out = [0xEE; 4];
    let n = question.write(&mut out)?;
    (&out[..n] == bytes).then_some(u8::from(question.command()))
}

// The data of a string's answer: the field, three characters and zeros, and `last` at the end.
fn text_data(field: u8, character: u8, last: u8) -> [u8; 31] {
    let mut bytes = [0; 31];
    bytes[0] = field;
    bytes[1] = b'A';
    bytes[2] = b' ';
    bytes[3] = character;
    bytes[30] = last;
    bytes
}

// The data of a counter's answer, with a config byte.
fn counter_data(energy: u8, config: u8) -> [u8; 30] {
    let mut bytes = [0x5A; 30];
    bytes[0] = energy;
    bytes[1] = config;
    bytes
}

// How many characters the text of a string's answer shows.
fn shown(bytes: &[u8]) -> Option<usize> {
    match Answer::read(Command::Strings, SOURCE, bytes)? {
        Answer::Text { text, .. } => Some(text.len()),
        _ => None,
    }
}

#[derive(Clone, Copy, Debug, PartialEq, Eq)]
enum Kind {
    Question,
    Answer,
    Complaint,
}

// What a body without data is read as, or the refusal's number.
fn looked(direction: u8, command: u8, last: u8) -> Result<Kind, u8> {
    let mut body = [direction, 0, 2, 0, 1, 0, command, 0, 0, 0, last, 0];
    body[11] = crc8(&body[..11]);
    match Look::read(&body) {
        Ok(Look::Question { .. }) => Ok(Kind::Question),
        Ok(Look::Answer { .. }) => Ok(Kind::Answer),
        Ok(Look::Complaint { .. }) => Ok(Kind::Complaint),
        Err(refusal) => Err(u8::from(refusal)),
    }
}

#[cfg(test)]
mod tests {
    use super::*;

    #[test]
    fn questions(rt: HostRuntime) {
        assert_eq!(rt; asked(0x01, &[]), Some(0x01));
        assert_eq!(rt; asked(0x05, &[9]), Some(0x05));
        assert_eq!(rt; asked(0x07, &[0x13]), Some(0x07));
        assert_eq!(rt; asked(0x37, &[0x10]), Some(0x37));
        assert_eq!(rt; asked(0x3A, &[8, 1]), Some(0x3A));
    }

    #[test]
    fn refused_questions(rt: HostRuntime) {
        assert_eq!(rt; asked(0x01, &[0]), None);
        assert_eq!(rt; asked(0x05, &[10]), None);
        assert_eq!(rt; asked(0x05, &[]), None);
        assert_eq!(rt; asked(0x07, &[0]), None);
        assert_eq!(rt; asked(0x37, &[5]), None);
        assert_eq!(rt; asked(0x3A, &[9, 0]), None);
        assert_eq!(rt; asked(0x3A, &[0, 2]), None);
        assert_eq!(rt; asked(0x02, &[]), None);
    }

    #[test]
    fn records(rt: HostRuntime) {
        assert_eq!(rt; filed(0x01, 0, &[3, 7, 0x34, 0x12]), Some(1));
        assert_eq!(rt; filed(0x05, 0, &counter_data(0, 0x20)), Some(2));
        assert_eq!(rt; filed(0x05, 9, &counter_data(9, 0x30)), Some(11));
        assert_eq!(rt; filed(0x07, 7, &text_data(7, 0x7E, 0)), Some(18));
        assert_eq!(rt; filed(0x07, 0x10, &text_data(0x10, 0x20, 0)), Some(19));
        assert_eq!(rt; filed(0x37, 4, &[4, 0xFF, 0xFF]), Some(27));
        assert_eq!(rt; filed(0x37, 0x10, &[0x10, 0x0F, 0]), Some(28));
    }

    #[test]
    fn wrong_selectors(rt: HostRuntime) {
        assert_eq!(rt; filed(0x01, 0, &[3, 7, 0x35, 0x12]), None);
        assert_eq!(rt; filed(0x05, 0, &counter_data(1, 0x20)), None);
        assert_eq!(rt; filed(0x07, 1, &text_data(2, b'B', 0)), None);
        assert_eq!(rt; filed(0x37, 4, &[3, 0, 0]), None);
        assert_eq!(rt; filed(0x3A, 0, &[]), None);
    }

    #[test]
    fn lawless_data(rt: HostRuntime) {
        assert_eq!(rt;
            filed(0x07, 1, &text_data(1, b'B', b'C')),
            None,
            "a byte after a zero"
        );
        assert_eq!(rt; filed(0x07, 1, &text_data(1, 0x7F, 0)), None);
        assert_eq!(rt; filed(0x07, 1, &text_data(1, 0x1F, 0)), None);
        assert_eq!(rt; filed(0x37, 0x10, &[0x10, 0xF0, 0]), None);
        assert_eq!(rt; filed(0x37, 0x10, &[0x10, 0x0F, 1]), None);
        assert_eq!(rt; filed(0x37, 0, &[0, 1]), None);
    }

    #[test]
    fn answers(rt: HostRuntime) {
        assert_eq!(rt; shown(&text_data(1, b'B', 0)), Some(3));
        assert_eq!(rt; shown(&text_data(0x13, 0, 0)), Some(2));
        assert_eq!(rt; shown(&text_data(0x14, b'B', 0)), None);
        assert!(rt; Answer::read(Command::Relay, SOURCE, &[]).is_some());
        assert!(rt; Answer::read(Command::Relay, SOURCE, &[0]).is_none());
    }

    #[test]
    fn bodies(rt: HostRuntime) {
        assert_eq!(rt; looked(0x20, 0x01, 9), Ok(Kind::Question));
        assert_eq!(rt; looked(0x00, 0x3A, 0), Ok(Kind::Answer));
        assert_eq!(rt; looked(0x00, 0x05, 1), Ok(Kind::Complaint));
        assert_eq!(rt; looked(0x00, 0x05, 0), Err(39));
        assert_eq!(rt; looked(0x20, 0x02, 0), Err(39));
        assert_eq!(rt; looked(0x00, 0x02, 1), Err(39));
        assert_eq!(rt; looked(0x21, 0x01, 0), Err(34));
        assert_eq!(rt; looked(0x60, 0x01, 0), Err(36));
    }
}
