//! Frames: packed from their fields, and unpacked to their bodies.

ghost use Rattle.std.specs.Prelude.{◌≡◌, ◌+◌, ◌≤◌, [], ◌∷◌, ◌++◌, length, take, drop, MatchOption, OnOk};
ghost use Rattle.wire.specs.Bodies.{uncrced, body_of};
ghost use Rattle.wire.specs.Fields.{content};
ghost use Rattle.wire.specs.Framing.{stuffed, stuffed_byte, framed, packed, unpacked, Writes};
ghost use Rattle.wire.specs.Receivers.{Accepts};
ghost use Rattle.wire.specs.Trips.{PacksAgain, UnpacksBack};
ghost use Rattle.wire.specs.Refusals.{pack_number, unpack_number};
ghost use Rattle.wire.specs.declared.frame.UnpackRefusal.TheVariants.{Faulty};

use crate::body::Fields;
use crate::crc::crc8;
use crate::fault::Fault;
use crate::receiver::{FLAG, FLAG_ESCAPED, LONGEST, MARK, MARK_ESCAPED, Receiver};
use arrayvec::ArrayVec;

/// The most data bytes of a frame: what five bits can state.
const MOST_DATA: usize = 31;

/// Why no frame is written; the discriminant is the refusal's number.
#[derive(Clone, Copy, Debug, PartialEq, Eq)]
pub enum PackRefusal {
    /// More than 31 data bytes.
    TooMuchData = 1,
    /// The buffer is shorter than the frame.
    ShortOfFrame = 2,
}

/// Why no body is written.
#[derive(Clone, Copy, Debug, PartialEq, Eq)]
pub enum UnpackRefusal {
    /// The buffer is shorter than the longest body.
    ShortOfBody,
    /// The input does not begin as a frame does.
    NoStart,
    /// The input ends before the frame does.
    Unfinished,
    /// Bytes follow the frame.
    Trailing,
    /// The receiver gives the body up.
    Faulty(Fault),
}

impl From<Fault> for UnpackRefusal {
    ghost from_gives = { λ fault refusal. refusal ≡ Faulty fault };

    fn from(fault: Fault) -> UnpackRefusal {
        UnpackRefusal::Faulty(fault)
    }
}

impl From<PackRefusal> for u8 {
    ghost from_gives = { λ refusal n. n ≡ pack_number refusal };

    fn from(refusal: PackRefusal) -> u8 {
        refusal as u8
    }
}

/// A refusal's number; a fault has its own.
impl From<UnpackRefusal> for u8 {
    ghost from_gives = { λ refusal n. n ≡ unpack_number refusal };

    fn from(refusal: UnpackRefusal) -> u8 {
        match refusal {
            UnpackRefusal::ShortOfBody => 3,
            UnpackRefusal::NoStart => 4,
            UnpackRefusal::Unfinished => 5,
            UnpackRefusal::Trailing => 6,
            UnpackRefusal::Faulty(fault) => u8::from(fault),
        }
    }
}

/// What stands behind the mark in the place of a byte that may not stand in a frame's body as it is.
fn escape(byte: u8) -> Option<u8>
    ensures { MatchOption result (stuffed_byte byte ≡ byte ∷ []) (λ e. stuffed_byte byte ≡ 0x73 ∷ e ∷ []) }
{
    match byte {
        FLAG => Some(FLAG_ESCAPED),
        MARK => Some(MARK_ESCAPED),
        _ => None,
    }
}

/// How many bytes stuffing makes of `bytes`.
#[tactic(auto, using(crate::proofs::Stuffing::stuffed_more, crate::proofs::Stuffing::stuffed_end))]
fn stuffed_length(bytes: &[u8]) -> usize
    requires { length bytes.now ≤ 43 }
    ensures length { result ≡ length (stuffed bytes.now) }
    ensures bound { result ≤ 86 }
{
    let mut length = 0;
    for byte in bytes {
        length += match escape(*byte) {
            Some(_) => 2,
            None => 1,
        };
    }
    length
}

/// Writes one byte, stuffed, and answers the place behind it.
fn put(out: &mut [u8], at: usize, byte: u8) -> usize
    requires { at + length (stuffed_byte byte) ≤ length out.old }
    ensures place { result ≡ at + length (stuffed_byte byte) }
    ensures front { take result out.new ≡ take at out.old ++ stuffed_byte byte }
{
    if let Some(escaped) = escape(byte) {
        out[at] = MARK;
        out[at + 1] = escaped;
        at + 2
    } else {
        out[at] = byte;
        at + 1
    }
}

/// Stuffs `bytes` into `out`, which has just the places for that.
fn stuff(bytes: &[u8], out: &mut [u8])
    requires { length out.old ≡ length (stuffed bytes.now) }
    ensures { out.new ≡ stuffed bytes.now }
{
    // An index by hand, as a byte takes one place or two.
    let mut at = 0;
    for byte in bytes {
        at = put(out, at, *byte);
    }
}

/// The eleven bytes of a body before its data.
fn header(fields: &Fields) -> [u8; 11]
    requires { length fields.now.payload.now ≤ 31 }
    ensures { result ++ fields.now.payload.now ≡ uncrced (content fields.now) }
{
    let parameter = fields.direction.bit() + fields.payload.len() as u8;
    let [d0, d1] = fields.destination.to_le_bytes();
    let [s0, s1] = fields.source.to_le_bytes();
    let [f0, f1, f2, f3] = fields.four;
    [parameter, 0, d0, d1, s0, s1, fields.command, f0, f1, f2, f3]
}

/// The body of `fields`.
#[tactic(auto, using(crate::proofs::Tripping::unpacks_back), unfolding(crate::specs::Bodies::body_of))]
fn pack_body(fields: &Fields) -> ArrayVec<u8, LONGEST>
    requires { length fields.now.payload.now ≤ 31 }
    ensures body { result.items ≡ body_of (content fields.now) }
    ensures back { UnpacksBack (content fields.now) }
{
    let mut body = ArrayVec::new();
    body.try_extend_from_slice(&header(fields)).unwrap();
    body.try_extend_from_slice(fields.payload).unwrap();
    body.push(crc8(body.as_slice()));
    body
}

/// The length of the frame around `body`.
#[tactic(auto, using(crate::proofs::Writing::length_framed))]
fn frame_length(body: &[u8]) -> usize
    requires { length body.now ≤ 43 }
    ensures length { result ≡ length (framed body.now) }
    ensures sum { result ≡ length (stuffed body.now) + 3 }
{
    stuffed_length(body) + 3
}

/// Writes the frame around `body`, which has `size` bytes, at the buffer's front.
#[tactic(auto, using(crate::proofs::Writing::framed_front, crate::proofs::Writing::framed_rest), unfolding(crate::specs::Framing::framed))]
fn write_frame(body: &[u8], size: usize, buffer: &mut [u8])
    requires size { size ≡ length (stuffed body.now) + 3 }
    requires room { size ≤ length buffer.old }
    ensures front { take size buffer.new ≡ framed body.now }
    ensures rest { drop size buffer.new ≡ drop size buffer.old }
{
    let end = size - 1;
    buffer[0] = MARK;
    buffer[1] = FLAG;
    stuff(body, &mut buffer[2..end]);
    buffer[end] = FLAG;
}

/// Writes the frame of `fields` at the buffer's front and answers its length.
pub fn pack(fields: &Fields, buffer: &mut [u8]) -> Result<usize, PackRefusal>
    ensures back { OnOk result (UnpacksBack (content fields.now)) }
    ensures written { Writes pack_number (packed (length buffer.old) (content fields.now)) result buffer.old buffer.new }
{
    if fields.payload.len() > MOST_DATA {
        return Err(PackRefusal::TooMuchData);
    }
    let body = pack_body(fields);
    let size = frame_length(body.as_slice());
    if buffer.len() < size {
        return Err(PackRefusal::ShortOfFrame);
    }
    write_frame(body.as_slice(), size, buffer);
    Ok(size)
}

/// Copies `body` to the buffer's front and answers its length.
fn deliver(body: &[u8], buffer: &mut [u8]) -> usize
    requires { length body.now ≤ length buffer.old }
    ensures length { result ≡ length body.now }
    ensures front { take result buffer.new ≡ body.now }
    ensures rest { drop result buffer.new ≡ drop result buffer.old }
{
    let end = body.len();
    buffer[..end].copy_from_slice(body);
    end
}

/// A receiver that holds the body of the one whole frame that is `input`.
fn accept(input: &[u8]) -> Result<Receiver, UnpackRefusal>
    ensures { Accepts input.now result }
{
    let [MARK, FLAG, rest @ ..] = input else {
        return Err(UnpackRefusal::NoStart);
    };
    let mut receiver = Receiver::inside();
    let (taken, event) = receiver.run(rest);
    let Some(ended) = event else {
        return Err(UnpackRefusal::Unfinished);
    };
    ended?;
    if taken < rest.len() {
        return Err(UnpackRefusal::Trailing);
    }
    Ok(receiver)
}

/// Puts the body of the one whole frame that is `input` at the buffer's front and answers its length.
pub fn unpack(input: &[u8], buffer: &mut [u8]) -> Result<usize, UnpackRefusal>
    ensures written { Writes unpack_number (unpacked (length buffer.old) input.now) result buffer.old buffer.new }
    ensures again { OnOk result (PacksAgain input.now) }
{
    if buffer.len() < LONGEST {
        return Err(UnpackRefusal::ShortOfBody);
    }
    let receiver = accept(input)?;
    Ok(deliver(receiver.body(), buffer))
}
