//! A frame's body: judged, and taken apart into its fields.

ghost use Rattle.std.specs.Prelude.{◌≡◌, if◌then◌else◌, nat_le};
ghost use Rattle.wire.specs.Bodies.{verdict};
ghost use Rattle.wire.specs.Fields.{is_request, judged, Reads};

use crate::crc::crc8;
use crate::fault::Fault;

/// A body without data has so many bytes; one with 31 data bytes has 43.
const SHORTEST: usize = 12;

/// Who speaks: D in the parameter byte.
#[derive(Clone, Copy, Debug, PartialEq, Eq)]
pub enum Direction {
    Request,
    Answer,
}

/// What a frame says.
#[derive(Clone, Copy, Debug, PartialEq, Eq)]
pub struct Fields<'a> {
    pub direction: Direction,
    pub destination: u16,
    pub source: u16,
    pub command: u8,
    /// The password of a request, Status 1 to 4 of an answer.
    pub four: [u8; 4],
    pub payload: &'a [u8],
}

impl Direction {
    /// Whose a parameter byte is, in which C and V0 are 0; other bytes have no direction, so this is no `From`.
    fn of(parameter: u8) -> Direction
        ensures { is_request result ≡ nat_le 32 parameter }
    {
        if parameter >= 32 {
            Direction::Request
        } else {
            Direction::Answer
        }
    }

    /// D, in its place in the parameter byte; no `From`, as the value is the bit's and no number of the direction.
    pub(crate) fn bit(self) -> u8
        ensures { result ≡ (if is_request self then 32 else 0) }
    {
        match self {
            Direction::Request => 32,
            Direction::Answer => 0,
        }
    }
}

/// Whether the body is good, or the first fault of it.
pub fn judge(body: &[u8]) -> Result<(), Fault>
    ensures { verdict body.now ≡ judged result }
{
    if body.len() < SHORTEST {
        return Err(Fault::Short);
    }
    let end = body.len() - 1;
    if body.len() != SHORTEST + usize::from(body[0] % 32) {
        return Err(Fault::Length);
    }
    if body[end] != crc8(&body[..end]) {
        return Err(Fault::Crc);
    }
    if body[0] >= 64 || body[1] != 0 {
        return Err(Fault::Reserved);
    }
    Ok(())
}

impl<'a> Fields<'a> {
    /// The fields of a good body, or the first fault of the body.
    pub fn read(body: &'a [u8]) -> Result<Fields<'a>, Fault>
        ensures { Reads body.now result }
    {
        judge(body)?;
        let [
            parameter,
            _,
            d0,
            d1,
            s0,
            s1,
            command,
            f0,
            f1,
            f2,
            f3,
            rest @ ..,
        ] = body
        else {
            return Err(Fault::Short);
        };
        let [payload @ .., _] = rest else {
            return Err(Fault::Short);
        };
        Ok(Fields {
            direction: Direction::of(*parameter),
            destination: u16::from_le_bytes([*d0, *d1]),
            source: u16::from_le_bytes([*s0, *s1]),
            command: *command,
            four: [*f0, *f1, *f2, *f3],
            payload,
        })
    }
}
