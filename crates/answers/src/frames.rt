//! Frames, packed and unpacked for a script.

ghost use Rattle.std.specs.Prelude.{◌≡◌, ◌++◌, length, string_bytes, OnOk};
ghost use Rattle.answers.specs.Frames.{made_text};
ghost use Rattle.wire.specs.Fields.{content};
ghost use Rattle.wire.specs.Framing.{packed, unpacked};

use std::alloc::AllocError;
use text::{write_bytes, write_refusal};
use wire::body::Fields;
use wire::frame::{pack, unpack};

/// Appends what pack makes of `fields` in the buffer.
pub(crate) fn write_packed(
    out: &mut String,
    fields: &Fields<'_>,
    buffer: &mut [u8],
) -> Result<(), AllocError>
    ensures { OnOk result (string_bytes out.new ≡ string_bytes out.old ++ made_text (packed (length buffer.old) (content fields.now))) }
{
    match pack(fields, buffer) {
        Ok(end) => write_bytes(out, &buffer[..end]),
        Err(refusal) => write_refusal(out, u8::from(refusal)),
    }
}

/// Appends what unpack makes of `input` in the buffer.
// Not one generic with the one above: its contract would have to say the number of any error, and be longer than both.
pub(crate) fn write_unpacked(
    out: &mut String,
    input: &[u8],
    buffer: &mut [u8],
) -> Result<(), AllocError>
    ensures { OnOk result (string_bytes out.new ≡ string_bytes out.old ++ made_text (unpacked (length buffer.old) input.now)) }
{
    match unpack(input, buffer) {
        Ok(end) => write_bytes(out, &buffer[..end]),
        Err(refusal) => write_refusal(out, u8::from(refusal)),
    }
}
