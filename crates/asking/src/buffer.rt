//! Bytes put at the front of a buffer.

ghost use Rattle.asking.specs.Putting.{Put};

/// Puts the bytes at the front of `out`, and answers their number, if they fit.
pub fn put(bytes: &[u8], out: &mut [u8]) -> Option<usize>
    ensures { Put bytes.now out.old out.new result }
{
    if out.len() < bytes.len() {
        return None;
    }
    out[..bytes.len()].copy_from_slice(bytes);
    Some(bytes.len())
}
