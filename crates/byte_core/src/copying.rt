//! Bytes that are copied out of some that are known.

ghost use Rattle.std.specs.Prelude.{◌≡◌, ◌-◌, min, length, take};
ghost use Rattle.byte_core.specs.Number.{bytes_at};

/// Copies bytes from `offset` on to the front of the buffer, as many as there are or as the buffer has room for, and
/// answers how many.
#[tactic(auto, unfolding(crate::specs::Number::bytes_at))]
pub(crate) fn copy_at(bytes: &[u8], buf: &mut [u8], offset: u64) -> usize
    ensures count { result ≡ min (length buf.new) (length bytes.now - offset) }
    ensures bytes { take result buf.new ≡ bytes_at bytes.now offset result }
    ensures room { length buf.new ≡ length buf.old }
{
    let start = bytes.len().min(offset as usize);
    let n = buf.len().min(bytes.len() - start);
    buf[..n].copy_from_slice(&bytes[start..start + n]);
    n
}
