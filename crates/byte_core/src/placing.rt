//! Bytes written into a slice, each behind those before it. Every call needs room for its bytes, leaves what stands
//! before `at`, and answers where its own bytes end. What stands behind that end is open: a caller fills it next.

ghost use Rattle.std.specs.Prelude.{◌≡◌, ◌++◌, ◌+◌, ◌-◌, ◌<◌, ◌≤◌, [], ◌∷◌, replicate, take, length};
ghost use Rattle.std.specs.Int.{next_multiple_of};
ghost use Rattle.byte_core.specs.Number.{little_bytes};
ghost use Rattle.byte_core.specs.Fields.{field_bytes, widths};

use crate::Field;

/// Writes a byte.
pub fn place_byte(out: &mut [u8], at: usize, byte: u8) -> usize
    requires { at < length out.old }
    ensures bytes { take result out.new ≡ take at out.old ++ byte ∷ [] }
    ensures end { result ≡ at + 1 }
    ensures len { length out.new ≡ length out.old }
{
    out[at] = byte;
    at + 1
}

/// Writes bytes.
pub fn place_bytes(out: &mut [u8], at: usize, bytes: &[u8]) -> usize
    requires { at + length bytes.now ≤ length out.old }
    ensures bytes { take result out.new ≡ take at out.old ++ bytes.now }
    ensures end { result ≡ at + length bytes.now }
    ensures len { length out.new ≡ length out.old }
{
    let end = at + bytes.len();
    out[at..end].copy_from_slice(bytes);
    end
}

/// Writes the `width` lowest bytes of a number, the lowest byte first.
pub fn place_number(out: &mut [u8], at: usize, width: usize, value: u64) -> usize
    requires { at + width ≤ length out.old }
    ensures bytes { take result out.new ≡ take at out.old ++ little_bytes width value }
    ensures end { result ≡ at + width }
    ensures len { length out.new ≡ length out.old }
{
    let mut rest = value;
    for i in 0..width {
        out[at + i] = (rest % 256) as u8;
        rest /= 256;
    }
    at + width
}

/// Writes numbers in order, the lowest byte of each first.
pub fn place_fields(out: &mut [u8], at: usize, fields: &[Field]) -> usize
    requires { at + widths fields.now ≤ length out.old }
    ensures bytes { take result out.new ≡ take at out.old ++ field_bytes fields.now }
    ensures end { result ≡ at + widths fields.now }
    ensures len { length out.new ≡ length out.old }
{
    let mut end = at;
    for field in fields {
        end = place_number(out, end, field.width, field.value);
    }
    end
}

/// Writes zero bytes.
pub fn place_zeros(out: &mut [u8], at: usize, count: usize) -> usize
    requires { at + count ≤ length out.old }
    ensures bytes { take result out.new ≡ take at out.old ++ replicate count 0 }
    ensures end { result ≡ at + count }
    ensures len { length out.new ≡ length out.old }
{
    let end = at + count;
    out[at..end].fill(0);
    end
}

/// Writes zero bytes up to the next multiple of `align`; none where `align` is 0.
pub fn place_padding(out: &mut [u8], at: usize, align: u64) -> usize
    requires { next_multiple_of at align ≤ length out.old }
    ensures bytes { take result out.new ≡ take at out.old ++ replicate (next_multiple_of at align - at) 0 }
    ensures end { result ≡ next_multiple_of at align }
    ensures len { length out.new ≡ length out.old }
{
    if align == 0 {
        return at;
    }
    let align = align as usize;
    let past = at % align;
    place_zeros(out, at, (align - past) % align)
}
