//! Numbers by their places in a slice, of at most eight bytes.

ghost use Rattle.std.specs.Prelude.{nat_le, ◌≡◌, ◌≤◌, ◌<◌, ◌^◌, ◌+◌, length, take, drop, reverse};
ghost use Rattle.byte_core.specs.Number.{little_number, number_at, big_number_at, where_inside};

/// The little-endian number of the `width` bytes at `at`, None where they leave `bytes`.
#[tactic(auto, unfolding(crate::specs::Number::number_at, crate::specs::Number::bytes_at))]
pub fn le_at(bytes: &[u8], at: usize, width: usize) -> Option<u64>
    requires { width ≤ 8 }
    ensures { result ≡ where_inside bytes.now at width (number_at bytes.now at width) }
{
    if !is_inside(bytes, at, width) {
        return None;
    }
    Some(little_number_of(&bytes[at..at + width]))
}

/// The big-endian number of the `width` bytes at `at`, None where they leave `bytes`.
#[tactic(auto, unfolding(crate::specs::Number::big_number_at, crate::specs::Number::bytes_at))]
pub fn be_at(bytes: &[u8], at: usize, width: usize) -> Option<u64>
    requires { width ≤ 8 }
    ensures { result ≡ where_inside bytes.now at width (big_number_at bytes.now at width) }
{
    if !is_inside(bytes, at, width) {
        return None;
    }
    Some(big_number_of(&bytes[at..at + width]))
}

/// Writes `value` as the little-endian number of the `width` bytes at `at`. Other bytes stay.
pub fn put_le(out: &mut [u8], at: usize, width: usize, value: u64)
    requires room { at + width ≤ length out.old }
    requires fits { value < 256 ^ width }
    ensures number { number_at out.new at width ≡ value }
    ensures before { take at out.new ≡ take at out.old }
    ensures behind { drop (at + width) out.new ≡ drop (at + width) out.old }
{
    let mut rest = value;
    for i in 0..width {
        out[at + i] = (rest % 256) as u8;
        rest /= 256;
    }
}

fn is_inside(bytes: &[u8], at: usize, width: usize) -> bool
    ensures { result ≡ nat_le (at + width) (length bytes.now) }
{
    width <= bytes.len() && at <= bytes.len() - width
}

fn little_number_of(bytes: &[u8]) -> u64
    requires { length bytes.now ≤ 8 }
    ensures value { result ≡ little_number bytes.now }
    ensures bound { result < 256 ^ length bytes.now }
{
    match bytes {
        [] => 0,
        [first, rest @ ..] => u64::from(*first) + 256 * little_number_of(rest),
    }
}

fn big_number_of(bytes: &[u8]) -> u64
    requires { length bytes.now ≤ 8 }
    ensures { result ≡ little_number (reverse bytes.now) }
{
    let mut number = 0;
    for byte in bytes {
        number = 256 * number + u64::from(*byte);
    }
    number
}
