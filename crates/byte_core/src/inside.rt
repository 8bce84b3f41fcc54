//! Little-endian numbers at places that lie in the bytes. A number is put together of halves, which a compiler joins into
//! one load.

ghost use Rattle.std.specs.Prelude.{◌≡◌, ◌≤◌, ◌+◌, ◌^◌, ◌<◌, length};
ghost use Rattle.byte_core.specs.Number.{number_at};

use crate::le_at;

/// The number of the `width` bytes at `at`.
pub fn number_field(bytes: &[u8], at: usize, width: usize) -> u64
    requires width { width ≤ 8 }
    requires inside { at + width ≤ length bytes.now }
    ensures value { result ≡ number_at bytes.now at width }
    ensures bound { result < 256 ^ width }
{
    le_at(bytes, at, width).unwrap()
}

/// The number of the 8 bytes at `at`.
#[tactic(auto, using(crate::proofs::Halves::eight_bytes))]
pub fn u64_field(bytes: &[u8], at: usize) -> u64
    requires { at + 8 ≤ length bytes.now }
    ensures { result ≡ number_at bytes.now at 8 }
{
    let low = u64::from(u32_field(bytes, at));
    let high = u64::from(u32_field(bytes, at + 4));
    low + 0x1_0000_0000 * high
}

/// The number of the 4 bytes at `at`.
#[tactic(auto, using(crate::proofs::Halves::four_bytes))]
pub fn u32_field(bytes: &[u8], at: usize) -> u32
    requires { at + 4 ≤ length bytes.now }
    ensures { result ≡ number_at bytes.now at 4 }
{
    let low = u32::from(u16_field(bytes, at));
    let high = u32::from(u16_field(bytes, at + 2));
    low + 0x1_0000 * high
}

/// The number of the 2 bytes at `at`.
#[tactic(auto, using(crate::proofs::Halves::two_bytes))]
pub fn u16_field(bytes: &[u8], at: usize) -> u16
    requires { at + 2 ≤ length bytes.now }
    ensures { result ≡ number_at bytes.now at 2 }
{
    let low = u16::from(u8_field(bytes, at));
    let high = u16::from(u8_field(bytes, at + 1));
    low + 0x100 * high
}

/// The byte at `at`.
#[tactic(auto, using(crate::proofs::Halves::one_byte))]
pub fn u8_field(bytes: &[u8], at: usize) -> u8
    requires { at + 1 ≤ length bytes.now }
    ensures { result ≡ number_at bytes.now at 1 }
{
    bytes[at]
}
