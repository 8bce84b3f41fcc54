//! Steps of readers: numbers and bytes at places, and tests with the cause that they give.

ghost use Rattle.std.specs.Prelude.{◌≡◌, nat_le, ◌≤◌, ◌+◌, length, OnOk};
ghost use Rattle.pe_core.specs.Steps.{demand, number_or_short, within_or_short, field_at, address_width};

use crate::pe_error::{Case, Error};
pub use byte_core::{number_field, u8_field, u16_field, u32_field};

/// Refuses the file in this way where the test doesn't hold.
pub fn demand(holds: bool, case: Case) -> Result<(), Error>
    ensures { result ≡ demand holds case }
{
    if holds {
        Ok(())
    } else {
        Err(Error::Malformed(case))
    }
}

/// Refuses the file where it ends before the `size` bytes at `at` do.
pub fn demand_bytes(bytes: &[u8], at: usize, size: usize) -> Result<(), Error>
    ensures answer { result ≡ within_or_short bytes.now at size tt }
    ensures inside { OnOk result (at + size ≤ length bytes.now) }
{
    if is_inside(bytes, at, size) {
        Ok(())
    } else {
        Err(Error::BufferTooShort)
    }
}

/// Whether the `size` bytes at `at` lie in the file.
pub fn is_inside(bytes: &[u8], at: usize, size: usize) -> bool
    ensures { result ≡ nat_le (at + size) (length bytes.now) }
{
    size <= bytes.len() && at <= bytes.len() - size
}

/// How many bytes an address has.
pub fn address_width(is_64: bool) -> usize
    ensures { result ≡ address_width is_64 }
{
    if is_64 { 8 } else { 4 }
}

/// The number of 4 bytes at `at`, None where they leave the file.
pub fn u32_if(bytes: &[u8], at: usize) -> Option<u32>
    ensures { result ≡ field_at bytes.now at 4 }
{
    if !is_inside(bytes, at, 4) {
        return None;
    }
    Some(u32_field(bytes, at))
}

/// The number of 2 bytes at `at`, None where they leave the file.
pub fn u16_if(bytes: &[u8], at: usize) -> Option<u16>
    ensures { result ≡ field_at bytes.now at 2 }
{
    if !is_inside(bytes, at, 2) {
        return None;
    }
    Some(u16_field(bytes, at))
}

/// The little-endian number of the `width` bytes at `at`.
pub fn number_or_short(bytes: &[u8], at: usize, width: usize) -> Result<u64, Error>
    requires { width ≤ 8 }
    ensures number { result ≡ number_or_short bytes.now at width }
    ensures inside { OnOk result (at + width ≤ length bytes.now) }
{
    demand_bytes(bytes, at, width)?;
    Ok(number_field(bytes, at, width))
}

/// The number of the 4 bytes at `at`.
pub fn u32_at(bytes: &[u8], at: usize) -> Result<u32, Error>
    ensures number { result ≡ number_or_short bytes.now at 4 }
    ensures inside { OnOk result (at + 4 ≤ length bytes.now) }
{
    demand_bytes(bytes, at, 4)?;
    Ok(u32_field(bytes, at))
}

/// The number of the 2 bytes at `at`.
pub fn u16_at(bytes: &[u8], at: usize) -> Result<u16, Error>
    ensures number { result ≡ number_or_short bytes.now at 2 }
    ensures inside { OnOk result (at + 2 ≤ length bytes.now) }
{
    demand_bytes(bytes, at, 2)?;
    Ok(u16_field(bytes, at))
}
