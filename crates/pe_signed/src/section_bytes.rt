//! The bytes of sections in a file.

ghost use Rattle.std.specs.Prelude.{◌≡◌, ◌+◌, ◌-◌, ◌^◌, min, position, sum_by, length, IsTrue, ◌≤◌};
ghost use Rattle.pe_signed.specs.SignedRanges.{sections_inside, is_outside, section_bytes};

use pe_core::pe_error::{Case, Error};
use pe_core::section_table::SectionTable;

/// Refuses the first section that has bytes past the end of a file of `len` bytes.
pub fn demand_inside(sections: &[SectionTable], len: usize) -> Result<(), Error>
    ensures { result ≡ sections_inside (position (is_outside len) sections.now) }
{
    match first_outside(sections, len) {
        Some(number) => Err(Error::Malformed(Case::SectionRange(number))),
        None => Ok(()),
    }
}

fn first_outside(sections: &[SectionTable], len: usize) -> Option<usize>
    ensures { result ≡ position (is_outside len) sections.now }
{
    sections.iter().position(|section| is_outside(section, len))
}

fn is_outside(section: &SectionTable, len: usize) -> bool
    ensures { result ≡ is_outside len section.now }
{
    let end = u64::from(section.pointer_to_raw_data) + u64::from(section.size_of_raw_data);
    section.size_of_raw_data != 0 && (len as u64) < end
}

/// The raw sizes of all sections behind `start` bytes, or the last number of its type.
pub fn raw_sizes_behind(sections: &[SectionTable], start: usize) -> usize
    ensures { result ≡ min (start + sum_by (λ s. s.size_of_raw_data) sections.now) (2 ^ 64 - 1) }
{
    let mut total = start;
    for section in sections {
        total = total.saturating_add(section.size_of_raw_data as usize);
    }
    total
}

/// The bytes of a section.
#[tactic(auto, unfolding(byte_core::specs::Number::bytes_at))]
pub fn bytes_of(bytes: &[u8], section: SectionTable) -> &[u8]
    requires { section.pointer_to_raw_data + section.size_of_raw_data ≤ length bytes.now }
    ensures { result.now ≡ section_bytes bytes.now section }
{
    let start = section.pointer_to_raw_data as usize;
    &bytes[start..start + section.size_of_raw_data as usize]
}
