//! Offsets in the file for addresses that are counted from the image base.

ghost use Rattle.std.specs.Prelude.{◌≡◌, find, IfSome, IsTrue};
ghost use Rattle.std.specs.Option.{option_copied};
ghost use Rattle.pe_core.specs.FindOffset.{offset_of, offset_or_refusal, extent_of, is_held, place_of};

use crate::pe_error::{Case, Error};
use crate::section_table::{ParseOptions, SectionTable};

/// The step at which the loader places raw data in a file.
const POINTER_STEP: u32 = 512;
/// The size of a page of memory.
const PAGE: u64 = 4096;

/// The offset in the file of a relative virtual address. None where no section holds it, or where the file alignment
/// is no power of two. Where addresses aren't resolved, it is itself the offset.
///
/// A section's pointer is rounded down to a multiple of 512. In an image whose section alignment is below a page a loader
/// takes the pointer as it stands.
#[tactic(auto, unfolding(crate::specs::FindOffset::offset_of))]
pub fn find_offset(
    rva: usize,
    sections: &[SectionTable],
    file_alignment: u32,
    opts: &ParseOptions,
) -> Option<usize>
    ensures { result ≡ offset_of rva sections.now file_alignment opts.now }
{
    if !opts.resolve_rva {
        return Some(rva);
    }
    if !file_alignment.is_power_of_two() {
        return None;
    }
    match find_section(sections, rva) {
        Some(section) => Some(place_in(section, rva)),
        None => None,
    }
}

/// The offset in the file of a relative virtual address, or the refusal that keeps it.
pub fn offset_or_refusal(
    rva: u64,
    sections: &[SectionTable],
    file_alignment: u32,
    opts: &ParseOptions,
) -> Result<usize, Error>
    ensures { result ≡ offset_or_refusal rva sections.now file_alignment opts.now }
{
    match find_offset(rva as usize, sections, file_alignment, opts) {
        Some(offset) => Ok(offset),
        None => Err(Error::Malformed(Case::NoOffset(rva))),
    }
}

/// The first section that holds the address.
fn find_section(sections: &[SectionTable], rva: usize) -> Option<&SectionTable>
    ensures first { option_copied result ≡ find (is_held rva) sections.now }
    ensures holds { IfSome result (λ section. IsTrue (is_held rva section.now)) }
{
    sections.iter().find(|section| holds(section, rva))
}

/// How many bytes of a section are in memory.
fn extent(section: &SectionTable) -> u64
    ensures { result ≡ extent_of section.now }
{
    let raw_size = u64::from(section.size_of_raw_data);
    let virtual_size = u64::from(section.virtual_size);
    if virtual_size == 0 {
        return raw_size;
    }
    raw_size.min(virtual_size + (PAGE - virtual_size % PAGE) % PAGE)
}

fn holds(section: &SectionTable, rva: usize) -> bool
    ensures { result ≡ is_held rva section.now }
{
    let address = u64::from(section.virtual_address);
    let rva = rva as u64;
    address <= rva && rva < address + extent(section)
}

fn place_in(section: &SectionTable, rva: usize) -> usize
    requires { IsTrue (is_held rva section.now) }
    ensures { result ≡ place_of rva section.now }
{
    let pointer = section.pointer_to_raw_data / POINTER_STEP * POINTER_STEP;
    rva - section.virtual_address as usize + pointer as usize
}
