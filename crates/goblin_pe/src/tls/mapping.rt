//! The ranges and numbers of a file that addresses of its image in memory name.

ghost use Rattle.std.specs.Prelude.{◌≡◌};
ghost use Rattle.std.specs.Option.{option_copied};
ghost use Rattle.pe_core.specs.Steps.{Gives};
ghost use Rattle.goblin_pe.specs.Tls.{raw_data_of, slot_of, range_at};
ghost use Rattle.goblin_pe.specs.AddressMap.{map_view};

use pe_core::pe_error::{Case, Error};
use pe_core::rva::find_offset;
use pe_core::section_table::{ParseOptions, SectionTable};
use pe_core::steps::{demand, is_inside, u32_if};

/// How addresses of an image in memory lead to offsets of its file.
#[derive(Clone, Copy)]
pub struct AddressMap<'a> {
    pub image_base: u64,
    pub sections: &'a [SectionTable],
    pub file_alignment: u32,
    pub opts: &'a ParseOptions,
}

impl AddressMap<'_> {
    ghost use Rattle.std.specs.Prelude.{◌≡◌};
    ghost use Rattle.goblin_pe.specs.Tls.{rva_of, mapped, callback_of};
    ghost use Rattle.goblin_pe.specs.AddressMap.{map_view};

    /// The relative virtual address of an address. BelowBase where it is below the image base.
    pub fn rva_of(&self, address: u64) -> Result<u64, Error>
        ensures { result ≡ rva_of self.now.image_base address }
    {
        demand(self.image_base <= address, Case::BelowBase(address))?;
        Ok(address - self.image_base)
    }

    /// The offset of a relative virtual address.
    pub fn offset(&self, rva: u64) -> Option<usize>
        ensures { result ≡ mapped (map_view self.now) rva }
    {
        find_offset(rva as usize, self.sections, self.file_alignment, self.opts)
    }

    /// A callback that isn't below the image base and has an offset. Its refusal keeps it.
    #[tactic(auto, unfolding(crate::specs::Tls::callback_of))]
    pub fn callback(&self, callback: u64) -> Result<u64, Error>
        ensures { result ≡ callback_of (map_view self.now) callback }
    {
        let rva = self.rva_of(callback)?;
        match self.offset(rva) {
            Some(_) => Ok(callback),
            None => Err(Error::Malformed(Case::NoOffset(callback))),
        }
    }
}

/// The raw data from the start address up to the end address, where both are given and it lies in the file.
#[tactic(auto, unfolding(crate::specs::Tls::raw_data_of))]
pub fn raw_data<'a>(
    bytes: &'a [u8],
    map: &AddressMap,
    start: u64,
    end: u64,
) -> Result<Option<&'a [u8]>, Error>
    ensures { Gives option_copied result (raw_data_of bytes.now (map_view map.now) start end) }
{
    if start == 0 || end == 0 {
        return Ok(None);
    }
    demand(start <= end, Case::TlsOrder)?;
    let rva = map.rva_of(start)?;
    match map.offset(rva) {
        Some(place) => Ok(range_at(bytes, place, (end - start) as usize)),
        None => Ok(None),
    }
}

/// The `size` bytes at a place before the end, None where they pass it.
#[tactic(auto, unfolding(byte_core::specs::Number::bytes_at))]
fn range_at(bytes: &[u8], place: usize, size: usize) -> Option<&[u8]>
    ensures { option_copied result ≡ range_at bytes.now size place }
{
    if place >= bytes.len() || !is_inside(bytes, place, size) {
        return None;
    }
    Some(&bytes[place..place + size])
}

/// The number of 4 bytes at the index address, where one is given and it can be read.
#[tactic(auto, unfolding(crate::specs::Tls::slot_of))]
pub fn slot(bytes: &[u8], map: &AddressMap, address: u64) -> Result<Option<u32>, Error>
    ensures { result ≡ slot_of bytes.now (map_view map.now) address }
{
    if address == 0 {
        return Ok(None);
    }
    let rva = map.rva_of(address)?;
    match map.offset(rva) {
        Some(place) => Ok(u32_if(bytes, place)),
        None => Ok(None),
    }
}
