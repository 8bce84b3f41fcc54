//! The bytes of a file that its signature covers: "Windows Authenticode Portable Executable Signature Format",
//! "Calculating the PE Image Hash".

ghost use Rattle.std.specs.Prelude.{◌≡◌, ◌≤◌, ◌<◌, ◌+◌, ◌-◌, ◌^◌, ◌||◌, nat_le, nat_lt, min, List, [], ◌∷◌, length, filter, position, ℕ, None, IsTrue, if◌then◌else◌};
ghost use Rattle.std.specs.Iterator.{YieldsFirstRef, item_count};
ghost use Rattle.std.specs.Option.{option_copied, option_to_list};
ghost use Rattle.pe_core.specs.Steps.{bytes_between};
ghost use Rattle.pe_signed.specs.SignedRanges.{signed_ranges, checked_ranges, ranges_of, are_in_order, are_certificates_inside, bytes_hashed, by_pointer, fill_ranges, is_filled, is_outside, AreInside};

use crate::section_bytes::{bytes_of, demand_inside, raw_sizes_behind};
use crate::sections_by_pointer::{SectionsByPointer, sections_by_pointer};
use pe_core::pe_error::{Case, Error};
use pe_core::section_table::SectionTable;
use pe_core::steps::demand;
use std::marker::Model;
use std::ops::Range;

/// The signed length is a multiple of this.
const FILL_STEP: usize = 8;

static ZEROS: [u8; 7] = [0; 7];

/// The places that a signature leaves out, as offsets and sizes in bytes.
#[derive(Debug, Drop, PartialEq)]
pub struct ExcludedSections {
    /// The field `CheckSum` of the optional header.
    pub checksum: Range<usize>,
    /// The entry of the certificate table in the data directory.
    pub datadir_entry_certtable: Range<usize>,
    pub certificate_table_size: usize,
    /// Where the headers end, the section table among them.
    pub end_image_header: usize,
}

/// A PE file with its section table, and the places that its signature leaves out where they are known.
#[derive(Debug, Drop)]
pub struct PE<'a> {
    pub bytes: &'a [u8],
    pub sections: &'a [SectionTable],
    pub excluded: Option<ExcludedSections>,
}

impl<'a> PE<'a> {
    /// A file of these bytes and sections.
    pub fn new(
        bytes: &'a [u8],
        sections: &'a [SectionTable],
        excluded: Option<ExcludedSections>,
    ) -> PE<'a>
        ensures bytes { result.bytes.now ≡ bytes.now }
        ensures sections { result.sections.now ≡ sections.now }
        ensures excluded { result.excluded ≡ excluded }
    {
        PE {
            bytes,
            sections,
            excluded,
        }
    }

    /// The ranges that the signature covers, in order. Where no places are known, it is the whole file.
    ///
    /// It takes no memory. Where the pointers of the sections that have bytes ascend, as linkers write them, all the
    /// ranges take one pass over the table. In any other order each 64 sections take a pass, so that the time still
    /// grows with the square of the number of sections: a list that can't be changed isn't sorted in a fixed room in
    /// less. Tables of images have at most 65,535 sections.
    pub fn authenticode_ranges(&self) -> Result<ExcludedSectionsIter<'_>, Error>
        ensures { result ≡ signed_ranges self.now.bytes.now self.now.sections.now self.now.excluded }
    {
        match &self.excluded {
            Some(excluded) => checked(self.bytes, self.sections, excluded),
            None => Ok(whole(self.bytes)),
        }
    }
}

/// The ranges of a signed file. A contract sees those that are left.
#[derive(Debug, Drop)]
pub struct ExcludedSectionsIter<'s> {
    bytes: &'s [u8],
    before_checksum: Option<&'s [u8]>,
    before_entry: Option<&'s [u8]>,
    before_header_end: Option<&'s [u8]>,
    sections: SectionsByPointer<'s>,
    extra: Option<&'s [u8]>,
    fill: Option<&'s [u8]>,
}

impl<'s> Model for ExcludedSectionsIter<'s> {
    ghost use Rattle.std.specs.Prelude.{List, ℕ};
    ghost use Rattle.std.specs.Prelude.{length};
    ghost use Rattle.pe_signed.specs.RangesLeft.{ranges_left, EndInside};

    ghost Value = { List (List ℕ) };

    ghost view = { ranges_left };

    ghost invariant = { λ it. EndInside (length it.bytes.now) it.sections };
}

impl<'s> Iterator for ExcludedSectionsIter<'s> {
    type Item = &'s [u8];

    ghost next_gives = { YieldsFirstRef (λ left. left) };

    ghost remaining = { item_count (λ left. left) };

    fn next(&mut self) -> Option<&'s [u8]> {
        if let Some(range) = self.before_checksum.take() {
            return Some(range);
        }
        if let Some(range) = self.before_entry.take() {
            return Some(range);
        }
        if let Some(range) = self.before_header_end.take() {
            return Some(range);
        }
        if let Some(section) = self.sections.next() {
            return Some(bytes_of(self.bytes, section));
        }
        if let Some(range) = self.extra.take() {
            return Some(range);
        }
        self.fill.take()
    }
}

/// The whole file as the one range.
#[tactic(auto, unfolding(crate::specs::SignedRanges::by_pointer))]
fn whole(bytes: &[u8]) -> ExcludedSectionsIter<'_>
    ensures { result ≡ bytes.now ∷ [] }
{
    ExcludedSectionsIter {
        bytes,
        before_checksum: Some(bytes),
        before_entry: None,
        before_header_end: None,
        sections: sections_by_pointer(&[]),
        extra: None,
        fill: None,
    }
}

/// The ranges where places are to be left out, or the first cause against them.
#[tactic(auto, unfolding(crate::specs::SignedRanges::checked_ranges))]
fn checked<'s>(
    bytes: &'s [u8],
    sections: &'s [SectionTable],
    excluded: &ExcludedSections,
) -> Result<ExcludedSectionsIter<'s>, Error>
    ensures { result ≡ checked_ranges bytes.now sections.now excluded.now }
{
    demand(are_in_order(excluded, bytes.len()), Case::HeaderPlaces)?;
    demand_inside(sections, bytes.len())?;
    let hashed = raw_sizes_behind(sections, excluded.end_image_header);
    demand(
        are_certificates_inside(hashed, excluded.certificate_table_size, bytes.len()),
        Case::CertificateRange,
    )?;
    Ok(ranges(bytes, sections, excluded, hashed))
}

/// Whether checksum, certificate entry and the headers' end stand in order inside the file.
fn are_in_order(excluded: &ExcludedSections, len: usize) -> bool
    ensures { result ≡ are_in_order excluded.now len }
{
    let checksum = &excluded.checksum;
    let entry = &excluded.datadir_entry_certtable;
    checksum.start <= checksum.end
        && checksum.end <= entry.start
        && entry.start <= entry.end
        && entry.end <= excluded.end_image_header
        && excluded.end_image_header <= len
}

/// Whether the certificates behind the bytes hashed end inside the file.
fn are_certificates_inside(hashed: usize, size: usize, len: usize) -> bool
    ensures { result ≡ (nat_le len hashed || nat_le (hashed + size) len) }
{
    len <= hashed || size <= len - hashed
}

/// The ranges of a file whose places were tested. `hashed` counts the bytes of the headers and of all sections.
#[tactic(auto, using(crate::proofs::RangesLeft::all_inside), unfolding(crate::specs::SignedRanges::ranges_of, byte_core::specs::Number::bytes_at))]
fn ranges<'s>(
    bytes: &'s [u8],
    sections: &'s [SectionTable],
    excluded: &ExcludedSections,
    hashed: usize,
) -> ExcludedSectionsIter<'s>
    requires order { IsTrue (are_in_order excluded.now (length bytes.now)) }
    requires inside { AreInside bytes.now sections.now }
    requires certificates { IsTrue (are_certificates_inside sections.now excluded.now (length bytes.now)) }
    requires counted { hashed ≡ min (bytes_hashed sections.now excluded.now) (2 ^ 64 - 1) }
    ensures { result ≡ ranges_of bytes.now sections.now excluded.now }
{
    let checksum = &excluded.checksum;
    let entry = &excluded.datadir_entry_certtable;
    ExcludedSectionsIter {
        bytes,
        before_checksum: Some(&bytes[..checksum.start]),
        before_entry: Some(before_entry(bytes, excluded)),
        before_header_end: Some(&bytes[entry.end..excluded.end_image_header]),
        sections: sections_by_pointer(sections),
        extra: extra(bytes, hashed, excluded.certificate_table_size),
        fill: fill(bytes.len()),
    }
}

/// The bytes between the checksum and the certificate entry.
#[tactic(auto, unfolding(byte_core::specs::Number::bytes_at))]
fn before_entry<'s>(bytes: &'s [u8], excluded: &ExcludedSections) -> &'s [u8]
    requires { IsTrue (are_in_order excluded.now (length bytes.now)) }
    ensures { result.now ≡ bytes_between bytes.now excluded.now.checksum.end excluded.now.datadir_entry_certtable.start }
{
    &bytes[excluded.checksum.end..excluded.datadir_entry_certtable.start]
}

/// The bytes behind those counted, without the certificates.
#[tactic(auto, unfolding(byte_core::specs::Number::bytes_at))]
fn extra(bytes: &[u8], hashed: usize, certificates: usize) -> Option<&[u8]>
    requires { hashed < length bytes.now → hashed + certificates ≤ length bytes.now }
    ensures { option_to_list (option_copied result) ≡ (if nat_lt hashed (length bytes.now) then bytes_between bytes.now hashed (length bytes.now - certificates) ∷ [] else []) }
{
    if bytes.len() <= hashed {
        return None;
    }
    Some(&bytes[hashed..bytes.len() - certificates])
}

/// The zeros that fill a length.
fn fill(len: usize) -> Option<&'static [u8]>
    ensures { option_to_list (option_copied result) ≡ fill_ranges len }
{
    let count = (FILL_STEP - len % FILL_STEP) % FILL_STEP;
    if count == 0 {
        return None;
    }
    Some(&ZEROS[..count])
}
