//! Contents, headers and records of all sections, in the order of their headers.

ghost use Rattle.std.specs.Prelude.{◌≡◌, ◌+◌, ◌-◌, ◌*◌, ◌<◌, ◌≤◌, ◌^◌, ◌==◌, ◌++◌, take, length, replicate, map, filter, flat_map, count_by, slice_index, not, true, if◌then◌else◌};
ghost use Rattle.byte_core.specs.LaidOut.{laid_out};
ghost use Rattle.ir_core.specs.MachO.{mach_cputype, is_zero_fill_type};
ghost use Rattle.object_core.specs.MachRows.{is_mach_stored, macho_table_of, addresses_in};
ghost use Rattle.object_core.specs.WellFormed.{IsFormedMacho};
ghost use Rattle.object_macho.specs.Layout.{is_stored, contents_size, records_of, record_count, data_start, relocations_start};
ghost use Rattle.object_macho.specs.File.{aligned_contents, mach_record_bytes, mach_section_bytes, section_headers_from};
ghost use Rattle.object_macho.specs.Fitting.{FitsMach};
ghost use Rattle.object_macho.specs.Plan.{section_order, rows_of};

use crate::contents::place_contents;
use crate::records::{count_records, place_section_records};
use crate::rows::{SectionPlaces, place_section_row};
use byte_core::place_zeros;
use ir_core::mach_cputype;
use object_core::{Object, Section, SectionId};

/// Writes the records of all sections, by the order of the sections and the rows of the symbols.
pub(crate) fn place_all_records(
    out: &mut [u8],
    at: usize,
    object: &Object,
    cputype: u32,
    order: &[usize],
    rows: &[u32],
) -> usize
    requires cputype { cputype ≡ mach_cputype (object.now).architecture }
    requires formed { IsFormedMacho object.now }
    requires fits { FitsMach (macho_table_of object.now) }
    requires order { order.now ≡ section_order (object.now).sections }
    requires rows { rows.now ≡ rows_of (object.now).symbols }
    requires room { at + 8 * record_count cputype (macho_table_of object.now).sections ≤ length out.old }
    ensures bytes { take result out.new ≡ take at out.old ++ flat_map mach_record_bytes (flat_map (records_of cputype) (macho_table_of object.now).sections) }
    ensures end { result ≡ at + 8 * record_count cputype (macho_table_of object.now).sections }
    ensures len { length out.new ≡ length out.old }
{
    let mut end = at;
    for n in 0..order.len() {
        let section = object.section(SectionId::from_number(order[n]));
        end = place_section_records(out, end, cputype, section, rows);
    }
    end
}

/// A section takes bytes of the file: its type is neither S_ZEROFILL 1 nor S_THREAD_LOCAL_ZEROFILL 0x12.
pub(crate) fn is_stored(section: &Section) -> bool
    ensures { result ≡ not (is_zero_fill_type (section.now).macho_flags) }
{
    let kind = section.macho_flags() % 256;
    kind != 1 && kind != 0x12
}

/// Where a section at this address stands in a file whose contents start at `start`, and its records at `reloff`.
fn places_of(section: &Section, address: u64, start: u64, reloff: u64, nreloc: u32) -> SectionPlaces
    requires offset { not (is_zero_fill_type (section.now).macho_flags) ≡ true → start + address < 2 ^ 32 }
    requires reloff { reloff < 2 ^ 32 }
    ensures address { result.address ≡ address }
    ensures offset { result.offset ≡ (if not (is_zero_fill_type (section.now).macho_flags) then start + address else 0) }
    ensures reloff { result.reloff ≡ (if length (section.now).relocations == 0 then 0 else reloff) }
    ensures nreloc { result.nreloc ≡ nreloc }
{
    SectionPlaces {
        address,
        offset: offset_of(section, address, start),
        reloff: table_of(section, reloff),
        nreloc,
    }
}

fn offset_of(section: &Section, address: u64, start: u64) -> u32
    requires { not (is_zero_fill_type (section.now).macho_flags) ≡ true → start + address < 2 ^ 32 }
    ensures { result ≡ (if not (is_zero_fill_type (section.now).macho_flags) then start + address else 0) }
{
    if is_stored(section) {
        (start + address) as u32
    } else {
        0
    }
}

fn table_of(section: &Section, reloff: u64) -> u32
    requires { reloff < 2 ^ 32 }
    ensures { result ≡ (if length (section.now).relocations == 0 then 0 else reloff) }
{
    if section.relocations().is_empty() {
        0
    } else {
        reloff as u32
    }
}

/// Writes the headers of all sections, by their order and addresses. The contents start at `start`, the records at
/// `records`.
pub(crate) fn place_section_rows(
    out: &mut [u8],
    at: usize,
    object: &Object,
    order: &[usize],
    addresses: &[u64],
    start: u64,
    records: u64,
) -> usize
    requires formed { IsFormedMacho object.now }
    requires fits { FitsMach (macho_table_of object.now) }
    requires order { order.now ≡ section_order (object.now).sections }
    requires addresses { addresses.now ≡ addresses_in (object.now).sections }
    requires start { start ≡ data_start (macho_table_of object.now) }
    requires records { records ≡ relocations_start (macho_table_of object.now) }
    requires room { at + 80 * length order.now ≤ length out.old }
    ensures bytes { take result out.new ≡ take at out.old ++ flat_map mach_section_bytes (section_headers_from (macho_table_of object.now) 0 (macho_table_of object.now).sections) }
    ensures end { result ≡ at + 80 * length order.now }
    ensures len { length out.new ≡ length out.old }
{
    let cputype = mach_cputype(object.architecture());
    let mut end = at;
    let mut reloff = records;
    for n in 0..order.len() {
        let id = SectionId::from_number(order[n]);
        let section = object.section(id);
        let nreloc = count_records(cputype, section.relocations());
        let places = places_of(section, addresses[n], start, reloff, nreloc);
        let segment = object.section_segment(id);
        end = place_section_row(out, end, segment, object.section_name(id), section, places);
        reloff += 8 * u64::from(nreloc);
    }
    end
}

/// Writes the contents of the first `count` sections of the order, those that take bytes, each at its address behind `at`.
pub(crate) fn place_all_contents(
    out: &mut [u8],
    at: usize,
    object: &Object,
    count: usize,
    order: &[usize],
    addresses: &[u64],
) -> usize
    requires formed { IsFormedMacho object.now }
    requires fits { FitsMach (macho_table_of object.now) }
    requires count { count ≡ count_by is_mach_stored (object.now).sections }
    requires order { order.now ≡ section_order (object.now).sections }
    requires addresses { addresses.now ≡ addresses_in (object.now).sections }
    requires room { at + contents_size (macho_table_of object.now) ≤ length out.old }
    ensures bytes { take result out.new ≡ take at out.old ++ laid_out 0 (map (aligned_contents (macho_table_of object.now).cputype) (filter is_stored (macho_table_of object.now).sections)) }
    ensures end { result ≡ at + contents_size (macho_table_of object.now) }
    ensures len { length out.new ≡ length out.old }
{
    let cputype = mach_cputype(object.architecture());
    let mut end = at;
    for n in 0..count {
        let section = object.section(SectionId::from_number(number_at(order, n)));
        end = place_gap(out, end, at, address_at(addresses, n));
        end = place_contents(out, end, cputype, section);
    }
    end
}

/// Writes zeros up to this address behind `at`.
fn place_gap(out: &mut [u8], end: usize, at: usize, address: u64) -> usize
    requires behind { end ≤ at + address }
    requires room { at + address ≤ length out.old }
    ensures bytes { take result out.new ≡ take end out.old ++ replicate (at + address - end) 0 }
    ensures end { result ≡ at + address }
    ensures len { length out.new ≡ length out.old }
{
    let place = at + address as usize;
    place_zeros(out, end, place - end)
}

pub(crate) fn number_at(order: &[usize], n: usize) -> usize
    requires { n < length order.now }
    ensures { result ≡ slice_index order.now n }
{
    order[n]
}

pub(crate) fn address_at(addresses: &[u64], n: usize) -> u64
    requires { n < length addresses.now }
    ensures { result ≡ slice_index addresses.now n }
{
    addresses[n]
}
