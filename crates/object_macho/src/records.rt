//! Relocation records: Apple's `mach-o/reloc.h`, `struct relocation_info`.

ghost use Rattle.std.specs.Prelude.{◌≡◌, ℕ, ◌+◌, ◌*◌, ◌<◌, ◌≤◌, ◌^◌, ◌++◌, take, length, flat_map, slice_index, true};
ghost use Rattle.object_macho.specs.File.{bit, record_word, mach_record_bytes};
ghost use Rattle.ir_core.specs.MachO.{is_within};
ghost use Rattle.object_macho.specs.Layout.{record_for, addend_record, wants_record, records_for};
ghost use Rattle.object_macho.specs.Orders.{record_bytes_by, record_count_of, record_counts, FitRelocationsBy};
ghost use Rattle.object_macho.specs.Rows.{record_view, relocation_with, FitsRecords};

use crate::contents::field_of;
use byte_core::{Field, place_fields};
use ir_core::is_in_record;
use object_core::{Relocation, Section, SymbolId};

/// A record without where it stands.
#[derive(Clone, Copy)]
pub(crate) struct Record {
    pub(crate) address: u32,
    pub(crate) symbolnum: u32,
    pub(crate) pcrel: bool,
    pub(crate) length: u8,
    pub(crate) is_extern: bool,
    pub(crate) r_type: u8,
}

/// Writes a record.
pub(crate) fn place_record(out: &mut [u8], at: usize, item: Record) -> usize
    requires symbolnum { item.symbolnum < 2 ^ 24 }
    requires length { item.length < 4 }
    requires r_type { item.r_type < 16 }
    requires room { at + 8 ≤ length out.old }
    ensures bytes { take result out.new ≡ take at out.old ++ mach_record_bytes (record_view item) }
    ensures end { result ≡ at + 8 }
    ensures len { length out.new ≡ length out.old }
{
    let word = word_of(item);
    place_fields(out, at, &[Field::of_u32(item.address), Field::of_u32(word)])
}

/// The second word of a record.
fn word_of(item: Record) -> u32
    requires symbolnum { item.symbolnum < 2 ^ 24 }
    requires length { item.length < 4 }
    requires r_type { item.r_type < 16 }
    ensures { result ≡ record_word (record_view item) }
{
    let pcrel = bit(item.pcrel);
    let is_extern = bit(item.is_extern);
    item.symbolnum
        + 0x100_0000 * pcrel
        + 0x200_0000 * u32::from(item.length)
        + 0x800_0000 * is_extern
        + 0x1000_0000 * u32::from(item.r_type)
}

fn bit(value: bool) -> u32
    ensures value { result ≡ bit value }
    ensures bound { result < 2 }
{
    if value { 1 } else { 0 }
}

/// Writes the records of a section, by the rows of the symbols.
pub(crate) fn place_section_records(
    out: &mut [u8],
    at: usize,
    cputype: u32,
    section: &Section,
    rows: &[u32],
) -> usize
    requires fits { FitRelocationsBy cputype rows.now (section.now).relocations }
    requires room { at + 8 * record_counts cputype (section.now).relocations ≤ length out.old }
    ensures bytes { take result out.new ≡ take at out.old ++ flat_map (record_bytes_by cputype rows.now) (section.now).relocations }
    ensures end { result ≡ at + 8 * record_counts cputype (section.now).relocations }
    ensures len { length out.new ≡ length out.old }
{
    let mut end = at;
    for relocation in section.relocations() {
        let row = row_of(rows, relocation.symbol);
        end = place_relocation(out, end, cputype, relocation, row);
    }
    end
}

/// How many records these relocations have.
pub(crate) fn count_records(cputype: u32, relocations: &[Relocation]) -> u32
    requires { record_counts cputype relocations.now < 2 ^ 32 }
    ensures { result ≡ record_counts cputype relocations.now }
{
    let mut count = 0;
    for relocation in relocations {
        count += count_of(cputype, relocation);
    }
    count
}

fn row_of(rows: &[u32], symbol: SymbolId) -> u32
    requires { symbol < length rows.now }
    ensures { result ≡ slice_index rows.now symbol }
{
    rows[symbol.as_number()]
}

/// Writes the record of a relocation whose symbol has this row, behind one with its addend where a record keeps it.
pub(crate) fn place_relocation(
    out: &mut [u8],
    at: usize,
    cputype: u32,
    relocation: &Relocation,
    row: u32,
) -> usize
    requires row { row < 2 ^ 24 }
    requires fits { FitsRecords cputype relocation.now }
    requires room { at + 8 * length (records_for cputype (relocation_with row relocation.now)) ≤ length out.old }
    ensures bytes { take result out.new ≡ take at out.old ++ flat_map mach_record_bytes (records_for cputype (relocation_with row relocation.now)) }
    ensures end { result ≡ at + 8 * length (records_for cputype (relocation_with row relocation.now)) }
    ensures len { length out.new ≡ length out.old }
{
    if wants_record(cputype, relocation) {
        let at = place_record(out, at, addend_record(relocation));
        return place_record(out, at, own_record(relocation, row));
    }
    place_record(out, at, own_record(relocation, row))
}

/// How many records a relocation has.
pub(crate) fn count_of(cputype: u32, relocation: &Relocation) -> u32
    ensures value { result ≡ record_count_of cputype relocation.now }
    ensures bound { result < 3 }
{
    if wants_record(cputype, relocation) {
        2
    } else {
        1
    }
}

/// The addend is one of those that a record keeps, and not 0.
fn wants_record(cputype: u32, relocation: &Relocation) -> bool
    ensures { result ≡ wants_record cputype (relocation_with 0 relocation.now) }
{
    is_in_record(cputype, field_of(relocation.flags).r_type) && relocation.addend != 0
}

/// The record that names the symbol's row.
fn own_record(relocation: &Relocation, row: u32) -> Record
    requires { (relocation.now).offset < 2 ^ 32 }
    ensures { record_view result ≡ record_for (relocation_with row relocation.now) }
{
    let field = field_of(relocation.flags);
    Record {
        address: relocation.offset as u32,
        symbolnum: row,
        pcrel: field.pcrel,
        length: field.length,
        is_extern: true,
        r_type: field.r_type,
    }
}

/// ARM64_RELOC_ADDEND 10: the addend as 24 bits in two's complement in the place of a row.
#[tactic(auto, using(crate::proofs::Addends::low_bits))]
fn addend_record(relocation: &Relocation) -> Record
    requires offset { (relocation.now).offset < 2 ^ 32 }
    requires addend { is_within (2 ^ 23) (relocation.now).addend ≡ true }
    ensures { record_view result ≡ addend_record (relocation_with 0 relocation.now) }
{
    let low = relocation.addend.cast_unsigned() % 0x100_0000;
    Record {
        address: relocation.offset as u32,
        symbolnum: low as u32,
        pcrel: false,
        length: 2,
        is_extern: false,
        r_type: 10,
    }
}
