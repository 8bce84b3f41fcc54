//! Section headers: System V gABI, "Sections".

ghost use Rattle.std.specs.Prelude.{◌≡◌, ◌+◌, ◌*◌, ◌<◌, ◌≤◌, ◌^◌, ◌++◌, take, map, length, flat_map};
ghost use Rattle.object_core.specs.ElfRows.{elf_table_of};
ghost use Rattle.object_elf.specs.Layout.{parts_of};
ghost use Rattle.object_elf.specs.File.{section_row_bytes, section_row_with, section_rows};
ghost use Rattle.object_elf.specs.Limits.{IsWithinLimits};
ghost use Rattle.object_elf.specs.PartView.{part_view, part_name_size, content_part_of, relocation_parts_from, PlacesRows, HasRoom};
ghost use Rattle.object_elf.specs.Plan.{places_of};
ghost use Rattle.object_elf.specs.PlainCounts.{plain_counts};
ghost use Rattle.object_elf.specs.Writing.{RecordsFit};

use crate::layout::{
    PartHeader, content_part, relocation_part, row_of_symbol_table, stack_note, table_parts,
};
use crate::next_row::NextRow;
use crate::object_names::section_name;
use byte_core::{Field, place_fields};
use object_core::Object;

/// The part of row 0, which is no section.
const NO_PART: PartHeader<'static> = PartHeader {
    prefix: b"",
    name: b"",
    sh_type: 0,
    flags: 0,
    size: 0,
    link: 0,
    info: 0,
    align: 0,
    entsize: 0,
};

/// Writes the null header and the headers of the parts, which start at these places.
pub(crate) fn place_section_rows(
    out: &mut [u8],
    at: usize,
    object: &Object,
    places: &[u64],
) -> usize
    requires limits { IsWithinLimits (plain_counts object.now) }
    requires records { RecordsFit (object.now).sections }
    requires places { places.now ≡ places_of (parts_of (elf_table_of object.now)) }
    requires room { at + 64 * (length (parts_of (elf_table_of object.now)) + 1) ≤ length out.old }
    ensures rows { take result out.new ≡ take at out.old ++ flat_map section_row_bytes (section_rows (parts_of (elf_table_of object.now))) }
    ensures end { result ≡ at + 64 * (length (parts_of (elf_table_of object.now)) + 1) }
    ensures len { length out.new ≡ length out.old }
{
    let count = object.sections().len();
    let table = row_of_symbol_table(object);
    let at = place_section_row(out, at, &NO_PART, 0, 0);
    let first = NextRow { at, name: 1 };
    let note = place_content_rows(out, first, object, places);
    let records = place_part_rows(out, note, &[stack_note()], places, count);
    let tables = place_relocation_rows(out, records, object, places, table);
    let parts = table_parts(object, table);
    let end = place_part_rows(out, tables, &parts, places, table as usize - 1);
    end.at
}

/// Writes the headers of the sections of the object.
fn place_content_rows(out: &mut [u8], next: NextRow, object: &Object, places: &[u64]) -> NextRow
    requires contents { (object.now).content_sum < 2 ^ 63 }
    requires room { HasRoom places.now 0 out.old next (map content_part_of (object.now).sections) }
    ensures { PlacesRows places.now 0 out.old out.new next result (map content_part_of (object.now).sections) }
{
    let sections = object.sections();
    let mut row = next;
    for (k, section) in sections.iter().enumerate() {
        let part = content_part(section, section_name(object, k));
        row = place_part_rows(out, row, &[part], places, k);
    }
    row
}

/// Writes the headers of the relocations of sections that have some. The symbol table has the header row `link`.
fn place_relocation_rows(
    out: &mut [u8],
    next: NextRow,
    object: &Object,
    places: &[u64],
    link: u32,
) -> NextRow
    requires count { length (object.now).sections < 65280 }
    requires records { RecordsFit (object.now).sections }
    requires room { HasRoom places.now (length (object.now).sections + 1) out.old next (relocation_parts_from link 1 (object.now).sections) }
    ensures { PlacesRows places.now (length (object.now).sections + 1) out.old out.new next result (relocation_parts_from link 1 (object.now).sections) }
{
    let sections = object.sections();
    let mut number = sections.len() + 1;
    let mut row = next;
    for (k, section) in sections.iter().enumerate() {
        if section.relocations().is_empty() {
            continue;
        }
        let size = 24 * section.relocations().len() as u64;
        let part = relocation_part(section_name(object, k), size, k as u32 + 1, link);
        row = place_part_rows(out, row, &[part], places, number);
        number += 1;
    }
    row
}

/// Writes the headers of parts from this number on.
fn place_part_rows(
    out: &mut [u8],
    next: NextRow,
    parts: &[PartHeader<'_>],
    places: &[u64],
    number: usize,
) -> NextRow
    requires { HasRoom places.now number out.old next (map part_view parts.now) }
    ensures { PlacesRows places.now number out.old out.new next result (map part_view parts.now) }
{
    let mut at = next.at;
    let mut name = next.name;
    for (k, part) in parts.iter().enumerate() {
        at = place_section_row(out, at, part, name, places[number + k]);
        name += name_size(part);
    }
    NextRow { at, name }
}

/// Writes the header of a part whose name and contents have these places.
fn place_section_row(
    out: &mut [u8],
    at: usize,
    part: &PartHeader<'_>,
    name: u32,
    start: u64,
) -> usize
    requires { at + 64 ≤ length out.old }
    ensures bytes { take result out.new ≡ take at out.old ++ section_row_bytes (section_row_with name start (part_view part.now)) }
    ensures end { result ≡ at + 64 }
    ensures len { length out.new ≡ length out.old }
{
    place_fields(
        out,
        at,
        &[
            Field::of_u32(name),
            Field::of_u32(part.sh_type),
            Field::of_u64(part.flags),
            Field::of_u64(0),
            Field::of_u64(start),
            Field::of_u64(part.size),
            Field::of_u32(part.link),
            Field::of_u32(part.info),
            Field::of_u64(part.align),
            Field::of_u64(part.entsize),
        ],
    )
}

/// How many bytes the part's name takes, with its zero byte.
fn name_size(part: &PartHeader<'_>) -> u32
    requires { part_name_size (part_view part.now) < 2 ^ 32 }
    ensures { result ≡ part_name_size (part_view part.now) }
{
    (part.prefix.len() + part.name.len()) as u32 + 1
}
