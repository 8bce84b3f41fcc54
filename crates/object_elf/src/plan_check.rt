//! Whether a plan is an object's own. Nothing here takes memory.

ghost use Rattle.std.specs.Prelude.{◌≡◌, ◌+◌, ◌<◌, ◌^◌, true, false, map, length};
ghost use Rattle.object_core.specs.ElfRows.{elf_table_of};
ghost use Rattle.object_elf.specs.Layout.{parts_of, symbol_table_row};
ghost use Rattle.object_elf.specs.Limits.{IsWithinLimits};
ghost use Rattle.object_elf.specs.PartView.{part_view, content_part_of, relocation_parts_from, EndsAt, PartEndsAt};
ghost use Rattle.object_elf.specs.Plan.{LengthAt, rows_of};
ghost use Rattle.object_elf.specs.PlainCounts.{plain_counts};

use crate::layout::{
    PartHeader, content_part, end_behind, relocation_part, row_of_symbol_table, stack_note,
    start_behind, table_parts,
};
use crate::object_names::section_name;
use crate::plan::{file_length, records_size};
use crate::symbol_rows::{is_local, local_count};
use object_core::Object;

/// The rows are those of the symbols.
pub(crate) fn has_rows(rows: &[u32], object: &Object) -> bool
    requires { length (object.now).symbols + 1 < 2 ^ 32 }
    ensures yes { result ≡ true → rows.now ≡ rows_of (object.now).symbols }
    ensures no { result ≡ false → rows.now ≡ rows_of (object.now).symbols → ⊥ }
{
    let symbols = object.symbols();
    if rows.len() != symbols.len() {
        return false;
    }
    let mut local: u32 = 1;
    let mut other = 1 + local_count(object) as u32;
    for (k, symbol) in symbols.iter().enumerate() {
        if is_local(symbol) {
            if rows[k] != local {
                return false;
            }
            local += 1;
            continue;
        }
        if rows[k] != other {
            return false;
        }
        other += 1;
    }
    true
}

/// The length of the object's file, where the parts start at these places. None where they don't, or where the file
/// ends past the numbers of 64 bits.
pub(crate) fn length_at(places: &[u64], object: &Object) -> Option<u64>
    requires { IsWithinLimits (plain_counts object.now) }
    ensures { LengthAt result places.now (elf_table_of object.now) }
{
    let table = row_of_symbol_table(object);
    if places.len() != table as usize + 2 {
        return None;
    }
    let end = end_of_all(places, object, table)?;
    file_length(end, places.len() as u64)
}

/// Where the parts of the file end, if they start at these places.
fn end_of_all(places: &[u64], object: &Object, table: u32) -> Option<u64>
    requires limits { IsWithinLimits (plain_counts object.now) }
    requires table { table ≡ symbol_table_row (elf_table_of object.now) }
    ensures { EndsAt result places.now 0 64 (parts_of (elf_table_of object.now)) }
{
    let count = object.sections().len();
    let end = end_of_contents(places, object)?;
    let end = end_at(places, count, end, &[stack_note()])?;
    let end = end_of_relocations(places, end, object, table)?;
    let parts = table_parts(object, table);
    end_at(places, table as usize - 1, end, &parts)
}

/// Where the sections of the object end, if they start at these places.
fn end_of_contents(places: &[u64], object: &Object) -> Option<u64>
    requires { (object.now).content_sum < 2 ^ 63 }
    ensures { EndsAt result places.now 0 64 (map content_part_of (object.now).sections) }
{
    let sections = object.sections();
    let mut next = 64;
    for (k, section) in sections.iter().enumerate() {
        let part = content_part(section, section_name(object, k));
        next = end_at(places, k, next, &[part])?;
    }
    Some(next)
}

/// Where the relocations end behind this place, if they start at these places. The symbol table has the header row `link`.
fn end_of_relocations(places: &[u64], end: u64, object: &Object, link: u32) -> Option<u64>
    requires { length (object.now).sections < 65280 }
    ensures { EndsAt result places.now (length (object.now).sections + 1) end (relocation_parts_from link 1 (object.now).sections) }
{
    let sections = object.sections();
    let mut number = sections.len() + 1;
    let mut next = end;
    for (k, section) in sections.iter().enumerate() {
        if section.relocations().is_empty() {
            continue;
        }
        let size = records_size(section)?;
        let part = relocation_part(section_name(object, k), size, k as u32 + 1, link);
        next = end_at(places, number, next, &[part])?;
        number += 1;
    }
    Some(next)
}

/// Where parts end behind this place, if they start at the places from this number on. None where they don't, or where
/// one ends past the numbers of 64 bits.
fn end_at(places: &[u64], number: usize, end: u64, parts: &[PartHeader<'_>]) -> Option<u64>
    requires { number + length parts.now < 2 ^ 63 }
    ensures { EndsAt result places.now number end (map part_view parts.now) }
{
    let mut next = end;
    for (k, part) in parts.iter().enumerate() {
        next = end_of_part(places, number + k, next, part)?;
    }
    Some(next)
}

/// Where a part ends behind this place, if it starts at the place of this number.
fn end_of_part(places: &[u64], number: usize, end: u64, part: &PartHeader<'_>) -> Option<u64>
    ensures { PartEndsAt result places.now number end (part_view part.now) }
{
    let start = start_behind(end, part)?;
    if number >= places.len() || places[number] != start {
        return None;
    }
    end_behind(end, part)
}
