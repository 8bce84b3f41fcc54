//! Relocation records: System V gABI, "Relocation".

ghost use Rattle.std.specs.Prelude.{List, ◌≡◌, ℕ, ◌+◌, ◌*◌, ◌<◌, ◌≤◌, ◌^◌, ◌++◌, Some, IfOk, map, filter, take, length, slice_get, slice_index};
ghost use Rattle.byte_core.specs.LaidOut.{LaysOut, end_of_aligned};
ghost use Rattle.object_core.specs.ElfRows.{elf_type_of};
ghost use Rattle.object_core.specs.declared.relocation.Relocation.{Relocation};
ghost use Rattle.object_core.specs.Object.{SectionData};
ghost use Rattle.object_elf.specs.File.{relocation_row_bytes};
ghost use Rattle.object_elf.specs.Writing.{AreRowsOf, NameSymbols, FitsRecord, FitRecords, record_by, record_bytes_by, records_at, has_relocations};

use crate::symbol_rows::{is_local, local_count};
use byte_core::{Field, place_fields, place_padding};
use object_core::{Object, Relocation, RelocationFlags};
use std::alloc::{AllocError, Global};

/// The row of each symbol in the table, by the symbol's number.
pub(crate) fn rows_of_symbols(alloc: Global, object: &Object) -> Result<Vec<u32>, AllocError>
    requires { length (object.now).symbols + 1 < 2 ^ 32 }
    ensures count { IfOk result (λ rows. length rows.items ≡ length (object.now).symbols) }
    ensures rows { IfOk result (λ rows. AreRowsOf rows.items (object.now).symbols) }
{
    let symbols = object.symbols();
    let mut local: u32 = 1;
    let mut other = 1 + local_count(object) as u32;
    let mut rows = Vec::with_capacity(alloc, symbols.len())?;
    for symbol in symbols {
        if is_local(symbol) {
            rows.push(local)?;
            local += 1;
            continue;
        }
        rows.push(other)?;
        other += 1;
    }
    Ok(rows)
}

/// Writes the records of each section that has some, at multiples of 8. The rows are those of the symbols.
pub(crate) fn place_relocations(out: &mut [u8], at: usize, object: &Object, rows: &[u32]) -> usize
    requires names { (k : ℕ) (s : SectionData) → slice_get (object.now).sections k ≡ Some s → NameSymbols (length rows.now) s.relocations }
    requires room { end_of_aligned at (map (records_at rows.now) (filter has_relocations (object.now).sections)) ≤ length out.old }
    ensures records { LaysOut (take at out.old) (take result out.new) (map (records_at rows.now) (filter has_relocations (object.now).sections)) }
    ensures end { result ≡ end_of_aligned at (map (records_at rows.now) (filter has_relocations (object.now).sections)) }
    ensures len { length out.new ≡ length out.old }
    ensures fit { (k : ℕ) (s : SectionData) → slice_get (object.now).sections k ≡ Some s → FitRecords s.relocations }
{
    let sections = object.sections();
    let mut end = at;
    for section in sections {
        if section.relocations().is_empty() {
            continue;
        }
        end = place_padding(out, end, 8);
        end = place_records(out, end, section.relocations(), rows);
    }
    end
}

fn place_records(out: &mut [u8], at: usize, relocations: &[Relocation], rows: &[u32]) -> usize
    requires names { NameSymbols (length rows.now) relocations.now }
    requires room { at + 24 * length relocations.now ≤ length out.old }
    ensures records { take result out.new ≡ take at out.old ++ record_bytes_by rows.now relocations.now }
    ensures end { result ≡ at + 24 * length relocations.now }
    ensures len { length out.new ≡ length out.old }
    ensures fit { (k : ℕ) (r : Relocation) → slice_get relocations.now k ≡ Some r → FitsRecord r }
{
    let mut end = at;
    for relocation in relocations {
        let row = rows[relocation.symbol.as_number()];
        end = place_record(out, end, *relocation, row);
    }
    end
}

fn place_record(out: &mut [u8], at: usize, relocation: Relocation, row: u32) -> usize
    requires { at + 24 ≤ length out.old }
    ensures record { (rows : List ℕ) → slice_index rows relocation.symbol ≡ row → take result out.new ≡ take at out.old ++ relocation_row_bytes (record_by rows relocation) }
    ensures end { result ≡ at + 24 }
    ensures len { length out.new ≡ length out.old }
    ensures fits { FitsRecord relocation }
{
    place_fields(
        out,
        at,
        &[
            Field::of_u64(relocation.offset),
            Field::of_u32(type_of(relocation.flags)),
            Field::of_u32(row),
            Field::of_u64(relocation.addend.cast_unsigned()),
        ],
    )
}

fn type_of(flags: RelocationFlags) -> u32
    ensures { result ≡ elf_type_of flags }
{
    match flags {
        RelocationFlags::Elf { r_type } => r_type,
        RelocationFlags::MachO { .. } => 0,
    }
}
