//! What stands between the file header and the names of the sections.

ghost use Rattle.std.specs.Prelude.{◌≡◌, ℕ, ◌+◌, ◌*◌, ◌<◌, ◌≤◌, ◌^◌, Some, map, take, length, slice_get, sum_by, true, false, ◌∷◌, []};
ghost use Rattle.std.specs.Int.{next_multiple_of};
ghost use Rattle.byte_core.specs.LaidOut.{LaysOut, end_of_aligned};
ghost use Rattle.ir_core.specs.declared.target.BinaryFormat.TheVariants.{Elf};
ghost use Rattle.object_core.specs.ElfRows.{elf_table_of};
ghost use Rattle.object_core.specs.Object.{SectionData};
ghost use Rattle.object_core.specs.WellFormed.{IsFormedElf};
ghost use Rattle.object_elf.specs.File.{symbol_contents};
ghost use Rattle.object_elf.specs.Layout.{end_of_parts, parts_of};
ghost use Rattle.object_elf.specs.Limits.{IsWithinLimits};
ghost use Rattle.object_elf.specs.Plan.{rows_of};
ghost use Rattle.object_elf.specs.PlainCounts.{plain_counts, symbol_name_size};
ghost use Rattle.object_elf.specs.Writing.{plain, body_of, NumbersFit, contents_at, FitRows, FitSizes, rows_in_order};

use crate::next_row::NextRow;
use crate::relocation_rows::place_relocations;
use crate::strings::place_symbol_strings;
use crate::symbol_rows::place_symbol_rows;
use byte_core::{place_bytes, place_padding, place_zeros};
use object_core::{Object, Section};

/// Writes contents, relocations, symbols and their names. The rows are those of the symbols.
pub(crate) fn place_body(out: &mut [u8], at: usize, object: &Object, rows: &[u32]) -> usize
    requires format { (object.now).format ≡ Elf }
    requires formed { IsFormedElf object.now }
    requires limits { IsWithinLimits (plain_counts object.now) }
    requires rows { rows.now ≡ rows_of (object.now).symbols }
    requires start { at ≡ 64 }
    requires room { end_of_parts (parts_of (elf_table_of object.now)) ≤ length out.old }
    ensures bytes { LaysOut (take at out.old) (take result out.new) (body_of object.now rows.now) }
    ensures end { result ≡ end_of_aligned at (body_of object.now rows.now) }
    ensures len { length out.new ≡ length out.old }
    ensures numbers { NumbersFit object.now }
{
    let at = place_contents(out, at, object.sections());
    let at = place_relocations(out, at, object, rows);
    let at = place_symbol_table(out, at, object);
    place_symbol_strings(out, at, object)
}

/// Writes the bytes of the sections, each at a multiple of its alignment.
fn place_contents(out: &mut [u8], at: usize, sections: &[Section]) -> usize
    requires { end_of_aligned at (map contents_at (map plain sections.now)) ≤ length out.old }
    ensures contents { LaysOut (take at out.old) (take result out.new) (map contents_at (map plain sections.now)) }
    ensures end { result ≡ end_of_aligned at (map contents_at (map plain sections.now)) }
    ensures len { length out.new ≡ length out.old }
    ensures aligns { (k : ℕ) (s : SectionData) → slice_get (map plain sections.now) k ≡ Some s → s.align < 2 ^ 64 }
{
    let mut end = at;
    for section in sections {
        end = place_padding(out, end, stored_align(section));
        end = place_bytes(out, end, section.contents());
    }
    end
}

/// The alignment of a section's bytes in the file, 1 where it has none.
fn stored_align(section: &Section) -> u64
    ensures value { result ≡ (contents_at (plain section.now)).align }
    ensures bound { (section.now).align < 2 ^ 64 }
{
    let align = section.align();
    if section.kind().is_zero_fill() {
        1
    } else {
        align
    }
}

/// Writes the symbol table: the null row, the local symbols and the others.
fn place_symbol_table(out: &mut [u8], at: usize, object: &Object) -> usize
    requires fits { FitRows (object.now).symbols }
    requires names { 1 + sum_by symbol_name_size (object.now).symbols < 2 ^ 32 }
    requires room { next_multiple_of at 8 + 24 * (length (object.now).symbols + 1) ≤ length out.old }
    ensures table { LaysOut (take at out.old) (take result out.new) (symbol_contents (rows_in_order (object.now).symbols) ∷ []) }
    ensures end { result ≡ next_multiple_of at 8 + 24 * (length (object.now).symbols + 1) }
    ensures len { length out.new ≡ length out.old }
    ensures local_sizes { FitSizes true (object.now).symbols }
    ensures other_sizes { FitSizes false (object.now).symbols }
{
    let at = place_padding(out, at, 8);
    let at = place_zeros(out, at, 24);
    let others = place_symbol_rows(out, NextRow { at, name: 1 }, object, true);
    let end = place_symbol_rows(out, others, object, false);
    end.at
}
