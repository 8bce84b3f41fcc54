//! String sections: System V gABI, "String Table". Every name is stored, also an empty or a repeated one.

ghost use Rattle.std.specs.Prelude.{◌≡◌, ◌+◌, ◌≤◌, ◌∷◌, [], ◌++◌, take, length, map, filter, flat_map, sum_by, codes};
ghost use Rattle.byte_core.specs.Strings.{string_bytes_of, with_zero};
ghost use Rattle.object_core.specs.ElfRows.{elf_table_of};
ghost use Rattle.object_elf.specs.Layout.{section_names};
ghost use Rattle.object_elf.specs.PlainCounts.{section_name_size, symbol_name_size};
ghost use Rattle.object_elf.specs.Writing.{chosen, chosen_names, names_size, own_name, own_name_size, record_name, record_name_size, has_relocations, rows_in_order, row_names};

use crate::limits::has_relocations;
use crate::object_names::{section_name, symbol_name};
use crate::symbol_rows::is_chosen;
use byte_core::{place_byte, place_bytes};
use object_core::Object;

/// Writes the string section of the symbol table.
pub(crate) fn place_symbol_strings(out: &mut [u8], at: usize, object: &Object) -> usize
    requires { at + (1 + sum_by symbol_name_size (object.now).symbols) ≤ length out.old }
    ensures bytes { take result out.new ≡ take at out.old ++ string_bytes_of (row_names (rows_in_order (object.now).symbols)) }
    ensures end { result ≡ at + (1 + sum_by symbol_name_size (object.now).symbols) }
    ensures len { length out.new ≡ length out.old }
{
    let at = place_byte(out, at, 0);
    let at = place_symbol_names(out, at, object, true);
    place_symbol_names(out, at, object, false)
}

/// Writes the names of the local symbols, or of the others.
fn place_symbol_names(out: &mut [u8], at: usize, object: &Object, local: bool) -> usize
    requires { at + names_size (chosen local (object.now).symbols) ≤ length out.old }
    ensures bytes { take result out.new ≡ take at out.old ++ chosen_names local (object.now).symbols }
    ensures end { result ≡ at + names_size (chosen local (object.now).symbols) }
    ensures len { length out.new ≡ length out.old }
{
    let symbols = object.symbols();
    let mut end = at;
    for (k, symbol) in symbols.iter().enumerate() {
        if !is_chosen(symbol, local) {
            continue;
        }
        end = place_text(out, end, symbol_name(object, k));
    }
    end
}

/// Writes the string section of the names of the sections.
pub(crate) fn place_section_strings(out: &mut [u8], at: usize, object: &Object) -> usize
    requires { at + (43 + sum_by section_name_size (object.now).sections) ≤ length out.old }
    ensures bytes { take result out.new ≡ take at out.old ++ string_bytes_of (section_names (elf_table_of object.now)) }
    ensures end { result ≡ at + (43 + sum_by section_name_size (object.now).sections) }
    ensures len { length out.new ≡ length out.old }
{
    let at = place_byte(out, at, 0);
    let at = place_own_names(out, at, object);
    let at = place_text(out, at, b".note.GNU-stack");
    let at = place_record_names(out, at, object);
    place_table_names(out, at)
}

/// Writes the names of the sections of the object.
fn place_own_names(out: &mut [u8], at: usize, object: &Object) -> usize
    requires { at + sum_by own_name_size (object.now).sections ≤ length out.old }
    ensures bytes { take result out.new ≡ take at out.old ++ flat_map with_zero (map own_name (object.now).sections) }
    ensures end { result ≡ at + sum_by own_name_size (object.now).sections }
    ensures len { length out.new ≡ length out.old }
{
    let sections = object.sections();
    let mut end = at;
    for k in 0..sections.len() {
        end = place_text(out, end, section_name(object, k));
    }
    end
}

/// Writes the names of the sections of relocations.
fn place_record_names(out: &mut [u8], at: usize, object: &Object) -> usize
    requires { at + sum_by record_name_size (filter has_relocations (object.now).sections) ≤ length out.old }
    ensures bytes { take result out.new ≡ take at out.old ++ flat_map with_zero (map record_name (filter has_relocations (object.now).sections)) }
    ensures end { result ≡ at + sum_by record_name_size (filter has_relocations (object.now).sections) }
    ensures len { length out.new ≡ length out.old }
{
    let sections = object.sections();
    let mut end = at;
    for (k, section) in sections.iter().enumerate() {
        if !has_relocations(section) {
            continue;
        }
        end = place_record_name(out, end, section_name(object, k));
    }
    end
}

/// Writes the name of the relocations of a section of this name.
fn place_record_name(out: &mut [u8], at: usize, name: &[u8]) -> usize
    requires { at + (length name.now + 6) ≤ length out.old }
    ensures bytes { take result out.new ≡ take at out.old ++ with_zero (codes ".rela" ++ name.now) }
    ensures end { result ≡ at + (length name.now + 6) }
    ensures len { length out.new ≡ length out.old }
{
    let at = place_bytes(out, at, b".rela");
    place_text(out, at, name)
}

/// Writes the names of the symbol table and of both string sections.
fn place_table_names(out: &mut [u8], at: usize) -> usize
    requires { at + 26 ≤ length out.old }
    ensures bytes { take result out.new ≡ take at out.old ++ flat_map with_zero (codes ".symtab" ∷ codes ".strtab" ∷ codes ".shstrtab" ∷ []) }
    ensures end { result ≡ at + 26 }
    ensures len { length out.new ≡ length out.old }
{
    place_bytes(out, at, b".symtab\0.strtab\0.shstrtab\0")
}

/// Writes a text and a zero byte.
fn place_text(out: &mut [u8], at: usize, text: &[u8]) -> usize
    requires { at + (length text.now + 1) ≤ length out.old }
    ensures bytes { take result out.new ≡ take at out.old ++ with_zero text.now }
    ensures end { result ≡ at + (length text.now + 1) }
    ensures len { length out.new ≡ length out.old }
{
    let at = place_bytes(out, at, text);
    place_byte(out, at, 0)
}
