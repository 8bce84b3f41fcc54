//! The string table: a zero byte, and the names in the order of the symbols' rows, each with a zero byte.

ghost use Rattle.std.specs.Prelude.{◌≡◌, ℕ, ◌+◌, ◌<◌, ◌≤◌, ◌++◌, take, length, flat_map, sum_by, map, slice_get, Some, List};
ghost use Rattle.byte_core.specs.Strings.{with_zero, string_bytes_of, strings_size};
ghost use Rattle.object_core.specs.Object.{SymbolData};
ghost use Rattle.object_core.specs.MachRows.{mach_symbol_name_of, macho_table_of};
ghost use Rattle.object_macho.specs.Layout.{mach_names};
ghost use Rattle.object_macho.specs.Plan.{symbol_order};

use byte_core::{place_byte, place_bytes};
use object_core::{Object, SymbolId, SymbolKind};

/// Writes the string table, by the order of the symbols.
pub(crate) fn place_strings(out: &mut [u8], at: usize, object: &Object, order: &[usize]) -> usize
    requires order { order.now ≡ symbol_order (object.now).symbols }
    requires room { at + strings_size (mach_names (macho_table_of object.now)) ≤ length out.old }
    ensures bytes { take result out.new ≡ take at out.old ++ string_bytes_of (mach_names (macho_table_of object.now)) }
    ensures end { result ≡ at + strings_size (mach_names (macho_table_of object.now)) }
    ensures len { length out.new ≡ length out.old }
{
    let at = place_byte(out, at, 0);
    place_names(out, at, object, order)
}

fn place_names(out: &mut [u8], at: usize, object: &Object, order: &[usize]) -> usize
    requires order { order.now ≡ symbol_order (object.now).symbols }
    requires room { at + sum_by (λ (name : List ℕ). length name + 1) (mach_names (macho_table_of object.now)) ≤ length out.old }
    ensures bytes { take result out.new ≡ take at out.old ++ flat_map with_zero (mach_names (macho_table_of object.now)) }
    ensures end { result ≡ at + sum_by (λ (name : List ℕ). length name + 1) (mach_names (macho_table_of object.now)) }
    ensures len { length out.new ≡ length out.old }
{
    let mut end = at;
    for n in 0..order.len() {
        end = place_name(out, end, object, order[n]);
    }
    end
}

/// Writes the name of the symbol of this number, with an underscore before any but a label's, and a zero byte.
fn place_name(out: &mut [u8], at: usize, object: &Object, number: usize) -> usize
    requires number { number < length (object.now).symbols }
    requires room { (s : SymbolData) → slice_get (object.now).symbols number ≡ Some s → at + (length (mach_symbol_name_of s.kind s.name) + 1) ≤ length out.old }
    ensures bytes { (s : SymbolData) → slice_get (object.now).symbols number ≡ Some s → take result out.new ≡ take at out.old ++ with_zero (mach_symbol_name_of s.kind s.name) }
    ensures end { (s : SymbolData) → slice_get (object.now).symbols number ≡ Some s → result ≡ at + (length (mach_symbol_name_of s.kind s.name) + 1) }
    ensures len { length out.new ≡ length out.old }
{
    let id = SymbolId::from_number(number);
    place_mach_name(out, at, object.symbol(id).kind, object.symbol_name(id))
}

fn place_mach_name(out: &mut [u8], at: usize, kind: SymbolKind, name: &[u8]) -> usize
    requires { at + (length (mach_symbol_name_of kind name.now) + 1) ≤ length out.old }
    ensures bytes { take result out.new ≡ take at out.old ++ with_zero (mach_symbol_name_of kind name.now) }
    ensures end { result ≡ at + (length (mach_symbol_name_of kind name.now) + 1) }
    ensures len { length out.new ≡ length out.old }
{
    match kind {
        SymbolKind::Label => place_text(out, at, name),
        _ => {
            let at = place_byte(out, at, 0x5f);
            place_text(out, at, name)
        }
    }
}

/// Writes a text and a zero byte.
fn place_text(out: &mut [u8], at: usize, text: &[u8]) -> usize
    requires { at + (length text.now + 1) ≤ length out.old }
    ensures bytes { take result out.new ≡ take at out.old ++ with_zero text.now }
    ensures end { result ≡ at + (length text.now + 1) }
    ensures len { length out.new ≡ length out.old }
{
    let at = place_bytes(out, at, text);
    place_byte(out, at, 0)
}
