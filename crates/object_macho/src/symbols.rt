//! The symbol table: Apple's `mach-o/nlist.h`, `struct nlist_64`.

ghost use Rattle.std.specs.Prelude.{◌≡◌, ℕ, ◌+◌, ◌*◌, ◌<◌, ◌≤◌, ◌^◌, ◌++◌, take, length, flat_map, slice_index};
ghost use Rattle.object_core.specs.MachRows.{mach_symbol_name_of, macho_table_of, addresses_in};
ghost use Rattle.object_core.specs.WellFormed.{IsFormedMacho};
ghost use Rattle.object_macho.specs.File.{mach_symbol_bytes, mach_symbol_rows_from};
ghost use Rattle.object_macho.specs.Fitting.{FitsMach};
ghost use Rattle.object_macho.specs.Orders.{IsAmong, sect_by, value_by, AreNumbers};
ghost use Rattle.object_macho.specs.Plan.{symbol_order, section_numbers};
ghost use Rattle.object_macho.specs.Rows.{symbol_with};

use crate::rows::place_symbol_row;
use object_core::{Object, SectionId, Symbol, SymbolId, SymbolKind, SymbolSection};

/// Writes a symbol whose name stands at `strx`.
fn place_symbol(
    out: &mut [u8],
    at: usize,
    strx: u32,
    symbol: &Symbol,
    numbers: &[usize],
    addresses: &[u64],
) -> usize
    requires among { IsAmong (length numbers.now) (symbol.now).section }
    requires numbers { AreNumbers numbers.now addresses.now }
    requires value { value_by numbers.now addresses.now (symbol.now).section (symbol.now).value < 2 ^ 64 }
    requires room { at + 16 ≤ length out.old }
    ensures bytes { take result out.new ≡ take at out.old ++ mach_symbol_bytes (symbol_with strx symbol.now (sect_by numbers.now (symbol.now).section) (value_by numbers.now addresses.now (symbol.now).section (symbol.now).value)) }
    ensures end { result ≡ at + 16 }
    ensures len { length out.new ≡ length out.old }
{
    let sect = section_number(symbol, numbers, addresses);
    let value = value_of(symbol, numbers, addresses);
    place_symbol_row(out, at, strx, symbol, sect, value)
}

/// The number of the symbol's section, from 1, NO_SECT 0.
fn section_number(symbol: &Symbol, numbers: &[usize], addresses: &[u64]) -> u8
    requires among { IsAmong (length numbers.now) (symbol.now).section }
    requires numbers { AreNumbers numbers.now addresses.now }
    ensures { result ≡ sect_by numbers.now (symbol.now).section }
{
    match symbol.section {
        SymbolSection::Section(id) => header_number(numbers, addresses, id) as u8 + 1,
        _ => 0,
    }
}

fn header_number(numbers: &[usize], addresses: &[u64], id: SectionId) -> usize
    requires among { id < length numbers.now }
    requires numbers { AreNumbers numbers.now addresses.now }
    ensures value { result ≡ slice_index numbers.now id }
    ensures within { result < length addresses.now }
    ensures bound { result < 255 }
{
    numbers[id.as_number()]
}

/// The address of the symbol, 0 for one that lies in no section.
fn value_of(symbol: &Symbol, numbers: &[usize], addresses: &[u64]) -> u64
    requires among { IsAmong (length numbers.now) (symbol.now).section }
    requires numbers { AreNumbers numbers.now addresses.now }
    requires value { value_by numbers.now addresses.now (symbol.now).section (symbol.now).value < 2 ^ 64 }
    ensures { result ≡ value_by numbers.now addresses.now (symbol.now).section (symbol.now).value }
{
    match symbol.section {
        SymbolSection::Section(id) => {
            addresses[header_number(numbers, addresses, id)] + symbol.value as u64
        }
        _ => 0,
    }
}

/// How many bytes the name of a symbol takes in the string table.
pub(crate) fn name_size(kind: SymbolKind, name: &[u8]) -> usize
    ensures { result ≡ length (mach_symbol_name_of kind name.now) + 1 }
{
    match kind {
        SymbolKind::Label => name.len() + 1,
        _ => name.len() + 2,
    }
}

/// Writes the symbols, by their order and by where sections stand.
pub(crate) fn place_symbols(
    out: &mut [u8],
    at: usize,
    object: &Object,
    order: &[usize],
    numbers: &[usize],
    addresses: &[u64],
) -> usize
    requires formed { IsFormedMacho object.now }
    requires fits { FitsMach (macho_table_of object.now) }
    requires order { order.now ≡ symbol_order (object.now).symbols }
    requires numbers { numbers.now ≡ section_numbers (object.now).sections }
    requires addresses { addresses.now ≡ addresses_in (object.now).sections }
    requires room { at + 16 * length order.now ≤ length out.old }
    ensures bytes { take result out.new ≡ take at out.old ++ flat_map mach_symbol_bytes (mach_symbol_rows_from (macho_table_of object.now) 0 (macho_table_of object.now).symbols) }
    ensures end { result ≡ at + 16 * length order.now }
    ensures len { length out.new ≡ length out.old }
{
    let mut end = at;
    let mut strx: u32 = 1;
    for n in 0..order.len() {
        let id = SymbolId::from_number(order[n]);
        let symbol = object.symbol(id);
        end = place_symbol(out, end, strx, symbol, numbers, addresses);
        strx += name_size(symbol.kind, object.symbol_name(id)) as u32;
    }
    end
}
