//! Rows of the symbol table: System V gABI, "Symbol Table".

ghost use Rattle.std.specs.Prelude.{[], ◌≡◌, ◌+◌, ◌*◌, ◌<◌, ◌≤◌, ◌^◌, ◌++◌, take, length, flat_map, count_by};
ghost use Rattle.object_core.specs.Object.{is_local, is_local_symbol, is_in_section, named};
ghost use Rattle.object_core.specs.ElfRows.{elf_binding, elf_symbol_type, elf_other, elf_shndx, elf_symbol};
ghost use Rattle.object_elf.specs.File.{symbol_row_with, symbol_row_bytes, symbol_rows_from};
ghost use Rattle.object_elf.specs.Writing.{is_chosen_symbol, chosen, names_size, FitsRow, FitRows, FitSizes};

use crate::next_row::NextRow;
use crate::object_names::symbol_name;
use byte_core::{Field, place_fields};
use object_core::{Object, Symbol, SymbolKind, SymbolScope, SymbolSection};

/// The symbol stands before those that aren't local.
pub(crate) fn is_local(symbol: &Symbol) -> bool
    ensures { result ≡ is_local_symbol symbol.now }
{
    match symbol.kind {
        SymbolKind::File | SymbolKind::Label => true,
        _ => is_in_section(symbol) && matches!(symbol.scope, SymbolScope::Compilation),
    }
}

/// The symbol is local, or it is one of the others.
pub(crate) fn is_chosen(symbol: &Symbol, local: bool) -> bool
    ensures { result ≡ is_chosen_symbol local symbol.now }
{
    if local {
        is_local(symbol)
    } else {
        !is_local(symbol)
    }
}

/// How many symbols are local.
#[tactic(auto, using(crate::proofs::Items::count_locals))]
pub(crate) fn local_count(object: &Object) -> usize
    ensures { result ≡ count_by is_local (object.now).symbols }
{
    object
        .symbols()
        .iter()
        .filter(|symbol| is_local(symbol))
        .count()
}

/// Writes the rows of the local symbols, or of the others. Their names stand one after the other.
pub(crate) fn place_symbol_rows(
    out: &mut [u8],
    next: NextRow,
    object: &Object,
    local: bool,
) -> NextRow
    requires fits { FitRows (object.now).symbols }
    requires room { next.at + 24 * length (chosen local (object.now).symbols) ≤ length out.old }
    requires names { next.name + names_size (chosen local (object.now).symbols) < 2 ^ 32 }
    ensures rows { take result.at out.new ≡ take next.at out.old ++ flat_map symbol_row_bytes (symbol_rows_from next.name (chosen local (object.now).symbols)) }
    ensures at { result.at ≡ next.at + 24 * length (chosen local (object.now).symbols) }
    ensures name { result.name ≡ next.name + names_size (chosen local (object.now).symbols) }
    ensures len { length out.new ≡ length out.old }
    ensures sizes { FitSizes local (object.now).symbols }
{
    let symbols = object.symbols();
    let mut at = next.at;
    let mut name = next.name;
    for (k, symbol) in symbols.iter().enumerate() {
        if !is_chosen(symbol, local) {
            continue;
        }
        at = place_symbol_row(out, at, symbol, name);
        name += symbol_name(object, k).len() as u32 + 1;
    }
    NextRow { at, name }
}

fn place_symbol_row(out: &mut [u8], at: usize, symbol: &Symbol, name: u32) -> usize
    requires fits { FitsRow (named [] symbol.now) }
    requires room { at + 24 ≤ length out.old }
    ensures row { take result out.new ≡ take at out.old ++ symbol_row_bytes (symbol_row_with name (elf_symbol (named [] symbol.now))) }
    ensures end { result ≡ at + 24 }
    ensures len { length out.new ≡ length out.old }
    ensures size { (symbol.now).size < 2 ^ 64 }
{
    place_fields(
        out,
        at,
        &[
            Field::of_u32(name),
            Field::of_u8(binding(symbol) * 16 + symbol_type(symbol)),
            Field::of_u8(other(symbol)),
            Field::of_u16(section_row(symbol)),
            Field::of_u64(value(symbol)),
            Field::of_u64(symbol.size),
        ],
    )
}

fn is_in_section(symbol: &Symbol) -> bool
    ensures { result ≡ is_in_section (symbol.now).section }
{
    matches!(symbol.section, SymbolSection::Section(_))
}

/// STB_LOCAL 0, STB_GLOBAL 1 or STB_WEAK 2.
fn binding(symbol: &Symbol) -> u8
    ensures value { result ≡ elf_binding symbol.now }
    ensures bound { result < 3 }
{
    if is_local(symbol) {
        0
    } else if symbol.weak {
        2
    } else {
        1
    }
}

/// STT_NOTYPE 0, STT_OBJECT 1, STT_FUNC 2, STT_FILE 4 or STT_TLS 6.
fn symbol_type(symbol: &Symbol) -> u8
    ensures value { result ≡ elf_symbol_type (symbol.now).kind (is_in_section (symbol.now).section) }
    ensures bound { result < 7 }
{
    match symbol.kind {
        SymbolKind::Tls => 6,
        SymbolKind::File => 4,
        SymbolKind::Label => 0,
        SymbolKind::Text => { if is_in_section(symbol) { 2 } else { 0 } }
        SymbolKind::Data => { if is_in_section(symbol) { 1 } else { 0 } }
    }
}

/// STV_DEFAULT 0 or STV_HIDDEN 2.
fn other(symbol: &Symbol) -> u8
    ensures { result ≡ elf_other (symbol.now).scope (is_local_symbol symbol.now) (symbol.now).weak }
{
    match symbol.scope {
        SymbolScope::Linkage => {
            if is_local(symbol) || symbol.weak {
                0
            } else {
                2
            }
        }
        _ => 0,
    }
}

/// The header row of its section, SHN_UNDEF 0 or SHN_ABS 0xfff1.
fn section_row(symbol: &Symbol) -> u16
    requires { elf_shndx (symbol.now).section < 2 ^ 16 }
    ensures { result ≡ elf_shndx (symbol.now).section }
{
    match symbol.section {
        SymbolSection::Undefined => 0,
        SymbolSection::Absolute => 0xfff1,
        SymbolSection::Section(id) => (id.as_number() + 1) as u16,
    }
}

/// The offset in its section, in bytes, 0 where it has none.
fn value(symbol: &Symbol) -> u64
    requires { (elf_symbol (named [] symbol.now)).value < 2 ^ 64 }
    ensures { result ≡ (elf_symbol (named [] symbol.now)).value }
{
    if is_in_section(symbol) {
        symbol.value as u64
    } else {
        0
    }
}
