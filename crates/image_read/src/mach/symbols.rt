//! Symbols: `symtab_command` and `nlist_64`.

ghost use Rattle.std.specs.Prelude.{◌≡◌, ◌==◌, ◌&&◌, ◌/◌, ◌%◌, ◌<◌, ◌≤◌, ◌↔◌, map, IsTrue, IfOk, IfSome, IfNone};
ghost use Rattle.std.specs.List.{range_with_len};
ghost use Rattle.image_read.specs.ElfRows.{EachRow};
ghost use Rattle.image_read.specs.MachFile.{symtab_of, section_count, mach_symbol_row, lies_in_section};
ghost use Rattle.image_read.specs.MachImage.{IsMachSymbol, mach_symbol_data};
ghost use Rattle.image_read.specs.MachRows.{IsPlaceOf, IsMachTable, AreSymbolsInside, SameSymtab, SameMachSymbol};
ghost use Rattle.image_read.specs.MachViews.{mach_symbol_of};

use crate::mach::MachSymbol;
use crate::mach::file::MachFile;
use crate::mach::rows::{SYMBOL_SIZE, SymbolNumbers, SymtabRow};
use crate::text::{has_text, text_or_empty};
use std::alloc::{AllocError, Global};

/// The symbols of a file, one behind the other, and the strings with their names.
#[derive(Clone, Copy, Debug)]
pub struct MachSymbolTable<'a> {
    /// In bytes from the start of the file.
    pub offset: u32,
    pub count: u32,
    pub strings: &'a [u8],
}

/// The symbols that the command at this place tells, None where they or their strings leave the file. Without a command
/// there are none.
pub fn symbol_table<'a>(file: &MachFile<'a>, symtab: Option<usize>) -> Option<MachSymbolTable<'a>>
    requires { IsPlaceOf file.now 2 symtab }
    ensures found { IfSome result (IsMachTable file.now) }
    ensures none { IfNone result (AreSymbolsInside file.now → ⊥) }
{
    let row = symtab_row(file, symtab);
    let size = SYMBOL_SIZE as u64 * u64::from(row.nsyms);
    if !file.has_inside(row.symoff, size) || !file.has_inside(row.stroff, u64::from(row.strsize)) {
        return None;
    }
    Some(MachSymbolTable {
        offset: row.symoff,
        count: row.nsyms,
        strings: file.range(row.stroff as usize, row.strsize as usize),
    })
}

fn symtab_row(file: &MachFile<'_>, symtab: Option<usize>) -> SymtabRow
    requires { IsPlaceOf file.now 2 symtab }
    ensures { SameSymtab result (symtab_of file.now) }
{
    match symtab {
        Some(at) => file.symtab(at),
        None => SymtabRow::NONE,
    }
}

/// Whether each symbol meets its conditions, in a file of so many sections.
#[tactic(auto, using(crate::proofs::Rows::each_none, crate::proofs::Rows::each_next, crate::proofs::Rows::each_end))]
pub fn are_symbols(file: &MachFile<'_>, table: &MachSymbolTable<'_>, sections: u32) -> bool
    requires table { IsMachTable file.now table.now }
    requires sections { sections ≡ section_count file.now }
    ensures { IsTrue result ↔ EachRow (IsMachSymbol file.now) 0 (symtab_of file.now).nsyms }
{
    for k in 0..table.count {
        if !is_symbol(file, table, k, sections) {
            return false;
        }
    }
    true
}

fn is_symbol(file: &MachFile<'_>, table: &MachSymbolTable<'_>, k: u32, sections: u32) -> bool
    requires table { IsMachTable file.now table.now }
    requires row { k < (symtab_of file.now).nsyms }
    requires sections { sections ≡ section_count file.now }
    ensures { IsTrue result ↔ IsMachSymbol file.now k }
{
    let row = symbol_row(file, table, k);
    if !has_text(table.strings, row.strx) {
        return false;
    }
    !lies_in_section(row.n_type) || is_section_number(row.sect, sections)
}

// Whether it is the number of one of so many sections.
fn is_section_number(sect: u8, sections: u32) -> bool
    ensures { IsTrue result ↔ ((1 ≤ sect) × (sect ≤ sections)) }
{
    1 <= sect && u32::from(sect) <= sections
}

fn symbol_row(file: &MachFile<'_>, table: &MachSymbolTable<'_>, k: u32) -> SymbolNumbers
    requires table { IsMachTable file.now table.now }
    requires row { k < (symtab_of file.now).nsyms }
    ensures { SameMachSymbol result (mach_symbol_row file.now k) }
{
    file.symbol_row(table.offset as usize + SYMBOL_SIZE * k as usize)
}

// Whether a symbol of this type lies in a section: N_SECT, and no bit of a debugger's symbol.
fn lies_in_section(n_type: u8) -> bool
    ensures { result ≡ lies_in_section n_type }
{
    n_type < 0x20 && n_type / 2 % 8 == 7
}

/// The symbols of a file, each with its name.
pub fn symbols_of<'a>(
    alloc: Global,
    file: &MachFile<'_>,
    table: &MachSymbolTable<'a>,
) -> Result<Vec<MachSymbol<'a>>, AllocError>
    requires { IsMachTable file.now table.now }
    ensures { IfOk result (λ symbols. map mach_symbol_of symbols.items ≡ map (mach_symbol_data file.now) (range_with_len 0 (symtab_of file.now).nsyms)) }
{
    let mut symbols = Vec::with_capacity(alloc, table.count as usize)?;
    for k in 0..table.count {
        symbols.push(symbol(file, table, k))?;
    }
    Ok(symbols)
}

fn symbol<'a>(file: &MachFile<'_>, table: &MachSymbolTable<'a>, k: u32) -> MachSymbol<'a>
    requires table { IsMachTable file.now table.now }
    requires row { k < (symtab_of file.now).nsyms }
    ensures { mach_symbol_of result ≡ mach_symbol_data file.now k }
{
    let row = symbol_row(file, table, k);
    MachSymbol {
        name: text_or_empty(table.strings, row.strx),
        n_type: row.n_type,
        sect: row.sect,
        desc: row.desc,
        value: row.value,
    }
}
