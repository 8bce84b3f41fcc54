//! The symbol table: System V gABI, "Symbol Table".

ghost use Rattle.std.specs.Prelude.{◌≡◌, ◌≤◌, ◌<◌, ◌+◌, ◌/◌, ◌↔◌, ◌⊎◌, length, map, Some, IsTrue, IfOk, IfSome, IfNone};
ghost use Rattle.image_read.specs.ElfFile.{header_of, section_row, symbol_table};
ghost use Rattle.image_read.specs.ElfImage.{IsSection, IsSymbol, IsSymbolTable, symbol_data, symbols_in};
ghost use Rattle.image_read.specs.ElfRows.{EachRow, HasSymbolRows, IsNoTable, IsTableOnlyAt, IsOpen, IsTableOf, IsSoundTable};
ghost use Rattle.image_read.specs.Views.{symbol_of};

use crate::elf::ElfSymbol;
use crate::elf::file::ElfFile;
use crate::elf::rows::{ENTRY_SIZE, SHT_SYMTAB, SectionRow};
use crate::elf::strings::strings_of;
use crate::text::{has_text, text_or_empty};
use std::alloc::{AllocError, Global};

/// A symbol's row in the table has 32 bits where it is named.
const ROWS_MAX: u64 = 0x1_0000_0000;

const SHN_LORESERVE: u16 = 0xff00;

const SHN_XINDEX: u16 = 0xffff;

/// The symbol table that was found in section header `number`, with its strings.
#[derive(Clone, Copy, Debug)]
pub struct SymbolTable<'a> {
    pub number: usize,
    pub row: SectionRow,
    pub strings: &'a [u8],
}

/// The symbol table, where there is one. None where a symbol table doesn't meet its conditions.
pub fn table_of<'a>(file: &ElfFile<'a>) -> Option<Option<SymbolTable<'a>>>
    requires { EachRow (IsSection file.now) 1 (header_of file.now).shnum }
    ensures found { IfSome result (IsTableOf file.now) }
    ensures sound { IfSome result (λ _. EachRow (IsSoundTable file.now) 1 (header_of file.now).shnum) }
    ensures none { IfNone result (EachRow (IsSoundTable file.now) 1 (header_of file.now).shnum → ⊥) }
{
    match table_number(file) {
        Some(k) => match sound_table(file, k) {
            Some(table) => Some(Some(table)),
            None => None,
        },
        None => Some(None),
    }
}

// The symbol table in section header `k`, None where it doesn't meet its conditions.
fn sound_table<'a>(file: &ElfFile<'a>, k: usize) -> Option<SymbolTable<'a>>
    requires sections { EachRow (IsSection file.now) 1 (header_of file.now).shnum }
    requires behind_null { 1 ≤ k }
    requires row { k < (header_of file.now).shnum }
    requires kind { (section_row file.now k).sh_type ≡ 2 }
    ensures found { IfSome result (IsOpen file.now) }
    ensures number { IfSome result (λ table. table.number ≡ k) }
    ensures sound { IfSome result (λ _. IsSymbolTable file.now k) }
    ensures none { IfNone result (IsSymbolTable file.now k → ⊥) }
{
    let table = opened(file, k)?;
    if !is_symbol_table(file, &table) {
        return None;
    }
    Some(table)
}

// The first section header of a symbol table.
#[tactic(auto, using(crate::proofs::Rows::each_none, crate::proofs::Rows::each_next, crate::proofs::Rows::each_end))]
fn table_number(file: &ElfFile<'_>) -> Option<usize>
    ensures value { result ≡ symbol_table file.now }
    ensures behind_null { IfSome result (λ k. 1 ≤ k) }
    ensures row { IfSome result (λ k. k < (header_of file.now).shnum) }
    ensures kind { IfSome result (λ k. (section_row file.now k).sh_type ≡ 2) }
    ensures none { IfNone result (EachRow (IsNoTable file.now) 1 (header_of file.now).shnum) }
{
    for k in 1..file.count() {
        if file.section_row(k).sh_type == SHT_SYMTAB {
            return Some(k);
        }
    }
    None
}

// The symbol table in section header `k`, None where its header doesn't meet its conditions.
fn opened<'a>(file: &ElfFile<'a>, k: usize) -> Option<SymbolTable<'a>>
    requires row { k < (header_of file.now).shnum }
    requires inside { (section_row file.now k).offset + (section_row file.now k).size ≤ length file.now }
    ensures found { IfSome result (IsOpen file.now) }
    ensures number { IfSome result (λ table. table.number ≡ k) }
    ensures none { IfNone result (HasSymbolRows file.now k → ⊥) }
{
    let row = file.section_row(k);
    let is_whole = row.entsize == ENTRY_SIZE && row.size % ENTRY_SIZE == 0;
    let is_counted = ENTRY_SIZE <= row.size && row.size <= ENTRY_SIZE * ROWS_MAX;
    if !is_whole || !is_counted || u64::from(row.info) > row.entries() {
        return None;
    }
    match strings_of(file, row.link as usize) {
        Some(strings) => Some(SymbolTable {
            number: k,
            row,
            strings,
        }),
        None => None,
    }
}

fn is_symbol_table(file: &ElfFile<'_>, table: &SymbolTable<'_>) -> bool
    requires { IsOpen file.now table.now }
    ensures { IsTrue result ↔ IsSymbolTable file.now table.now.number }
{
    is_only_table(file, table.number) && are_symbols(file, table)
}

// Whether no other section is a symbol table.
#[tactic(auto, using(crate::proofs::Rows::each_none, crate::proofs::Rows::each_next, crate::proofs::Rows::each_end))]
fn is_only_table(file: &ElfFile<'_>, k: usize) -> bool
    ensures { IsTrue result ↔ EachRow (IsTableOnlyAt file.now k) 1 (header_of file.now).shnum }
{
    for j in 1..file.count() {
        if file.section_row(j).sh_type == SHT_SYMTAB && j != k {
            return false;
        }
    }
    true
}

#[tactic(auto, using(crate::proofs::Rows::each_none, crate::proofs::Rows::each_next, crate::proofs::Rows::each_end))]
fn are_symbols(file: &ElfFile<'_>, table: &SymbolTable<'_>) -> bool
    requires { IsOpen file.now table.now }
    ensures { IsTrue result ↔ EachRow (IsSymbol file.now table.now.number) 1 ((section_row file.now table.now.number).size / 24) }
{
    for m in 1..table.row.entries() {
        if !is_symbol(file, table, m) {
            return false;
        }
    }
    true
}

fn is_symbol(file: &ElfFile<'_>, table: &SymbolTable<'_>, m: u64) -> bool
    requires table { IsOpen file.now table.now }
    requires row { m < (section_row file.now table.now.number).size / 24 }
    ensures { IsTrue result ↔ IsSymbol file.now table.now.number m }
{
    let row = file.symbol_row(table.row.offset, m);
    has_text(table.strings, row.name) && is_place(row.shndx, file.count())
}

// Whether a symbol can be in this section, where there are so many.
fn is_place(shndx: u16, count: usize) -> bool
    ensures { IsTrue result ↔ ((shndx < count) ⊎ ((0xff00 ≤ shndx) × (shndx ≤ 0xfffe))) }
{
    usize::from(shndx) < count || SHN_LORESERVE <= shndx && shndx < SHN_XINDEX
}

/// The symbols behind the null symbol.
pub fn symbols_of<'a>(
    alloc: Global,
    file: &ElfFile<'_>,
    table: &SymbolTable<'a>,
) -> Result<Vec<ElfSymbol<'a>>, AllocError>
    requires { IsOpen file.now table.now }
    ensures { IfOk result (λ symbols. map symbol_of symbols.items ≡ symbols_in file.now (Some table.now.number)) }
{
    let mut symbols = Vec::new(alloc);
    for m in 1..table.row.entries() {
        symbols.push(symbol(file, table, m))?;
    }
    Ok(symbols)
}

fn symbol<'a>(file: &ElfFile<'_>, table: &SymbolTable<'a>, m: u64) -> ElfSymbol<'a>
    requires table { IsOpen file.now table.now }
    requires row { m < (section_row file.now table.now.number).size / 24 }
    ensures { symbol_of result ≡ symbol_data file.now table.now.number m }
{
    let row = file.symbol_row(table.row.offset, m);
    ElfSymbol {
        name: text_or_empty(table.strings, row.name),
        info: row.info,
        other: row.other,
        shndx: row.shndx,
        value: row.value,
        size: row.size,
    }
}
