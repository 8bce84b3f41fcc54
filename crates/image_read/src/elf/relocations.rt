//! Relocations: System V gABI, "Relocation".

ghost use Rattle.std.specs.Prelude.{◌≡◌, ◌≤◌, ◌<◌, ◌+◌, ◌/◌, ◌↔◌, ◌++◌, map, length, IsTrue, OnOk};
ghost use Rattle.image_read.specs.ElfFile.{header_of, section_row};
ghost use Rattle.image_read.specs.ElfImage.{IsSection, IsRelocations};
ghost use Rattle.image_read.specs.ElfRows.{EachRow, IsTableOf, IsTheTable, AreSoundRelocations, records_of};
ghost use Rattle.image_read.specs.Views.{relocation_of};

use crate::elf::ElfReloc;
use crate::elf::file::ElfFile;
use crate::elf::rows::{ENTRY_SIZE, SHT_RELA};
use crate::elf::symbols::SymbolTable;
use std::alloc::AllocError;

/// Whether each relocation section meets its conditions.
#[tactic(auto, using(crate::proofs::Rows::each_none, crate::proofs::Rows::each_next, crate::proofs::Rows::each_end))]
pub fn are_relocations(file: &ElfFile<'_>, table: Option<SymbolTable<'_>>) -> bool
    requires sections { EachRow (IsSection file.now) 1 (header_of file.now).shnum }
    requires table { IsTableOf file.now table }
    ensures { IsTrue result ↔ EachRow (AreSoundRelocations file.now) 1 (header_of file.now).shnum }
{
    for k in 1..file.count() {
        if !are_sound(file, table, k) {
            return false;
        }
    }
    true
}

fn are_sound(file: &ElfFile<'_>, table: Option<SymbolTable<'_>>, k: usize) -> bool
    requires sections { EachRow (IsSection file.now) 1 (header_of file.now).shnum }
    requires table { IsTableOf file.now table }
    requires behind_null { 1 ≤ k }
    requires row { k < (header_of file.now).shnum }
    ensures { IsTrue result ↔ AreSoundRelocations file.now k }
{
    if file.section_row(k).sh_type != SHT_RELA {
        return true;
    }
    match table {
        Some(table) => are_records(file, &table, k),
        None => false,
    }
}

#[tactic(auto, using(crate::proofs::Rows::each_none, crate::proofs::Rows::each_next, crate::proofs::Rows::each_end))]
fn are_records(file: &ElfFile<'_>, table: &SymbolTable<'_>, k: usize) -> bool
    requires table { IsTheTable file.now table.now }
    requires row { k < (header_of file.now).shnum }
    requires inside { (section_row file.now k).offset + (section_row file.now k).size ≤ length file.now }
    ensures { IsTrue result ↔ IsRelocations file.now k }
{
    let row = file.section_row(k);
    let is_whole = row.entsize == ENTRY_SIZE && row.size % ENTRY_SIZE == 0;
    let info = row.info as usize;
    if !is_whole || row.link as usize != table.number || info < 1 || info >= file.count() {
        return false;
    }
    let symbols = table.row.entries();
    for m in 0..row.entries() {
        let record = file.relocation(row.offset, m);
        if u64::from(record.symbol) >= symbols {
            return false;
        }
    }
    true
}

/// Appends the records of relocation section `j`.
pub fn append_records(
    records: &mut Vec<ElfReloc>,
    file: &ElfFile<'_>,
    j: usize,
) -> Result<(), AllocError>
    requires row { j < (header_of file.now).shnum }
    requires inside { (section_row file.now j).offset + (section_row file.now j).size ≤ length file.now }
    ensures { OnOk result (map relocation_of records.new.items ≡ map relocation_of records.old.items ++ records_of file.now j) }
{
    let row = file.section_row(j);
    let count = row.entries();
    records.reserve(count as usize)?;
    for m in 0..count {
        records.push(file.relocation(row.offset, m))?;
    }
    Ok(())
}
