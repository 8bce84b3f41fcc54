//! An ELF64 file whose header stands, and whose section headers lie in it: System V gABI, "ELF Header".

ghost use Rattle.std.specs.Prelude.{◌≡◌, ◌≤◌, ◌<◌, ◌+◌, ◌*◌, ◌↔◌, nat_le, length, IsTrue, IsSome, IfSome};
ghost use Rattle.byte_core.specs.Number.{bytes_at};
ghost use Rattle.image_read.specs.ElfFile.{header_of, section_row, symbol_row_at, relocation_row_at};
ghost use Rattle.image_read.specs.ElfRows.{HasHeader, SameSection, SameSymbol};
ghost use Rattle.image_read.specs.Views.{relocation_of};

use crate::elf::ElfReloc;
use crate::elf::rows::{ENTRY_SIZE, SectionRow, SymbolRow, relocation_at};
use byte_core::{u16_field, u32_field, u64_field};
use std::marker::Model;

const HEADER_SIZE: usize = 64;

const SECTION_ROW_SIZE: usize = 64;
// The magic number, ELFCLASS64, ELFDATA2LSB and EV_CURRENT.
const IDENT: [u8; 7] = [0x7f, 0x45, 0x4c, 0x46, 2, 1, 1];

/// A file with its header. A contract sees the bytes of the file.
#[derive(Debug, Drop)]
pub struct ElfFile<'a> {
    bytes: &'a [u8],
    machine: u16,
    flags: u32,
    shoff: usize,
    shnum: usize,
    shstrndx: usize,
}

impl<'a> Model for ElfFile<'a> {
    ghost use Rattle.std.specs.Prelude.{List, ℕ};
    ghost use Rattle.image_read.specs.FileView.{IsFile};

    ghost Value = { List ℕ };

    ghost view = { λ file. file.bytes.now };

    ghost invariant = { IsFile };
}

impl<'a> ElfFile<'a> {
    /// The file with its header, None where the header or the section headers don't stand.
    #[tactic(auto, unfolding(crate::specs::ElfFile::header_of))]
    pub fn new(bytes: &'a [u8]) -> Option<ElfFile<'a>>
        ensures bytes { IfSome result (λ file. file ≡ bytes.now) }
        ensures exact { IsSome result ↔ HasHeader bytes.now }
    {
        if !has_header(bytes) {
            return None;
        }
        Some(ElfFile {
            bytes,
            machine: u16_field(bytes, 18),
            flags: u32_field(bytes, 48),
            shoff: u64_field(bytes, 40) as usize,
            shnum: usize::from(u16_field(bytes, 60)),
            shstrndx: usize::from(u16_field(bytes, 62)),
        })
    }

    /// The processor.
    pub fn machine(&self) -> u16
        ensures { result ≡ (header_of self.now).machine }
    {
        self.machine
    }

    /// The processor's flags.
    pub fn flags(&self) -> u32
        ensures { result ≡ (header_of self.now).flags }
    {
        self.flags
    }

    /// How many section headers there are, the null header counted.
    pub fn count(&self) -> usize
        ensures value { result ≡ (header_of self.now).shnum }
        ensures some { 1 ≤ result }
    {
        self.shnum
    }

    /// The number of the section whose texts are the names of sections.
    pub fn names_number(&self) -> usize
        ensures { result ≡ (header_of self.now).shstrndx }
    {
        self.shstrndx
    }

    /// Section header `k`.
    pub fn section_row(&self, k: usize) -> SectionRow
        requires { k < (header_of self.now).shnum }
        ensures { SameSection result (section_row self.now k) }
    {
        SectionRow::at(self.bytes, self.shoff + SECTION_ROW_SIZE * k)
    }

    /// Row `m` of the symbol table at `offset`.
    pub fn symbol_row(&self, offset: u64, m: u64) -> SymbolRow
        requires { offset + 24 * m + 24 ≤ length self.now }
        ensures { SameSymbol result (symbol_row_at self.now (offset + 24 * m)) }
    {
        SymbolRow::at(self.bytes, (offset + ENTRY_SIZE * m) as usize)
    }

    /// Record `m` of the relocation section at `offset`.
    pub fn relocation(&self, offset: u64, m: u64) -> ElfReloc
        requires { offset + 24 * m + 24 ≤ length self.now }
        ensures { relocation_of result ≡ relocation_row_at self.now (offset + 24 * m) }
    {
        relocation_at(self.bytes, (offset + ENTRY_SIZE * m) as usize)
    }

    /// Whether the bytes of a section lie in the file.
    pub fn has_inside(&self, row: &SectionRow) -> bool
        ensures { result ≡ nat_le (row.now.offset + row.now.size) (length self.now) }
    {
        let len = self.bytes.len() as u64;
        row.size <= len && row.offset <= len - row.size
    }

    /// The `size` bytes at `offset`, which lie in the file.
    #[tactic(auto, unfolding(byte_core::specs::Number::bytes_at))]
    pub fn range(&self, offset: u64, size: u64) -> &'a [u8]
        requires { offset + size ≤ length self.now }
        ensures { result.now ≡ bytes_at self.now offset size }
    {
        let bytes = self.bytes;
        let start = offset as usize;
        &bytes[start..start + size as usize]
    }
}

// The header is one that this reader knows, and the section headers lie in the file.
#[tactic(auto, unfolding(crate::specs::ElfFile::header_of, byte_core::specs::Number::bytes_at))]
fn has_header(bytes: &[u8]) -> bool
    ensures { IsTrue result ↔ HasHeader bytes.now }
{
    bytes.len() >= HEADER_SIZE
        && bytes.starts_with(&IDENT)
        && u16_field(bytes, 16) == 1
        && u16_field(bytes, 52) == 64
        && u16_field(bytes, 58) == 64
        && has_rows(bytes)
}

#[tactic(auto, unfolding(crate::specs::ElfFile::header_of))]
fn has_rows(bytes: &[u8]) -> bool
    requires { 64 ≤ length bytes.now }
    ensures { IsTrue result ↔ ((1 ≤ (header_of bytes.now).shnum) × ((header_of bytes.now).shoff + 64 * (header_of bytes.now).shnum ≤ length bytes.now)) }
{
    let shoff = u64_field(bytes, 40) as usize;
    let shnum = usize::from(u16_field(bytes, 60));
    let size = SECTION_ROW_SIZE * shnum;
    shnum >= 1 && size <= bytes.len() && shoff <= bytes.len() - size
}
