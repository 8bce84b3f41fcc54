//! Rows of tables as a file stores them: System V gABI, "Sections", "Symbol Table", "Relocation".

ghost use Rattle.std.specs.Prelude.{◌≡◌, ◌==◌, ◌&&◌, ◌≤◌, ◌+◌, ◌/◌, not, length};
ghost use Rattle.image_read.specs.ElfFile.{section_row_at, symbol_row_at, relocation_row_at};
ghost use Rattle.image_read.specs.ElfRows.{SameSection, SameSymbol};
ghost use Rattle.image_read.specs.Views.{relocation_of};

use crate::elf::ElfReloc;
use byte_core::{u8_field, u16_field, u32_field, u64_field};

pub const SHT_NULL: u32 = 0;

pub const SHT_SYMTAB: u32 = 2;

pub const SHT_STRTAB: u32 = 3;

pub const SHT_RELA: u32 = 4;

pub const SHT_NOBITS: u32 = 8;

pub const SHT_REL: u32 = 9;

/// The size of a symbol and of a relocation, in bytes.
pub const ENTRY_SIZE: u64 = 24;

/// A section header.
#[derive(Clone, Copy, Debug, PartialEq, Eq)]
pub struct SectionRow {
    pub name: u32,
    pub sh_type: u32,
    pub flags: u64,
    pub address: u64,
    pub offset: u64,
    pub size: u64,
    pub link: u32,
    pub info: u32,
    pub align: u64,
    pub entsize: u64,
}

impl SectionRow {
    /// The header in the 64 bytes at `at`.
    #[tactic(auto, unfolding(crate::specs::ElfFile::section_row_at))]
    pub fn at(bytes: &[u8], at: usize) -> SectionRow
        requires { at + 64 ≤ length bytes.now }
        ensures { SameSection result (section_row_at bytes.now at) }
    {
        SectionRow {
            name: u32_field(bytes, at),
            sh_type: u32_field(bytes, at + 4),
            flags: u64_field(bytes, at + 8),
            address: u64_field(bytes, at + 16),
            offset: u64_field(bytes, at + 24),
            size: u64_field(bytes, at + 32),
            link: u32_field(bytes, at + 40),
            info: u32_field(bytes, at + 44),
            align: u64_field(bytes, at + 48),
            entsize: u64_field(bytes, at + 56),
        }
    }

    /// Whether the section has bytes in the file.
    pub fn has_bytes(&self) -> bool
        ensures { result ≡ (not (self.now.sh_type == 0) && not (self.now.sh_type == 8)) }
    {
        self.sh_type != SHT_NULL && self.sh_type != SHT_NOBITS
    }

    /// How many entries of 24 bytes the section has.
    pub fn entries(&self) -> u64
        ensures { result ≡ self.now.size / 24 }
    {
        self.size / ENTRY_SIZE
    }
}

/// A symbol table row.
#[derive(Clone, Copy, Debug, PartialEq, Eq)]
pub struct SymbolRow {
    pub name: u32,
    pub info: u8,
    pub other: u8,
    pub shndx: u16,
    pub value: u64,
    pub size: u64,
}

impl SymbolRow {
    /// The row in the 24 bytes at `at`.
    #[tactic(auto, unfolding(crate::specs::ElfFile::symbol_row_at))]
    pub fn at(bytes: &[u8], at: usize) -> SymbolRow
        requires { at + 24 ≤ length bytes.now }
        ensures { SameSymbol result (symbol_row_at bytes.now at) }
    {
        SymbolRow {
            name: u32_field(bytes, at),
            info: u8_field(bytes, at + 4),
            other: u8_field(bytes, at + 5),
            shndx: u16_field(bytes, at + 6),
            value: u64_field(bytes, at + 8),
            size: u64_field(bytes, at + 16),
        }
    }
}

/// The relocation in the 24 bytes at `at`.
#[tactic(auto, unfolding(crate::specs::ElfFile::relocation_row_at))]
pub fn relocation_at(bytes: &[u8], at: usize) -> ElfReloc
    requires { at + 24 ≤ length bytes.now }
    ensures { relocation_of result ≡ relocation_row_at bytes.now at }
{
    ElfReloc {
        offset: u64_field(bytes, at),
        symbol: u32_field(bytes, at + 12),
        r_type: u32_field(bytes, at + 8),
        addend: u64_field(bytes, at + 16).cast_signed(),
    }
}
