//! Rows of tables as a file stores them: `load_command`, `symtab_command`, `section_64`, `nlist_64` and `relocation_info`.

ghost use Rattle.std.specs.Prelude.{◌≡◌, ◌==◌, ◌||◌, ◌≤◌, ◌+◌, ◌%◌, not, length};
ghost use Rattle.image_read.specs.MachFile.{command_at, symtab_at, mach_section_row_at, mach_symbol_row_at, relocation_of_words, mach_relocation_row_at};
ghost use Rattle.image_read.specs.MachRows.{SameCommand, SameSymtab, SameMachSection, SameMachSymbol};
ghost use Rattle.image_read.specs.MachViews.{mach_relocation_of};

use crate::mach::MachReloc64;
use byte_core::{u8_field, u16_field, u32_field, u64_field};

const S_ZEROFILL: u32 = 1;

const S_GB_ZEROFILL: u32 = 0xc;

const S_THREAD_LOCAL_ZEROFILL: u32 = 0x12;

/// The size of a segment's command before its section headers, in bytes.
pub const SEGMENT_SIZE: usize = 72;

/// The size of a section header in bytes.
pub const SECTION_SIZE: usize = 80;

/// The size of a symbol in bytes.
pub const SYMBOL_SIZE: usize = 16;

/// The size of a relocation in bytes.
pub const RELOCATION_SIZE: usize = 8;

/// How a load command begins.
#[derive(Clone, Copy, Debug, PartialEq, Eq)]
pub struct CommandRow {
    pub cmd: u32,
    pub cmdsize: u32,
}

impl CommandRow {
    /// The command that begins at `at`.
    #[tactic(auto, unfolding(crate::specs::MachFile::command_at))]
    pub fn at(bytes: &[u8], at: usize) -> CommandRow
        requires { at + 8 ≤ length bytes.now }
        ensures { SameCommand result (command_at bytes.now at) }
    {
        CommandRow {
            cmd: u32_field(bytes, at),
            cmdsize: u32_field(bytes, at + 4),
        }
    }
}

/// The places of the symbols and of their names, with their counts.
#[derive(Clone, Copy, Debug, PartialEq, Eq)]
pub struct SymtabRow {
    pub symoff: u32,
    pub nsyms: u32,
    pub stroff: u32,
    pub strsize: u32,
}

impl SymtabRow {
    /// Of a file without the command.
    pub const NONE: SymtabRow = SymtabRow {
        symoff: 0,
        nsyms: 0,
        stroff: 0,
        strsize: 0,
    };

    /// The command that begins at `at`.
    #[tactic(auto, unfolding(crate::specs::MachFile::symtab_at))]
    pub fn at(bytes: &[u8], at: usize) -> SymtabRow
        requires { at + 24 ≤ length bytes.now }
        ensures { SameSymtab result (symtab_at bytes.now at) }
    {
        SymtabRow {
            symoff: u32_field(bytes, at + 8),
            nsyms: u32_field(bytes, at + 12),
            stroff: u32_field(bytes, at + 16),
            strsize: u32_field(bytes, at + 20),
        }
    }
}

/// The numbers of a section header.
#[derive(Clone, Copy, Debug, PartialEq, Eq)]
pub struct SectionNumbers {
    pub address: u64,
    pub size: u64,
    pub offset: u32,
    pub align: u32,
    pub reloff: u32,
    pub nreloc: u32,
    pub flags: u32,
}

impl SectionNumbers {
    /// Those of the 80 bytes at `at`.
    #[tactic(auto, unfolding(crate::specs::MachFile::mach_section_row_at))]
    pub fn at(bytes: &[u8], at: usize) -> SectionNumbers
        requires { at + 80 ≤ length bytes.now }
        ensures { SameMachSection result (mach_section_row_at bytes.now at) }
    {
        SectionNumbers {
            address: u64_field(bytes, at + 32),
            size: u64_field(bytes, at + 40),
            offset: u32_field(bytes, at + 48),
            align: u32_field(bytes, at + 52),
            reloff: u32_field(bytes, at + 56),
            nreloc: u32_field(bytes, at + 60),
            flags: u32_field(bytes, at + 64),
        }
    }

    /// Whether the section has bytes in the file, by its type in the low byte of the flags.
    pub fn has_bytes(&self) -> bool
        ensures { result ≡ not (self.now.flags % 256 == 1 || self.now.flags % 256 == 0xc || self.now.flags % 256 == 0x12) }
    {
        let kind = self.flags % 256;
        !(kind == S_ZEROFILL || kind == S_GB_ZEROFILL || kind == S_THREAD_LOCAL_ZEROFILL)
    }
}

/// A symbol table row.
#[derive(Clone, Copy, Debug, PartialEq, Eq)]
pub struct SymbolNumbers {
    pub strx: u32,
    pub n_type: u8,
    pub sect: u8,
    pub desc: u16,
    pub value: u64,
}

impl SymbolNumbers {
    /// The row in the 16 bytes at `at`.
    #[tactic(auto, unfolding(crate::specs::MachFile::mach_symbol_row_at))]
    pub fn at(bytes: &[u8], at: usize) -> SymbolNumbers
        requires { at + 16 ≤ length bytes.now }
        ensures { SameMachSymbol result (mach_symbol_row_at bytes.now at) }
    {
        SymbolNumbers {
            strx: u32_field(bytes, at),
            n_type: u8_field(bytes, at + 4),
            sect: u8_field(bytes, at + 5),
            desc: u16_field(bytes, at + 6),
            value: u64_field(bytes, at + 8),
        }
    }
}

/// The relocation in the 8 bytes at `at`.
#[tactic(auto, unfolding(crate::specs::MachFile::mach_relocation_row_at))]
pub fn relocation_at(bytes: &[u8], at: usize) -> MachReloc64
    requires { at + 8 ≤ length bytes.now }
    ensures { mach_relocation_of result ≡ mach_relocation_row_at bytes.now at }
{
    relocation_of_words(u32_field(bytes, at), u32_field(bytes, at + 4))
}

// The second word has the symbol's row in 24 bits, then one bit, two bits, one bit and four bits.
fn relocation_of_words(address: u32, word: u32) -> MachReloc64
    ensures { mach_relocation_of result ≡ relocation_of_words address word }
{
    MachReloc64 {
        address,
        symbolnum: word % (1 << 24),
        pcrel: word / (1 << 24) % 2 == 1,
        length: (word / (1 << 25) % 4) as u8,
        is_extern: word / (1 << 27) % 2 == 1,
        r_type: (word / (1 << 28)) as u8,
    }
}
