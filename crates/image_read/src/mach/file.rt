//! A 64-bit Mach-O file whose header stands, and whose load commands lie in it: `mach_header_64`.

ghost use Rattle.std.specs.Prelude.{◌≡◌, ◌≤◌, ◌+◌, ◌*◌, ◌↔◌, nat_le, length, IsTrue, IsSome, IfSome};
ghost use Rattle.byte_core.specs.Number.{bytes_at};
ghost use Rattle.byte_core.specs.Strings.{before_zero};
ghost use Rattle.image_read.specs.MachFile.{mach_header_of, commands_end, command_at, segment_at, symtab_at, mach_section_row_at, mach_symbol_row_at, mach_relocation_row_at};
ghost use Rattle.image_read.specs.MachImage.{version_numbers};
ghost use Rattle.image_read.specs.MachRows.{HasMachHeader, SameCommand, SameSymtab, SameMachSection, SameMachSymbol};
ghost use Rattle.image_read.specs.MachViews.{mach_relocation_of};

use crate::mach::MachReloc64;
use crate::mach::rows::{
    CommandRow, SECTION_SIZE, SEGMENT_SIZE, SectionNumbers, SymbolNumbers, SymtabRow, relocation_at,
};
use crate::text::before_zero;
use byte_core::u32_field;
use std::marker::Model;

/// The size of the header in bytes; the load commands stand behind it.
pub const HEADER_SIZE: usize = 32;

// MH_MAGIC_64, the lowest byte first.
const MAGIC: [u8; 4] = [0xcf, 0xfa, 0xed, 0xfe];

const MH_OBJECT: u32 = 1;

// The bytes of a name of a section or a segment.
const NAME_SIZE: usize = 16;

/// A file whose header stands. A contract sees the bytes of the file.
#[derive(Debug, Drop)]
pub struct MachFile<'a> {
    bytes: &'a [u8],
}

impl<'a> Model for MachFile<'a> {
    ghost use Rattle.std.specs.Prelude.{List, ℕ};
    ghost use Rattle.image_read.specs.MachFileView.{IsMachFile};

    ghost Value = { List ℕ };

    ghost view = { λ file. file.bytes.now };

    ghost invariant = { IsMachFile };
}

impl<'a> MachFile<'a> {
    /// The file, None where the header doesn't stand or the load commands leave the file.
    pub fn new(bytes: &'a [u8]) -> Option<MachFile<'a>>
        ensures bytes { IfSome result (λ file. file ≡ bytes.now) }
        ensures exact { IsSome result ↔ HasMachHeader bytes.now }
    {
        if !has_header(bytes) {
            return None;
        }
        Some(MachFile { bytes })
    }

    /// The processor type.
    #[tactic(auto, unfolding(crate::specs::MachFile::mach_header_of))]
    pub fn cputype(&self) -> u32
        ensures { result ≡ (mach_header_of self.now).cputype }
    {
        u32_field(self.bytes, 4)
    }

    /// The processor subtype.
    #[tactic(auto, unfolding(crate::specs::MachFile::mach_header_of))]
    pub fn cpusubtype(&self) -> u32
        ensures { result ≡ (mach_header_of self.now).cpusubtype }
    {
        u32_field(self.bytes, 8)
    }

    /// How many load commands there are.
    #[tactic(auto, unfolding(crate::specs::MachFile::mach_header_of))]
    pub fn ncmds(&self) -> u32
        ensures { result ≡ (mach_header_of self.now).ncmds }
    {
        u32_field(self.bytes, 16)
    }

    /// Where the load commands end.
    #[tactic(auto, unfolding(crate::specs::MachFile::mach_header_of))]
    pub fn commands_end(&self) -> usize
        ensures value { result ≡ commands_end self.now }
        ensures inside { result ≤ length self.now }
    {
        HEADER_SIZE + u32_field(self.bytes, 20) as usize
    }

    /// The header's flags.
    #[tactic(auto, unfolding(crate::specs::MachFile::mach_header_of))]
    pub fn flags(&self) -> u32
        ensures { result ≡ (mach_header_of self.now).flags }
    {
        u32_field(self.bytes, 24)
    }

    /// How the load command at `at` begins.
    pub fn command(&self, at: usize) -> CommandRow
        requires { at + 8 ≤ length self.now }
        ensures { SameCommand result (command_at self.now at) }
    {
        CommandRow::at(self.bytes, at)
    }

    /// Where the load command at `at` ends, and the next one begins.
    pub fn next_command(&self, at: usize) -> usize
        requires start { at + 8 ≤ length self.now }
        requires inside { at + (command_at self.now at).cmdsize ≤ length self.now }
        ensures { result ≡ at + (command_at self.now at).cmdsize }
    {
        let bytes = self.bytes;
        at + CommandRow::at(bytes, at).cmdsize as usize
    }

    /// How many sections the segment at `at` has.
    #[tactic(auto, unfolding(crate::specs::MachFile::segment_at))]
    pub fn nsects(&self, at: usize) -> u32
        requires { at + 72 ≤ length self.now }
        ensures { result ≡ (segment_at self.now at).nsects }
    {
        u32_field(self.bytes, at + 64)
    }

    /// What the symbol table's command at `at` tells.
    pub fn symtab(&self, at: usize) -> SymtabRow
        requires { at + 24 ≤ length self.now }
        ensures { SameSymtab result (symtab_at self.now at) }
    {
        SymtabRow::at(self.bytes, at)
    }

    /// The platform and the encoded least system and SDK versions that the command at `at` tells.
    #[tactic(auto, unfolding(crate::specs::MachFile::build_version_at))]
    pub fn build_version(&self, at: usize) -> (u32, u32, u32)
        requires { at + 24 ≤ length self.now }
        ensures { result ≡ version_numbers self.now at }
    {
        let bytes = self.bytes;
        (
            u32_field(bytes, at + 8),
            u32_field(bytes, at + 12),
            u32_field(bytes, at + 16),
        )
    }

    /// Where header `k` of the segment at `segment` begins.
    pub fn section_place(&self, segment: usize, k: u32) -> usize
        requires { segment + 72 + 80 * k ≤ length self.now }
        ensures { result ≡ segment + 72 + 80 * k }
    {
        let bytes = self.bytes;
        segment + SEGMENT_SIZE + SECTION_SIZE * k as usize
    }

    /// The numbers of the section header at `at`.
    pub fn section_row(&self, at: usize) -> SectionNumbers
        requires { at + 80 ≤ length self.now }
        ensures { SameMachSection result (mach_section_row_at self.now at) }
    {
        SectionNumbers::at(self.bytes, at)
    }

    /// The name of the section whose header stands at `at`.
    #[tactic(auto, unfolding(crate::specs::MachFile::mach_section_row_at))]
    pub fn section_name(&self, at: usize) -> &'a [u8]
        requires { at + 80 ≤ length self.now }
        ensures { result.now ≡ before_zero (mach_section_row_at self.now at).name }
    {
        before_zero(self.range(at, NAME_SIZE))
    }

    /// The name of its segment.
    #[tactic(auto, unfolding(crate::specs::MachFile::mach_section_row_at, byte_core::specs::Number::bytes_at))]
    pub fn segment_name(&self, at: usize) -> &'a [u8]
        requires { at + 80 ≤ length self.now }
        ensures { result.now ≡ before_zero (mach_section_row_at self.now at).segment }
    {
        let bytes = self.bytes;
        before_zero(&bytes[at + NAME_SIZE..at + 2 * NAME_SIZE])
    }

    /// The symbol at `at`.
    pub fn symbol_row(&self, at: usize) -> SymbolNumbers
        requires { at + 16 ≤ length self.now }
        ensures { SameMachSymbol result (mach_symbol_row_at self.now at) }
    {
        SymbolNumbers::at(self.bytes, at)
    }

    /// The relocation at `at`.
    pub fn relocation(&self, at: usize) -> MachReloc64
        requires { at + 8 ≤ length self.now }
        ensures { mach_relocation_of result ≡ mach_relocation_row_at self.now at }
    {
        relocation_at(self.bytes, at)
    }

    /// Whether so many bytes from `offset` on lie in the file.
    pub fn has_inside(&self, offset: u32, size: u64) -> bool
        ensures { result ≡ nat_le (offset + size) (length self.now) }
    {
        let len = self.bytes.len() as u64;
        size <= len && u64::from(offset) <= len - size
    }

    /// The `size` bytes at `start`.
    #[tactic(auto, unfolding(byte_core::specs::Number::bytes_at))]
    pub fn range(&self, start: usize, size: usize) -> &'a [u8]
        requires { start + size ≤ length self.now }
        ensures { result.now ≡ bytes_at self.now start size }
    {
        let bytes = self.bytes;
        &bytes[start..start + size]
    }
}

// The header is that of a little-endian object, and the load commands lie in the file.
#[tactic(auto, unfolding(crate::specs::MachFile::mach_header_of, byte_core::specs::Number::bytes_at))]
fn has_header(bytes: &[u8]) -> bool
    ensures { IsTrue result ↔ HasMachHeader bytes.now }
{
    bytes.len() >= HEADER_SIZE
        && bytes.starts_with(&MAGIC)
        && u32_field(bytes, 12) == MH_OBJECT
        && u32_field(bytes, 20) as usize <= bytes.len() - HEADER_SIZE
}
