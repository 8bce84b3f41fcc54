//! The parts of the file in order, and where they end. Each starts at a multiple of its alignment.

ghost use Rattle.std.specs.Prelude.{[], ◌≡◌, ◌+◌, ◌*◌, ◌≤◌, ◌<◌, ◌^◌, MatchOption, map, length, count_by};
ghost use Rattle.object_core.specs.ElfRows.{elf_table_of, elf_section_type, elf_section_flags, retain_flag};
ghost use Rattle.object_core.specs.Object.{SectionData, is_local, with_texts};
ghost use Rattle.object_elf.specs.Layout.{end_after, start_after, note_part, string_part, symbol_part_with, symbol_table_row, table_parts};
ghost use Rattle.object_elf.specs.PlainCounts.{plain_counts};
ghost use Rattle.object_elf.specs.Limits.{IsWithinLimits};
ghost use Rattle.object_elf.specs.Writing.{has_relocations};
ghost use Rattle.object_elf.specs.PartView.{part_view, content_part_of, relocation_part_of};

use crate::limits::{relocated_count, section_names_size, symbol_names_size};
use crate::symbol_rows::local_count;
use byte_core::align_up;
use object_core::{Object, Section, SectionKind};

/// A section of the file, by the fields of its header but for the places: System V gABI, "Sections".
#[derive(Clone, Copy)]
pub(crate) struct PartHeader<'a> {
    /// What stands before the rest of the name.
    pub(crate) prefix: &'static [u8],
    pub(crate) name: &'a [u8],
    pub(crate) sh_type: u32,
    pub(crate) flags: u64,
    pub(crate) size: u64,
    pub(crate) link: u32,
    pub(crate) info: u32,
    pub(crate) align: u64,
    pub(crate) entsize: u64,
}

/// No part of the object needs an executable stack.
pub(crate) fn stack_note() -> PartHeader<'static>
    ensures { part_view result ≡ note_part }
{
    PartHeader {
        prefix: b"",
        name: b".note.GNU-stack",
        sh_type: 1,
        flags: 0,
        size: 0,
        link: 0,
        info: 0,
        align: 1,
        entsize: 0,
    }
}

/// The header row of the symbol table.
pub(crate) fn row_of_symbol_table(object: &Object) -> u32
    requires { length (object.now).sections + 2 + count_by has_relocations (object.now).sections < 2 ^ 32 }
    ensures { result ≡ length (object.now).sections + 2 + count_by has_relocations (object.now).sections }
{
    (object.sections().len() + 2 + relocated_count(object)) as u32
}

/// The symbol table in this header row, its string section and that of the sections.
pub(crate) fn table_parts(object: &Object, table: u32) -> [PartHeader<'static>; 3]
    requires limits { IsWithinLimits (plain_counts object.now) }
    requires table { table ≡ symbol_table_row (elf_table_of object.now) }
    ensures { map part_view result ≡ table_parts (elf_table_of object.now) }
{
    [
        symbol_part(object, table),
        string_part(b".strtab", symbol_names_size(object) as u64),
        string_part(b".shstrtab", section_names_size(object) as u64),
    ]
}

fn symbol_part(object: &Object, table: u32) -> PartHeader<'static>
    requires symbols { length (object.now).symbols + 1 < 2 ^ 32 }
    requires table { table + 1 < 2 ^ 32 }
    ensures { part_view result ≡ symbol_part_with table (length (object.now).symbols) (1 + count_by is_local (object.now).symbols) }
{
    PartHeader {
        prefix: b"",
        name: b".symtab",
        sh_type: 2,
        flags: 0,
        size: 24 * (object.symbols().len() as u64 + 1),
        link: table + 1,
        info: 1 + local_count(object) as u32,
        align: 8,
        entsize: 24,
    }
}

fn string_part(name: &'static [u8], size: u64) -> PartHeader<'static>
    ensures { part_view result ≡ string_part name.now size }
{
    PartHeader {
        prefix: b"",
        name,
        sh_type: 3,
        flags: 0,
        size,
        link: 0,
        info: 0,
        align: 1,
        entsize: 0,
    }
}

/// Where a part starts behind one that ends here. None past the numbers of 64 bits.
pub(crate) fn start_behind(end: u64, part: &PartHeader<'_>) -> Option<u64>
    ensures { MatchOption result (2 ^ 64 ≤ start_after end (part_view part.now)) (λ start. start ≡ start_after end (part_view part.now)) }
{
    if part.sh_type == 8 {
        return Some(end);
    }
    align_up(end, part.align)
}

/// Where a part ends behind one that ends here. None past the numbers of 64 bits.
pub(crate) fn end_behind(end: u64, part: &PartHeader<'_>) -> Option<u64>
    ensures { MatchOption result (2 ^ 64 ≤ end_after end (part_view part.now)) (λ next. next ≡ end_after end (part_view part.now)) }
{
    if part.sh_type == 8 {
        return Some(end);
    }
    align_up(end, part.align)?.checked_add(part.size)
}

/// The part of a section of this name.
pub(crate) fn content_part<'a>(section: &Section, name: &'a [u8]) -> PartHeader<'a>
    requires { (section.now).size < 2 ^ 64 }
    ensures { part_view result ≡ content_part_of (with_texts [] name.now section.now) }
{
    PartHeader {
        prefix: b"",
        name,
        sh_type: section_type(section.kind()),
        flags: section_flags(section),
        size: section.size() as u64,
        link: 0,
        info: 0,
        align: section.align(),
        entsize: 0,
    }
}

/// The part of the relocations of a section of this name in a header row. They take so many bytes, and the symbol table
/// has the header row `link`.
pub(crate) fn relocation_part(name: &[u8], size: u64, row: u32, link: u32) -> PartHeader<'_>
    ensures { (s : SectionData) → name.now ≡ s.name → size ≡ 24 * length s.relocations → part_view result ≡ relocation_part_of link (row, s) }
{
    PartHeader {
        prefix: b".rela",
        name,
        sh_type: 4,
        flags: 0x40,
        size,
        link,
        info: row,
        align: 8,
        entsize: 24,
    }
}

/// SHT_NOBITS 8 for zeros, else SHT_PROGBITS 1.
fn section_type(kind: SectionKind) -> u32
    ensures { result ≡ elf_section_type kind }
{
    if kind.is_zero_fill() { 8 } else { 1 }
}

/// SHF_WRITE 1, SHF_ALLOC 2, SHF_EXECINSTR 4, SHF_TLS 0x400, SHF_GNU_RETAIN 0x200000.
fn section_flags(section: &Section) -> u64
    ensures { result ≡ elf_section_flags (section.now).kind + retain_flag (section.now).retain }
{
    let flags = match section.kind() {
        SectionKind::Text => 6,
        SectionKind::ReadOnlyData => 2,
        SectionKind::Data | SectionKind::ReadOnlyDataWithRel | SectionKind::UninitializedData => 3,
        SectionKind::Tls | SectionKind::UninitializedTls => 0x403,
    };
    if section.retain() {
        flags + 0x0020_0000
    } else {
        flags
    }
}
