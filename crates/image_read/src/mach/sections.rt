//! Sections: `section_64`.

ghost use Rattle.std.specs.Prelude.{◌≡◌, ◌≤◌, ◌<◌, ◌+◌, ◌*◌, ◌↔◌, map, length, IsTrue, IfOk};
ghost use Rattle.std.specs.List.{range_with_len};
ghost use Rattle.image_read.specs.ElfRows.{EachRow};
ghost use Rattle.image_read.specs.MachFile.{symtab_of, section_count, mach_section_row};
ghost use Rattle.image_read.specs.MachImage.{IsMachSection, mach_section_data};
ghost use Rattle.image_read.specs.MachRows.{IsPlaceOf, IsSectionTable, IsSoundMachSection, IsMachPlaced, SameMachSection, mach_stored_row};

use crate::mach::MachSection;
use crate::mach::file::MachFile;
use crate::mach::relocations::{are_relocations, relocations_of};
use crate::mach::rows::{RELOCATION_SIZE, SectionNumbers};
use std::alloc::{AllocError, Global};

/// The section headers of a file, one behind the other in the segment's command.
#[derive(Clone, Copy, Debug)]
pub struct SectionTable {
    /// Where the command begins, in bytes from the start of the file.
    pub segment: usize,
    pub count: u32,
}

/// The section headers of the segment that begins at this place. Without one there are none.
pub fn section_table(file: &MachFile<'_>, segment: Option<usize>) -> SectionTable
    requires { IsPlaceOf file.now 0x19 segment }
    ensures { IsSectionTable file.now result }
{
    match segment {
        Some(at) => SectionTable {
            segment: at,
            count: file.nsects(at),
        },
        None => SectionTable {
            segment: 0,
            count: 0,
        },
    }
}

/// Whether each section meets its conditions, in a file of so many symbols.
#[tactic(auto, using(crate::proofs::Rows::each_none, crate::proofs::Rows::each_next, crate::proofs::Rows::each_end))]
pub fn are_sections(file: &MachFile<'_>, table: &SectionTable, symbols: u32) -> bool
    requires table { IsSectionTable file.now table.now }
    requires symbols { symbols ≡ (symtab_of file.now).nsyms }
    ensures { IsTrue result ↔ EachRow (IsSoundMachSection file.now) 0 (section_count file.now) }
{
    for k in 0..table.count {
        if !is_section(file, table, k, symbols) {
            return false;
        }
    }
    true
}

fn is_section(file: &MachFile<'_>, table: &SectionTable, k: u32, symbols: u32) -> bool
    requires table { IsSectionTable file.now table.now }
    requires row { k < section_count file.now }
    requires symbols { symbols ≡ (symtab_of file.now).nsyms }
    ensures { IsTrue result ↔ IsSoundMachSection file.now k }
{
    let row = section_row(file, table, k);
    if !is_placed(file, &row) || !file.has_inside(row.reloff, relocations_size(&row)) {
        return false;
    }
    are_relocations(file, &row, symbols)
}

fn section_row(file: &MachFile<'_>, table: &SectionTable, k: u32) -> SectionNumbers
    requires table { IsSectionTable file.now table.now }
    requires row { k < section_count file.now }
    ensures { SameMachSection result (mach_section_row file.now k) }
{
    file.section_row(file.section_place(table.segment, k))
}

// The size of a section's relocations in bytes.
fn relocations_size(row: &SectionNumbers) -> u64
    ensures { result ≡ 8 * row.now.nreloc }
{
    RELOCATION_SIZE as u64 * u64::from(row.nreloc)
}

// Whether the section lies in the file, where it has bytes there.
fn is_placed(file: &MachFile<'_>, row: &SectionNumbers) -> bool
    ensures { IsTrue result ↔ IsMachPlaced row.now (length file.now) }
{
    !row.has_bytes() || file.has_inside(row.offset, row.size)
}

/// The sections, each with its relocations.
pub fn sections_of<'a>(
    alloc: Global,
    file: &MachFile<'a>,
    table: &SectionTable,
) -> Result<Vec<MachSection<'a>>, AllocError>
    requires table { IsSectionTable file.now table.now }
    requires sections { EachRow (IsSoundMachSection file.now) 0 (section_count file.now) }
    ensures { IfOk result (λ sections. sections.items ≡ map (mach_section_data file.now) (range_with_len 0 (section_count file.now))) }
{
    let mut sections = Vec::with_capacity(alloc, table.count as usize)?;
    for k in 0..table.count {
        let section = section(alloc, file, table, k)?;
        sections.push(section)?;
    }
    Ok(sections)
}

fn section<'a>(
    alloc: Global,
    file: &MachFile<'a>,
    table: &SectionTable,
    k: u32,
) -> Result<MachSection<'a>, AllocError>
    requires table { IsSectionTable file.now table.now }
    requires row { k < section_count file.now }
    requires section { IsMachSection file.now (mach_section_row file.now k) }
    ensures { IfOk result (λ section. section ≡ mach_section_data file.now k) }
{
    let at = file.section_place(table.segment, k);
    let row = file.section_row(at);
    let name = file.section_name(at);
    let segment = file.segment_name(at);
    let contents = stored_bytes(file, &row);
    let relocations = relocations_of(alloc, file, &row)?;
    Ok(MachSection::new(row, segment, name, contents, relocations))
}

// The bytes of a section in the file, none where it has none there.
fn stored_bytes<'a>(file: &MachFile<'a>, row: &SectionNumbers) -> &'a [u8]
    requires { IsMachPlaced row.now (length file.now) }
    ensures { result.now ≡ mach_stored_row file.now row.now }
{
    if row.has_bytes() {
        file.range(row.offset as usize, row.size as usize)
    } else {
        &[]
    }
}
