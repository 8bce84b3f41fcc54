//! Sections: System V gABI, "Sections".

ghost use Rattle.std.specs.Prelude.{map, IfOk, OnOk, ◌≡◌, ◌≤◌, ◌<◌, ◌+◌, ◌↔◌, length, IsTrue};
ghost use Rattle.image_read.specs.ElfFile.{header_of, row_numbers};
ghost use Rattle.image_read.specs.ElfImage.{IsElf, IsSection, section_data};
ghost use Rattle.image_read.specs.ElfRows.{EachRow, HoldsStrings, IsPlaced, section_before, stored_row};

use crate::elf::ElfSection;
use crate::elf::file::ElfFile;
use crate::elf::rows::{SHT_REL, SHT_RELA, SectionRow};
use crate::text::{has_text, text_or_empty};
use std::alloc::{AllocError, Global};

/// Whether each section lies in the file, has a name among these, and is no relocation section without addends.
#[tactic(auto, using(crate::proofs::Rows::each_none, crate::proofs::Rows::each_next, crate::proofs::Rows::each_end))]
pub fn are_sections(file: &ElfFile<'_>, names: &[u8]) -> bool
    requires { HoldsStrings file.now (header_of file.now).shstrndx names.now }
    ensures { IsTrue result ↔ EachRow (IsSection file.now) 1 (header_of file.now).shnum }
{
    for k in 1..file.count() {
        if !is_section(file, names, k) {
            return false;
        }
    }
    true
}

fn is_section(file: &ElfFile<'_>, names: &[u8], k: usize) -> bool
    requires names { HoldsStrings file.now (header_of file.now).shstrndx names.now }
    requires row { k < (header_of file.now).shnum }
    ensures { IsTrue result ↔ IsSection file.now k }
{
    let row = file.section_row(k);
    if !is_placed(file, &row) {
        return false;
    }
    row.sh_type != SHT_REL && has_text(names, row.name)
}

// Whether the section lies in the file, where it has bytes there.
fn is_placed(file: &ElfFile<'_>, row: &SectionRow) -> bool
    ensures { IsTrue result ↔ IsPlaced row.now (length file.now) }
{
    !row.has_bytes() || file.has_inside(row)
}

/// The sections from header 1 on, each with its relocations. `names` has the names of sections.
pub fn sections_of<'a>(
    alloc: Global,
    file: &ElfFile<'a>,
    names: &'a [u8],
) -> Result<Vec<ElfSection<'a>>, AllocError>
    requires file { IsElf file.now }
    requires names { HoldsStrings file.now (header_of file.now).shstrndx names.now }
    ensures { IfOk result (λ sections. sections.items ≡ map (section_data file.now) (row_numbers file.now)) }
{
    let mut sections = bare_sections(alloc, file, names)?;
    append_relocations(file, &mut sections)?;
    Ok(sections)
}

// The sections without relocations.
fn bare_sections<'a>(
    alloc: Global,
    file: &ElfFile<'a>,
    names: &'a [u8],
) -> Result<Vec<ElfSection<'a>>, AllocError>
    requires file { IsElf file.now }
    requires names { HoldsStrings file.now (header_of file.now).shstrndx names.now }
    ensures { IfOk result (λ sections. sections.items ≡ map (section_before file.now 1) (row_numbers file.now)) }
{
    let mut sections = Vec::new(alloc);
    for k in 1..file.count() {
        sections.push(bare_section(alloc, file, names, k))?;
    }
    Ok(sections)
}

fn bare_section<'a>(alloc: Global, file: &ElfFile<'a>, names: &'a [u8], k: usize) -> ElfSection<'a>
    requires section { IsSection file.now k }
    requires row { k < (header_of file.now).shnum }
    requires names { HoldsStrings file.now (header_of file.now).shstrndx names.now }
    ensures { result ≡ section_before file.now 1 k }
{
    let row = file.section_row(k);
    let name = text_or_empty(names, row.name);
    let contents = stored_bytes(file, &row);
    ElfSection::new(alloc, row, name, contents)
}

// The bytes of a section in the file, none where it has none there.
fn stored_bytes<'a>(file: &ElfFile<'a>, row: &SectionRow) -> &'a [u8]
    requires { IsPlaced row.now (length file.now) }
    ensures { result.now ≡ stored_row file.now row.now }
{
    if row.has_bytes() {
        file.range(row.offset, row.size)
    } else {
        &[]
    }
}

// Appends the records of each relocation section to those of its section, in the order of headers.
fn append_relocations<'a>(
    file: &ElfFile<'a>,
    sections: &mut [ElfSection<'a>],
) -> Result<(), AllocError>
    requires file { IsElf file.now }
    requires bare { sections.old ≡ map (section_before file.now 1) (row_numbers file.now) }
    ensures { OnOk result (sections.new ≡ map (section_data file.now) (row_numbers file.now)) }
{
    for j in 1..file.count() {
        append_of_section(file, sections, j)?;
    }
    Ok(())
}

// Appends the records of section `j`, where it is a relocation section.
fn append_of_section<'a>(
    file: &ElfFile<'a>,
    sections: &mut [ElfSection<'a>],
    j: usize,
) -> Result<(), AllocError>
    requires file { IsElf file.now }
    requires behind_null { 1 ≤ j }
    requires row { j < (header_of file.now).shnum }
    requires before { sections.old ≡ map (section_before file.now j) (row_numbers file.now) }
    ensures { OnOk result (sections.new ≡ map (section_before file.now (j + 1)) (row_numbers file.now)) }
{
    let row = file.section_row(j);
    if row.sh_type != SHT_RELA {
        return Ok(());
    }
    sections[row.info as usize - 1].append_records(file, j)?;
    Ok(())
}
