//! The view of an ELF image: System V gABI, "Symbol Table", and psABI for AMD64, "Relocation".

ghost use Rattle.std.specs.Prelude.{◌≡◌, ◌∷◌, IfOk, map};
ghost use Rattle.image_read.specs.Views.{relocation_of, symbol_of};
ghost use Rattle.image_view.specs.View.{elf_kind, elf_view, elf_view_reloc, elf_view_section, elf_view_symbol, elf_place, null_symbol};
ghost use Rattle.image_view.specs.ViewRows.{symbol_seen};

use crate::kind::FixKind;
use crate::view::{View, ViewReloc, ViewSection, ViewSymbol};
use image_read::{ElfImage, ElfReloc, ElfSection, ElfSymbol};
use std::alloc::{AllocError, Global};

const R_X86_64_64: u32 = 1;

const R_X86_64_PC32: u32 = 2;

const R_X86_64_32: u32 = 10;

const SHN_LORESERVE: u16 = 0xff00;

/// The view of an ELF image.
#[tactic(auto, unfolding(crate::specs::View::elf_view))]
pub fn elf_view<'a>(alloc: Global, image: &ElfImage<'a>) -> Result<View<'a>, AllocError>
    ensures { IfOk result (λ v. v ≡ elf_view image.now) }
{
    let sections = sections_of(alloc, image.sections())?;
    let symbols = symbols_of(alloc, image.sections().len(), image.symbols())?;
    Ok(View::new(true, sections, symbols))
}

fn sections_of<'a>(
    alloc: Global,
    rows: &[ElfSection<'a>],
) -> Result<Vec<ViewSection<'a>>, AllocError>
    ensures { IfOk result (λ v. v.items ≡ map elf_view_section rows.now) }
{
    let mut sections = Vec::new(alloc);
    for row in rows {
        sections.push(section(alloc, row)?)?;
    }
    Ok(sections)
}

fn section<'a>(alloc: Global, row: &ElfSection<'a>) -> Result<ViewSection<'a>, AllocError>
    ensures { IfOk result (λ s. s ≡ elf_view_section row.now) }
{
    let relocations = relocations(alloc, row.relocations())?;
    Ok(ViewSection::new(0, row.size(), row.contents(), relocations))
}

fn relocations(alloc: Global, rows: &[ElfReloc]) -> Result<Vec<ViewReloc>, AllocError>
    ensures { IfOk result (λ v. v.items ≡ map elf_view_reloc (map relocation_of rows.now)) }
{
    let mut relocations = Vec::new(alloc);
    for row in rows {
        relocations.push(relocation(*row))?;
    }
    Ok(relocations)
}

fn relocation(row: ElfReloc) -> ViewReloc
    ensures { result ≡ elf_view_reloc (relocation_of row) }
{
    ViewReloc {
        offset: row.offset,
        symbol: row.symbol,
        kind: kind_of(row.r_type),
        number: row.r_type,
        addend: row.addend,
    }
}

fn kind_of(r_type: u32) -> Option<FixKind>
    ensures { result ≡ elf_kind r_type }
{
    match r_type {
        R_X86_64_64 => Some(FixKind::Absolute8),
        R_X86_64_32 => Some(FixKind::Absolute4),
        R_X86_64_PC32 => Some(FixKind::Relative4),
        _ => None,
    }
}

// The null row, then the others.
fn symbols_of<'a>(
    alloc: Global,
    count: usize,
    rows: &[ElfSymbol<'a>],
) -> Result<Vec<ViewSymbol<'a>>, AllocError>
    ensures { IfOk result (λ v. map symbol_seen v.items ≡ null_symbol ∷ map (elf_view_symbol count) (map symbol_of rows.now)) }
{
    let mut symbols = Vec::new(alloc);
    symbols.push(no_symbol())?;
    for row in rows {
        symbols.push(symbol(count, row))?;
    }
    Ok(symbols)
}

fn no_symbol<'a>() -> ViewSymbol<'a>
    ensures { symbol_seen result ≡ null_symbol }
{
    ViewSymbol {
        name: &[],
        section: None,
        address: 0,
        size: 0,
        is_local: true,
        is_label: false,
    }
}

fn symbol<'a>(count: usize, row: &ElfSymbol<'a>) -> ViewSymbol<'a>
    ensures { symbol_seen result ≡ elf_view_symbol count (symbol_of row.now) }
{
    let section = place_of(count, row.shndx);
    let is_local = row.info / 16 == 0;
    ViewSymbol {
        name: row.name,
        section,
        address: row.value,
        size: row.size,
        is_local,
        is_label: section.is_some() && is_local && row.info % 16 == 0,
    }
}

// The number of the section, from 0, of a file with so many.
fn place_of(count: usize, shndx: u16) -> Option<usize>
    ensures { result ≡ elf_place count shndx }
{
    if 1 <= shndx && usize::from(shndx) <= count && shndx < SHN_LORESERVE {
        Some(usize::from(shndx) - 1)
    } else {
        None
    }
}
