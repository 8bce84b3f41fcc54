//! The view of a Mach-O image: Apple's `mach-o/nlist.h`, `mach-o/reloc.h` and `mach-o/x86_64/reloc.h`.

ghost use Rattle.std.specs.Prelude.{◌≡◌, ◌+◌, ◌-◌, ◌^◌, ◌<◌, nat_le, length, IfOk, map, Some, None, if◌then◌else◌};
ghost use Rattle.std.specs.Int.{cast_signed, w32, w64};
ghost use Rattle.image_read.specs.MachFile.{lies_in_section};
ghost use Rattle.image_read.specs.MachViews.{mach_relocation_of, mach_symbol_of};
ghost use Rattle.image_view.specs.View.{field_addend, field_number, is_label_name, mach_kind, mach_view, mach_view_reloc, mach_view_section, mach_view_symbol, plain_name};
ghost use Rattle.image_view.specs.ViewRows.{symbol_seen};

use crate::kind::FixKind;
use crate::view::{View, ViewReloc, ViewSection, ViewSymbol};
use byte_core::{u32_field, u64_field};
use image_read::{MachImage, MachReloc64, MachSection, MachSymbol};
use std::alloc::{AllocError, Global};

const X86_64_RELOC_UNSIGNED: u8 = 0;

const X86_64_RELOC_SIGNED: u8 = 1;

/// The view of a Mach-O image.
#[tactic(auto, unfolding(crate::specs::View::mach_view))]
pub fn mach_view<'a>(alloc: Global, image: &MachImage<'a>) -> Result<View<'a>, AllocError>
    ensures { IfOk result (λ v. v ≡ mach_view image.now) }
{
    let sections = sections_of(alloc, image.sections())?;
    let symbols = symbols_of(alloc, image.symbols())?;
    Ok(View::new(false, sections, symbols))
}

fn sections_of<'a>(
    alloc: Global,
    rows: &[MachSection<'a>],
) -> Result<Vec<ViewSection<'a>>, AllocError>
    ensures { IfOk result (λ v. v.items ≡ map mach_view_section rows.now) }
{
    let mut sections = Vec::new(alloc);
    for row in rows {
        sections.push(section(alloc, row)?)?;
    }
    Ok(sections)
}

fn section<'a>(alloc: Global, row: &MachSection<'a>) -> Result<ViewSection<'a>, AllocError>
    ensures { IfOk result (λ s. s ≡ mach_view_section row.now) }
{
    let contents = row.contents();
    let relocations = relocations(alloc, contents, row.relocations())?;
    Ok(ViewSection::new(row.address(), row.size(), contents, relocations))
}

fn relocations(
    alloc: Global,
    contents: &[u8],
    rows: &[MachReloc64],
) -> Result<Vec<ViewReloc>, AllocError>
    ensures { IfOk result (λ v. v.items ≡ map (mach_view_reloc contents.now) (map mach_relocation_of rows.now)) }
{
    let mut relocations = Vec::new(alloc);
    for row in rows {
        relocations.push(relocation(contents, *row))?;
    }
    Ok(relocations)
}

fn relocation(contents: &[u8], row: MachReloc64) -> ViewReloc
    ensures { result ≡ mach_view_reloc contents.now (mach_relocation_of row) }
{
    let kind = kind_of(row);
    ViewReloc {
        offset: u64::from(row.address),
        symbol: row.symbolnum,
        kind,
        number: u32::from(row.r_type),
        addend: addend(contents, row.address, kind),
    }
}

fn kind_of(row: MachReloc64) -> Option<FixKind>
    ensures { result ≡ mach_kind (mach_relocation_of row) }
{
    if !row.is_extern {
        return None;
    }
    if row.r_type == X86_64_RELOC_UNSIGNED && !row.pcrel && row.length == 3 {
        return Some(FixKind::Absolute8);
    }
    if row.r_type == X86_64_RELOC_UNSIGNED && !row.pcrel && row.length == 2 {
        return Some(FixKind::Absolute4);
    }
    if row.r_type == X86_64_RELOC_SIGNED && row.pcrel && row.length == 2 {
        return Some(FixKind::Relative4);
    }
    None
}

// The number of a field, and what it counts from: the end of a relative one.
fn addend(contents: &[u8], offset: u32, kind: Option<FixKind>) -> i64
    ensures { result ≡ field_addend contents.now offset kind }
{
    match kind {
        None => 0,
        Some(FixKind::Absolute8) => long_number(contents, offset),
        Some(FixKind::Absolute4) => i64::from(short_number(contents, offset)),
        Some(FixKind::Relative4) => i64::from(short_number(contents, offset)) - 4,
    }
}

fn long_number(contents: &[u8], offset: u32) -> i64
    ensures { result ≡ cast_signed w64 (field_number contents.now offset 8) }
{
    let at = offset as usize;
    if !has_field(contents, at, 8) {
        return 0;
    }
    u64_field(contents, at).cast_signed()
}

fn short_number(contents: &[u8], offset: u32) -> i32
    ensures { result ≡ cast_signed w32 (field_number contents.now offset 4) }
{
    let at = offset as usize;
    if !has_field(contents, at, 4) {
        return 0;
    }
    u32_field(contents, at).cast_signed()
}

// Whether a field lies in the bytes of the file.
fn has_field(contents: &[u8], at: usize, width: usize) -> bool
    requires { at + width < 2 ^ 64 }
    ensures { result ≡ nat_le (at + width) (length contents.now) }
{
    at + width <= contents.len()
}

fn symbols_of<'a>(alloc: Global, rows: &[MachSymbol<'a>]) -> Result<Vec<ViewSymbol<'a>>, AllocError>
    ensures { IfOk result (λ v. map symbol_seen v.items ≡ map mach_view_symbol (map mach_symbol_of rows.now)) }
{
    let mut symbols = Vec::new(alloc);
    for row in rows {
        symbols.push(symbol(row))?;
    }
    Ok(symbols)
}

fn symbol<'a>(row: &MachSymbol<'a>) -> ViewSymbol<'a>
    ensures { symbol_seen result ≡ mach_view_symbol (mach_symbol_of row.now) }
{
    let is_inside = is_in_section(row.n_type);
    let is_local = row.n_type % 2 == 0;
    ViewSymbol {
        name: compared_name(row.name),
        section: place_of(is_inside, row.sect),
        address: row.value,
        size: 0,
        is_local,
        is_label: is_inside && is_local && is_label_name(row.name),
    }
}

// It is defined in a section, and no debugging symbol.
fn is_in_section(n_type: u8) -> bool
    ensures { result ≡ lies_in_section n_type }
{
    n_type < 32 && n_type / 2 % 8 == 7
}

fn place_of(is_inside: bool, sect: u8) -> Option<usize>
    ensures { result ≡ (if is_inside then Some (sect - 1) else None) }
{
    if is_inside {
        Some(usize::from(sect).saturating_sub(1))
    } else {
        None
    }
}

fn compared_name(name: &[u8]) -> &[u8]
    ensures { result.now ≡ plain_name name.now }
{
    match name {
        [b'_', rest @ ..] => rest,
        _ => name,
    }
}

fn is_label_name(name: &[u8]) -> bool
    ensures { result ≡ is_label_name name.now }
{
    match name {
        [first, second, ..] => *first == b'.' && *second == b'L',
        _ => false,
    }
}
