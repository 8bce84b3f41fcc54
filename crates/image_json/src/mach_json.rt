//! A Mach-O image as JSON: its rows as lists of numbers, names and contents in hexadecimal.

ghost use Rattle.std.specs.Prelude.{◌≡◌, ◌++◌, OnOk, IfOk, map};
ghost use Rattle.serde_json.specs.Written.{compact_text};
ghost use Rattle.json_form.specs.Written.{list_value};
ghost use Rattle.image_read.specs.MachViews.{mach_symbol_of, mach_relocation_of};
ghost use Rattle.image_json.specs.MachJson.{mach_relocation_value, mach_section_value, mach_symbol_value, mach_text, mach_header_text, mach_numbers_text};

use crate::pieces::{push_comma, push_hex, push_next_flag, push_number, push_numbers};
use image_read::{MachImage, MachReloc64, MachSection, MachSymbol};
use std::alloc::{AllocError, Global};

/// The image as one JSON object without white space: processor, flags, format, sections and symbols.
pub fn mach_text(alloc: Global, image: &MachImage<'_>) -> Result<Vec<u8>, AllocError>
    ensures { IfOk result (λ text. text.items ≡ mach_text image.now) }
{
    let mut out = Vec::new(alloc);
    push_numbers_of(&mut out, image)?;
    out.extend_from_slice(b",\"sections\":")?;
    push_sections(&mut out, image.sections())?;
    out.extend_from_slice(b",\"symbols\":")?;
    push_symbols(&mut out, image.symbols())?;
    out.push(b'}')?;
    Ok(out)
}

/// Appends the members of an image before its sections.
fn push_numbers_of(out: &mut Vec<u8>, image: &MachImage<'_>) -> Result<(), AllocError>
    ensures { OnOk result (out.new.items ≡ out.old.items ++ mach_numbers_text image.now) }
{
    out.extend_from_slice(b"{\"cpu\":[")?;
    push_number(out, u64::from(image.cputype()))?;
    push_numbers(out, &[u64::from(image.cpusubtype())])?;
    out.extend_from_slice(b"],\"flags\":")?;
    push_number(out, u64::from(image.flags()))?;
    out.extend_from_slice(b",\"format\":\"macho\"")?;
    Ok(())
}

fn push_sections(out: &mut Vec<u8>, sections: &[MachSection<'_>]) -> Result<(), AllocError>
    ensures { OnOk result (out.new.items ≡ out.old.items ++ compact_text (list_value mach_section_value sections.now)) }
{
    out.push(b'[')?;
    let mut is_later = false;
    for section in sections {
        push_comma(out, is_later)?;
        push_section(out, section)?;
        is_later = true;
    }
    out.push(b']')?;
    Ok(())
}

fn push_section(out: &mut Vec<u8>, section: &MachSection<'_>) -> Result<(), AllocError>
    ensures { OnOk result (out.new.items ≡ out.old.items ++ compact_text (mach_section_value section.now)) }
{
    push_header(out, section)?;
    out.push(b',')?;
    push_hex(out, section.contents())?;
    out.push(b',')?;
    push_relocations(out, section.relocations())?;
    out.push(b']')?;
    Ok(())
}

/// Appends the start of a section's list: its names and its numbers.
fn push_header(out: &mut Vec<u8>, section: &MachSection<'_>) -> Result<(), AllocError>
    ensures { OnOk result (out.new.items ≡ out.old.items ++ mach_header_text section.now) }
{
    out.push(b'[')?;
    push_hex(out, section.segment())?;
    out.push(b',')?;
    push_hex(out, section.name())?;
    push_numbers(
        out,
        &[
            section.address(),
            u64::from(section.align()),
            u64::from(section.flags()),
            section.size(),
        ],
    )
}

fn push_relocations(out: &mut Vec<u8>, relocations: &[MachReloc64]) -> Result<(), AllocError>
    ensures { OnOk result (out.new.items ≡ out.old.items ++ compact_text (list_value mach_relocation_value (map mach_relocation_of relocations.now))) }
{
    out.push(b'[')?;
    let mut is_later = false;
    for relocation in relocations {
        push_comma(out, is_later)?;
        push_relocation(out, relocation)?;
        is_later = true;
    }
    out.push(b']')?;
    Ok(())
}

fn push_relocation(out: &mut Vec<u8>, relocation: &MachReloc64) -> Result<(), AllocError>
    ensures { OnOk result (out.new.items ≡ out.old.items ++ compact_text (mach_relocation_value (mach_relocation_of relocation.now))) }
{
    out.push(b'[')?;
    push_number(out, u64::from(relocation.address))?;
    push_numbers(out, &[u64::from(relocation.symbolnum)])?;
    push_next_flag(out, relocation.pcrel)?;
    push_numbers(out, &[u64::from(relocation.length)])?;
    push_next_flag(out, relocation.is_extern)?;
    push_numbers(out, &[u64::from(relocation.r_type)])?;
    out.push(b']')?;
    Ok(())
}

fn push_symbols(out: &mut Vec<u8>, symbols: &[MachSymbol<'_>]) -> Result<(), AllocError>
    ensures { OnOk result (out.new.items ≡ out.old.items ++ compact_text (list_value mach_symbol_value (map mach_symbol_of symbols.now))) }
{
    out.push(b'[')?;
    let mut is_later = false;
    for symbol in symbols {
        push_comma(out, is_later)?;
        push_symbol(out, symbol)?;
        is_later = true;
    }
    out.push(b']')?;
    Ok(())
}

fn push_symbol(out: &mut Vec<u8>, symbol: &MachSymbol<'_>) -> Result<(), AllocError>
    ensures { OnOk result (out.new.items ≡ out.old.items ++ compact_text (mach_symbol_value (mach_symbol_of symbol.now))) }
{
    out.push(b'[')?;
    push_hex(out, symbol.name)?;
    push_numbers(
        out,
        &[
            u64::from(symbol.n_type),
            u64::from(symbol.sect),
            u64::from(symbol.desc),
            symbol.value,
        ],
    )?;
    out.push(b']')?;
    Ok(())
}
