//! An ELF image as JSON: its rows as lists of numbers, names and contents in hexadecimal.

ghost use Rattle.std.specs.Prelude.{◌≡◌, ◌++◌, OnOk, IfOk, map};
ghost use Rattle.serde_json.specs.Written.{compact_text};
ghost use Rattle.json_form.specs.Written.{list_value};
ghost use Rattle.image_read.specs.Views.{symbol_of, relocation_of};
ghost use Rattle.image_json.specs.ElfJson.{relocation_value, section_value, symbol_value, elf_text, header_text, numbers_text};

use crate::pieces::{push_comma, push_hex, push_integer, push_number, push_numbers};
use image_read::{ElfImage, ElfReloc, ElfSection, ElfSymbol};
use std::alloc::{AllocError, Global};

/// The image as one JSON object without white space: flags, format, number of local symbols, machine, sections and symbols.
pub fn elf_text(alloc: Global, image: &ElfImage<'_>) -> Result<Vec<u8>, AllocError>
    ensures { IfOk result (λ text. text.items ≡ elf_text image.now) }
{
    let mut out = Vec::new(alloc);
    push_numbers_of(&mut out, image)?;
    out.extend_from_slice(b",\"sections\":")?;
    push_sections(&mut out, image.sections())?;
    out.extend_from_slice(b",\"symbols\":")?;
    push_symbols(&mut out, image.symbols())?;
    out.push(b'}')?;
    Ok(out)
}

/// Appends the members of an image before its sections.
fn push_numbers_of(out: &mut Vec<u8>, image: &ElfImage<'_>) -> Result<(), AllocError>
    ensures { OnOk result (out.new.items ≡ out.old.items ++ numbers_text image.now) }
{
    out.extend_from_slice(b"{\"flags\":")?;
    push_number(out, u64::from(image.flags()))?;
    out.extend_from_slice(b",\"format\":\"elf\",\"local_symbols\":")?;
    push_number(out, u64::from(image.local_symbols()))?;
    out.extend_from_slice(b",\"machine\":")?;
    push_number(out, u64::from(image.machine()))?;
    Ok(())
}

fn push_sections(out: &mut Vec<u8>, sections: &[ElfSection<'_>]) -> Result<(), AllocError>
    ensures { OnOk result (out.new.items ≡ out.old.items ++ compact_text (list_value section_value sections.now)) }
{
    out.push(b'[')?;
    let mut is_later = false;
    for section in sections {
        push_comma(out, is_later)?;
        push_section(out, section)?;
        is_later = true;
    }
    out.push(b']')?;
    Ok(())
}

fn push_section(out: &mut Vec<u8>, section: &ElfSection<'_>) -> Result<(), AllocError>
    ensures { OnOk result (out.new.items ≡ out.old.items ++ compact_text (section_value section.now)) }
{
    push_header(out, section)?;
    out.push(b',')?;
    push_hex(out, section.contents())?;
    out.push(b',')?;
    push_relocations(out, section.relocations())?;
    out.push(b']')?;
    Ok(())
}

/// Appends the start of a section's list: its name and its numbers.
fn push_header(out: &mut Vec<u8>, section: &ElfSection<'_>) -> Result<(), AllocError>
    ensures { OnOk result (out.new.items ≡ out.old.items ++ header_text section.now) }
{
    out.push(b'[')?;
    push_hex(out, section.name())?;
    push_numbers(
        out,
        &[
            u64::from(section.sh_type()),
            section.flags(),
            section.align(),
            section.size(),
        ],
    )
}

fn push_relocations(out: &mut Vec<u8>, relocations: &[ElfReloc]) -> Result<(), AllocError>
    ensures { OnOk result (out.new.items ≡ out.old.items ++ compact_text (list_value relocation_value (map relocation_of relocations.now))) }
{
    out.push(b'[')?;
    let mut is_later = false;
    for relocation in relocations {
        push_comma(out, is_later)?;
        push_relocation(out, relocation)?;
        is_later = true;
    }
    out.push(b']')?;
    Ok(())
}

fn push_relocation(out: &mut Vec<u8>, relocation: &ElfReloc) -> Result<(), AllocError>
    ensures { OnOk result (out.new.items ≡ out.old.items ++ compact_text (relocation_value (relocation_of relocation.now))) }
{
    out.push(b'[')?;
    push_number(out, relocation.offset)?;
    push_numbers(
        out,
        &[u64::from(relocation.symbol), u64::from(relocation.r_type)],
    )?;
    out.push(b',')?;
    push_integer(out, relocation.addend)?;
    out.push(b']')?;
    Ok(())
}

fn push_symbols(out: &mut Vec<u8>, symbols: &[ElfSymbol<'_>]) -> Result<(), AllocError>
    ensures { OnOk result (out.new.items ≡ out.old.items ++ compact_text (list_value symbol_value (map symbol_of symbols.now))) }
{
    out.push(b'[')?;
    let mut is_later = false;
    for symbol in symbols {
        push_comma(out, is_later)?;
        push_symbol(out, symbol)?;
        is_later = true;
    }
    out.push(b']')?;
    Ok(())
}

fn push_symbol(out: &mut Vec<u8>, symbol: &ElfSymbol<'_>) -> Result<(), AllocError>
    ensures { OnOk result (out.new.items ≡ out.old.items ++ compact_text (symbol_value (symbol_of symbol.now))) }
{
    out.push(b'[')?;
    push_hex(out, symbol.name)?;
    push_numbers(
        out,
        &[
            u64::from(symbol.info),
            u64::from(symbol.other),
            u64::from(symbol.shndx),
            symbol.value,
            symbol.size,
        ],
    )?;
    out.push(b']')?;
    Ok(())
}
