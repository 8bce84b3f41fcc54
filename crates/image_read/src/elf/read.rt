//! Reading of ELF64 files.

ghost use Rattle.std.specs.Prelude.{◌≡◌, IfOk, IfErr, IfSome, IfNone, Some};
ghost use Rattle.image_read.specs.ElfFile.{header_of};
ghost use Rattle.image_read.specs.ElfImage.{IsElf, ElfReads, elf_image_of};
ghost use Rattle.image_read.specs.ElfRows.{HoldsStrings, IsTableOf, HasHeader};
ghost use Rattle.image_read.specs.Explains.{ExplainsBy};

use crate::ReadError;
use crate::elf::ElfImage;
use crate::elf::file::ElfFile;
use crate::elf::relocations::are_relocations;
use crate::elf::sections::{are_sections, sections_of};
use crate::elf::strings::strings_of;
use crate::elf::symbols::{SymbolTable, symbols_of, table_of};
use std::alloc::{AllocError, Global};

/// The image of an ELF64 file. It is judged before any memory is taken.
pub fn read_elf<'a>(alloc: Global, bytes: &'a [u8]) -> Result<ElfImage<'a>, ReadError>
    ensures ok { IfOk result (ElfReads bytes.now) }
    ensures cause { IfErr result (ExplainsBy (IsElf bytes.now)) }
{
    let file = ElfFile::new(bytes).ok_or(ReadError::NoReading)?;
    let parts = parts_of(&file).ok_or(ReadError::NoReading)?;
    Ok(image_of(alloc, &file, &parts)?)
}

/// The names of sections, and the symbol table, of a file that has an image.
#[derive(Clone, Copy, Debug)]
pub struct ElfParts<'a> {
    pub names: &'a [u8],
    pub table: Option<SymbolTable<'a>>,
}

// The parts of a file that has an image, else None.
fn parts_of<'a>(file: &ElfFile<'a>) -> Option<ElfParts<'a>>
    requires { HasHeader file.now }
    ensures found { IfSome result (λ _. IsElf file.now) }
    ensures names { IfSome result (λ parts. HoldsStrings file.now (header_of file.now).shstrndx parts.names.now) }
    ensures table { IfSome result (λ parts. IsTableOf file.now parts.table) }
    ensures none { IfNone result (IsElf file.now → ⊥) }
{
    let names = strings_of(file, file.names_number())?;
    if !are_sections(file, names) {
        return None;
    }
    let table = table_of(file)?;
    if !are_relocations(file, table) {
        return None;
    }
    Some(ElfParts { names, table })
}

fn image_of<'a>(
    alloc: Global,
    file: &ElfFile<'a>,
    parts: &ElfParts<'a>,
) -> Result<ElfImage<'a>, AllocError>
    requires file { IsElf file.now }
    requires names { HoldsStrings file.now (header_of file.now).shstrndx parts.now.names.now }
    requires table { IsTableOf file.now parts.now.table }
    ensures { IfOk result (λ image. image ≡ elf_image_of file.now) }
{
    let sections = sections_of(alloc, file, parts.names)?;
    match &parts.table {
        Some(table) => {
            let symbols = symbols_of(alloc, file, table)?;
            Ok(ElfImage::new(file, sections, symbols, table.row.info))
        }
        None => Ok(ElfImage::new(file, sections, Vec::new(alloc), 0)),
    }
}
