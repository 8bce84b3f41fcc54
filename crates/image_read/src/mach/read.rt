//! Reading of 64-bit Mach-O files.

ghost use Rattle.std.specs.Prelude.{◌≡◌, IfOk, IfErr, IfSome, IfNone, option_map};
ghost use Rattle.image_read.specs.Explains.{ExplainsBy};
ghost use Rattle.image_read.specs.MachFile.{place_of_command};
ghost use Rattle.image_read.specs.MachImage.{IsMach, MachReads, mach_image_of, version_numbers};
ghost use Rattle.image_read.specs.MachRows.{HasMachHeader, IsPlaceOf, AreParts};

use crate::ReadError;
use crate::mach::MachImage;
use crate::mach::commands::commands_of;
use crate::mach::file::MachFile;
use crate::mach::sections::{SectionTable, are_sections, section_table, sections_of};
use crate::mach::symbols::{MachSymbolTable, are_symbols, symbol_table, symbols_of};
use std::alloc::{AllocError, Global};

/// The image of a 64-bit Mach-O file. It is judged before any memory is taken.
pub fn read_mach<'a>(alloc: Global, bytes: &'a [u8]) -> Result<MachImage<'a>, ReadError>
    ensures ok { IfOk result (MachReads bytes.now) }
    ensures cause { IfErr result (ExplainsBy (IsMach bytes.now)) }
{
    let file = MachFile::new(bytes).ok_or(ReadError::NoReading)?;
    let parts = parts_of(&file).ok_or(ReadError::NoReading)?;
    Ok(image_of(alloc, &file, &parts)?)
}

/// The sections, the symbols and the place of the build version, of a file that has an image.
#[derive(Clone, Copy, Debug)]
pub struct MachParts<'a> {
    pub sections: SectionTable,
    pub symbols: MachSymbolTable<'a>,
    pub build_version: Option<usize>,
}

// The parts of a file that has an image, else None.
fn parts_of<'a>(file: &MachFile<'a>) -> Option<MachParts<'a>>
    requires { HasMachHeader file.now }
    ensures found { IfSome result (AreParts file.now) }
    ensures none { IfNone result (IsMach file.now → ⊥) }
{
    let commands = commands_of(file)?;
    let sections = section_table(file, commands.segment);
    let symbols = symbol_table(file, commands.symtab)?;
    if !are_sections(file, &sections, symbols.count)
        || !are_symbols(file, &symbols, sections.count)
    {
        return None;
    }
    Some(MachParts {
        sections,
        symbols,
        build_version: commands.build_version,
    })
}

fn image_of<'a>(
    alloc: Global,
    file: &MachFile<'a>,
    parts: &MachParts<'a>,
) -> Result<MachImage<'a>, AllocError>
    requires { AreParts file.now parts.now }
    ensures { IfOk result (λ image. image ≡ mach_image_of file.now) }
{
    let sections = sections_of(alloc, file, &parts.sections)?;
    let symbols = symbols_of(alloc, file, &parts.symbols)?;
    let build_version = build_version_of(file, parts.build_version);
    Ok(MachImage::new(file, build_version, sections, symbols))
}

fn build_version_of(file: &MachFile<'_>, place: Option<usize>) -> Option<(u32, u32, u32)>
    requires { IsPlaceOf file.now 0x32 place }
    ensures { result ≡ option_map (version_numbers file.now) (place_of_command file.now 0x32) }
{
    match place {
        Some(at) => Some(file.build_version(at)),
        None => None,
    }
}
