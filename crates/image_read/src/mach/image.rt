//! What a 64-bit Mach-O file is read as: `section_64`, `nlist_64` and `relocation_info`.

ghost use Rattle.std.specs.Prelude.{◌≡◌, map};
ghost use Rattle.image_read.specs.MachRows.{mach_section_with, mach_image_with};
ghost use Rattle.image_read.specs.MachViews.{mach_symbol_of, mach_relocation_of};

use crate::mach::file::MachFile;
use crate::mach::rows::SectionNumbers;
use std::marker::Model;

/// A relocation, its address in bytes from the start of its section.
#[derive(Clone, Copy, Debug, PartialEq, Eq)]
pub struct MachReloc64 {
    pub address: u32,
    /// The symbol's row, or the section's number, counted from 1.
    pub symbolnum: u32,
    /// The field is relative to its place.
    pub pcrel: bool,
    /// The power of two of the field's size in bytes.
    pub length: u8,
    /// `symbolnum` is a symbol's.
    pub is_extern: bool,
    /// The processor's number of its kind.
    pub r_type: u8,
}

/// A symbol, its numbers as the file stores them.
#[derive(Clone, Copy, Debug, PartialEq, Eq)]
pub struct MachSymbol<'a> {
    pub name: &'a [u8],
    pub n_type: u8,
    /// The section's number, counted from 1, or 0.
    pub sect: u8,
    pub desc: u16,
    pub value: u64,
}

/// A section, its numbers as the file stores them. A contract sees it with its texts and bytes as lists.
#[derive(Debug, Drop)]
pub struct MachSection<'a> {
    row: SectionNumbers,
    segment: &'a [u8],
    name: &'a [u8],
    contents: &'a [u8],
    relocations: Vec<MachReloc64>,
}

impl<'a> Model for MachSection<'a> {
    ghost use Rattle.image_read.specs.MachImage.{MachSectionData};

    ghost Value = { MachSectionData };

    ghost use Rattle.image_read.specs.MachSectionView.{mach_section_view};

    ghost view = { mach_section_view };
}

impl<'a> MachSection<'a> {
    /// The section of this header.
    pub(crate) fn new(
        row: SectionNumbers,
        segment: &'a [u8],
        name: &'a [u8],
        contents: &'a [u8],
        relocations: Vec<MachReloc64>,
    ) -> MachSection<'a>
        ensures { result ≡ mach_section_with row segment.now name.now contents.now (map mach_relocation_of relocations.items) }
    {
        MachSection {
            row,
            segment,
            name,
            contents,
            relocations,
        }
    }

    /// The name of its segment.
    pub fn segment(&self) -> &'a [u8]
        ensures { result.now ≡ (self.now).segment }
    {
        self.segment
    }

    /// Its name in the segment.
    pub fn name(&self) -> &'a [u8]
        ensures { result.now ≡ (self.now).name }
    {
        self.name
    }

    /// Its address in memory.
    pub fn address(&self) -> u64
        ensures { result ≡ (self.now).address }
    {
        self.row.address
    }

    /// Its size in bytes, that of a zero-fill section too.
    pub fn size(&self) -> u64
        ensures { result ≡ (self.now).size }
    {
        self.row.size
    }

    /// The alignment of its address, as a power of two.
    pub fn align(&self) -> u32
        ensures { result ≡ (self.now).align }
    {
        self.row.align
    }

    /// Its type in the low byte, and attributes.
    pub fn flags(&self) -> u32
        ensures { result ≡ (self.now).flags }
    {
        self.row.flags
    }

    /// Its bytes, none where it takes none of the file.
    pub fn contents(&self) -> &'a [u8]
        ensures { result.now ≡ (self.now).contents }
    {
        self.contents
    }

    /// Its relocations in the order of the file.
    pub fn relocations(&self) -> &[MachReloc64]
        ensures { map mach_relocation_of result.now ≡ (self.now).relocations }
    {
        &self.relocations
    }
}

/// What a relocatable 64-bit Mach-O file holds. A contract sees it with its rows as lists.
#[derive(Debug, Drop)]
pub struct MachImage<'a> {
    cputype: u32,
    cpusubtype: u32,
    flags: u32,
    build_version: Option<(u32, u32, u32)>,
    sections: Vec<MachSection<'a>>,
    symbols: Vec<MachSymbol<'a>>,
}

impl<'a> Model for MachImage<'a> {
    ghost use Rattle.image_read.specs.MachImage.{MachImageData};

    ghost Value = { MachImageData };

    ghost use Rattle.image_read.specs.MachImageView.{mach_image_view};

    ghost view = { mach_image_view };
}

impl<'a> MachImage<'a> {
    /// The image with these rows.
    pub(crate) fn new(
        file: &MachFile<'a>,
        build_version: Option<(u32, u32, u32)>,
        sections: Vec<MachSection<'a>>,
        symbols: Vec<MachSymbol<'a>>,
    ) -> MachImage<'a>
        ensures { result ≡ mach_image_with file.now build_version sections.entry.items (map mach_symbol_of symbols.entry.items) }
    {
        MachImage {
            cputype: file.cputype(),
            cpusubtype: file.cpusubtype(),
            flags: file.flags(),
            build_version,
            sections,
            symbols,
        }
    }

    /// The processor type.
    pub fn cputype(&self) -> u32
        ensures { result ≡ (self.now).cputype }
    {
        self.cputype
    }

    /// The processor subtype, with its feature bits.
    pub fn cpusubtype(&self) -> u32
        ensures { result ≡ (self.now).cpusubtype }
    {
        self.cpusubtype
    }

    /// The header's flags, `MH_*`.
    pub fn flags(&self) -> u32
        ensures { result ≡ (self.now).flags }
    {
        self.flags
    }

    /// The platform and the encoded least system and SDK versions, where the file tells them.
    pub fn build_version(&self) -> Option<(u32, u32, u32)>
        ensures { result ≡ (self.now).build_version }
    {
        self.build_version
    }

    /// The sections in the order of the file.
    pub fn sections(&self) -> &[MachSection<'a>]
        ensures { result.now ≡ (self.now).sections }
    {
        &self.sections
    }

    /// The symbols in the order of the table, from row 0 on.
    pub fn symbols(&self) -> &[MachSymbol<'a>]
        ensures { map mach_symbol_of result.now ≡ (self.now).symbols }
    {
        &self.symbols
    }
}
