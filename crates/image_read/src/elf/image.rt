//! What an ELF64 file is read as: System V gABI, "Sections", "Symbol Table", "Relocation".

ghost use Rattle.std.specs.Prelude.{◌≡◌, ◌+◌, ◌≤◌, ◌<◌, length, map, OnOk};
ghost use Rattle.image_read.specs.ElfFile.{header_of, section_row};
ghost use Rattle.image_read.specs.ElfRows.{records_of, with_records, bare_section, image_with};
ghost use Rattle.image_read.specs.Views.{symbol_of, relocation_of};

use crate::elf::file::ElfFile;
use crate::elf::relocations::append_records;
use crate::elf::rows::SectionRow;
use std::alloc::{AllocError, Global};
use std::marker::Model;

/// A relocation with an addend.
#[derive(Clone, Copy, Debug, PartialEq, Eq)]
pub struct ElfReloc {
    /// The place to relocate, in bytes from the start of its section.
    pub offset: u64,
    /// The row of its symbol in the symbol table, the null symbol counted as 0.
    pub symbol: u32,
    /// The processor's number of its kind.
    pub r_type: u32,
    pub addend: i64,
}

/// A symbol, its numbers as the file stores them.
#[derive(Clone, Copy, Debug, PartialEq, Eq)]
pub struct ElfSymbol<'a> {
    pub name: &'a [u8],
    /// The binding in the upper half, the type in the lower.
    pub info: u8,
    /// The visibility in the two lowest bits.
    pub other: u8,
    /// The section header that the symbol is defined in, 0 where it is undefined, or a reserved number from 0xff00 on.
    pub shndx: u16,
    pub value: u64,
    /// Its size in bytes, 0 where it has none or an unknown one.
    pub size: u64,
}

/// A section, its numbers as the file stores them. A contract sees it with its texts and bytes as lists.
#[derive(Debug, Drop)]
pub struct ElfSection<'a> {
    row: SectionRow,
    name: &'a [u8],
    contents: &'a [u8],
    relocations: Vec<ElfReloc>,
}

impl<'a> Model for ElfSection<'a> {
    ghost use Rattle.image_read.specs.ElfImage.{ElfSectionData};

    ghost Value = { ElfSectionData };

    ghost use Rattle.image_read.specs.SectionView.{section_view};

    ghost view = { section_view };
}

impl<'a> ElfSection<'a> {
    /// The section of this header, without relocations.
    pub(crate) fn new(
        alloc: Global,
        row: SectionRow,
        name: &'a [u8],
        contents: &'a [u8],
    ) -> ElfSection<'a>
        ensures { result ≡ bare_section row name.now contents.now }
    {
        ElfSection {
            row,
            name,
            contents,
            relocations: Vec::new(alloc),
        }
    }

    /// Appends the records of relocation section `j`.
    pub(crate) fn append_records(&mut self, file: &ElfFile<'_>, j: usize) -> Result<(), AllocError>
        requires row { j < (header_of file.now).shnum }
        requires inside { (section_row file.now j).offset + (section_row file.now j).size ≤ length file.now }
        ensures { OnOk result (self.new ≡ with_records self.old (records_of file.now j)) }
    {
        append_records(&mut self.relocations, file, j)
    }

    /// Its name, which another section may have too.
    pub fn name(&self) -> &'a [u8]
        ensures { result.now ≡ (self.now).name }
    {
        self.name
    }

    /// What it holds, as `SHT_PROGBITS` 1.
    pub fn sh_type(&self) -> u32
        ensures { result ≡ (self.now).sh_type }
    {
        self.row.sh_type
    }

    /// How the program uses it, as `SHF_WRITE` 1.
    pub fn flags(&self) -> u64
        ensures { result ≡ (self.now).flags }
    {
        self.row.flags
    }

    /// Its address in memory, 0 where it has none yet.
    pub fn address(&self) -> u64
        ensures { result ≡ (self.now).address }
    {
        self.row.address
    }

    /// Its size in bytes, that of a zero-fill section too.
    pub fn size(&self) -> u64
        ensures { result ≡ (self.now).size }
    {
        self.row.size
    }

    /// A section header that it belongs to, by its type.
    pub fn link(&self) -> u32
        ensures { result ≡ (self.now).link }
    {
        self.row.link
    }

    /// A further number, by its type.
    pub fn info(&self) -> u32
        ensures { result ≡ (self.now).info }
    {
        self.row.info
    }

    /// The alignment of its address in bytes, 0 or 1 where there is none.
    pub fn align(&self) -> u64
        ensures { result ≡ (self.now).align }
    {
        self.row.align
    }

    /// The size of an entry in bytes, 0 where it isn't a table.
    pub fn entsize(&self) -> u64
        ensures { result ≡ (self.now).entsize }
    {
        self.row.entsize
    }

    /// Its bytes, none where it takes none of the file.
    pub fn contents(&self) -> &'a [u8]
        ensures { result.now ≡ (self.now).contents }
    {
        self.contents
    }

    /// The records of all relocation sections for this one, in the order of their headers.
    pub fn relocations(&self) -> &[ElfReloc]
        ensures { map relocation_of result.now ≡ (self.now).relocations }
    {
        &self.relocations
    }
}

/// What a relocatable ELF64 file holds. A contract sees it with its rows as lists.
#[derive(Debug, Drop)]
pub struct ElfImage<'a> {
    machine: u16,
    flags: u32,
    sections: Vec<ElfSection<'a>>,
    symbols: Vec<ElfSymbol<'a>>,
    local_symbols: u32,
}

impl<'a> Model for ElfImage<'a> {
    ghost use Rattle.image_read.specs.ElfImage.{ElfImageData};

    ghost Value = { ElfImageData };

    ghost use Rattle.image_read.specs.ImageView.{image_view};

    ghost view = { image_view };
}

impl<'a> ElfImage<'a> {
    /// The image with these rows.
    pub(crate) fn new(
        file: &ElfFile<'a>,
        sections: Vec<ElfSection<'a>>,
        symbols: Vec<ElfSymbol<'a>>,
        local_symbols: u32,
    ) -> ElfImage<'a>
        ensures { result ≡ image_with file.now sections.entry.items (map symbol_of symbols.entry.items) local_symbols }
    {
        ElfImage {
            machine: file.machine(),
            flags: file.flags(),
            sections,
            symbols,
            local_symbols,
        }
    }

    /// The processor, as `EM_X86_64` 62.
    pub fn machine(&self) -> u16
        ensures { result ≡ (self.now).machine }
    {
        self.machine
    }

    /// The processor's flags.
    pub fn flags(&self) -> u32
        ensures { result ≡ (self.now).flags }
    {
        self.flags
    }

    /// The sections in the order of their headers, from header 1 on.
    pub fn sections(&self) -> &[ElfSection<'a>]
        ensures { result.now ≡ (self.now).sections }
    {
        &self.sections
    }

    /// The symbols in the order of the table, from row 1 on.
    pub fn symbols(&self) -> &[ElfSymbol<'a>]
        ensures { map symbol_of result.now ≡ (self.now).symbols }
    {
        &self.symbols
    }

    /// How many rows of the symbol table are local, the null row counted. 0 where there is no table.
    pub fn local_symbols(&self) -> u32
        ensures { result ≡ (self.now).local_symbols }
    {
        self.local_symbols
    }
}
