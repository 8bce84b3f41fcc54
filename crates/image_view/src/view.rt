//! What placement sees of an object, whatever its format. A linker sees the same.

ghost use Rattle.std.specs.Prelude.{◌≡◌, map};
ghost use Rattle.image_view.specs.ViewRows.{symbol_seen};
ghost use Rattle.image_view.specs.View.{filled, section_with, view_with};

use crate::kind::FixKind;
use std::marker::Model;

/// A symbol.
#[derive(Clone, Copy)]
pub struct ViewSymbol<'a> {
    /// Its name as it is compared: in Mach-O without one leading underscore.
    pub name: &'a [u8],
    /// The number of its section, from 0, where it lies in one.
    pub section: Option<usize>,
    /// The address that the file stores, in bytes.
    pub address: u64,
    /// Its size in bytes, 0 in Mach-O, which stores none.
    pub size: u64,
    /// Only its own object sees it.
    pub is_local: bool,
    /// It is a place inside a definition.
    pub is_label: bool,
}

/// A relocation of a section.
#[derive(Clone, Copy)]
pub struct ViewReloc {
    /// The place of its field, in bytes from the start of the section.
    pub offset: u64,
    /// The row of its symbol.
    pub symbol: u32,
    /// Its kind, where it is one that is applied.
    pub kind: Option<FixKind>,
    /// The number of its kind in the file.
    pub number: u32,
    pub addend: i64,
}

/// A section. A contract sees it with its bytes, which are zeros where the file has none of it.
#[derive(Drop)]
pub struct ViewSection<'a> {
    start: u64,
    size: u64,
    contents: &'a [u8],
    relocations: Vec<ViewReloc>,
}

impl<'a> Model for ViewSection<'a> {
    ghost use Rattle.image_view.specs.View.{ViewSection};

    ghost Value = { ViewSection };

    ghost use Rattle.image_view.specs.SectionSeen.{section_seen};

    ghost view = { section_seen };
}

impl<'a> ViewSection<'a> {
    /// A section with these bytes of the file, none where they are zeros.
    pub(crate) fn new(
        start: u64,
        size: u64,
        contents: &'a [u8],
        relocations: Vec<ViewReloc>,
    ) -> ViewSection<'a>
        ensures { result ≡ section_with start size contents.now relocations.items }
    {
        ViewSection {
            start,
            size,
            contents,
            relocations,
        }
    }

    /// The address where it begins in the file's own numbers, in bytes.
    pub fn start(&self) -> u64
        ensures { result ≡ (self.now).start }
    {
        self.start
    }

    /// Its size in bytes.
    pub fn size(&self) -> u64
        ensures { result ≡ (self.now).size }
    {
        self.size
    }

    /// The bytes that the file has of it: none where they are zeros.
    pub fn contents(&self) -> &'a [u8]
        ensures { (self.now).bytes ≡ filled (self.now).size result.now }
    {
        self.contents
    }

    /// Its relocations in the order of the file.
    pub fn relocations(&self) -> &[ViewReloc]
        ensures { result.now ≡ (self.now).relocations }
    {
        &self.relocations
    }
}

/// An object. A contract sees it with its rows as lists.
#[derive(Drop)]
pub struct View<'a> {
    is_elf: bool,
    sections: Vec<ViewSection<'a>>,
    symbols: Vec<ViewSymbol<'a>>,
}

impl<'a> Model for View<'a> {
    ghost use Rattle.image_view.specs.View.{View};

    ghost Value = { View };

    ghost use Rattle.image_view.specs.ViewSeen.{view_seen};

    ghost view = { view_seen };
}

impl<'a> View<'a> {
    /// An object with these rows.
    pub(crate) fn new(
        is_elf: bool,
        sections: Vec<ViewSection<'a>>,
        symbols: Vec<ViewSymbol<'a>>,
    ) -> View<'a>
        ensures { result ≡ view_with is_elf sections.entry.items (map symbol_seen symbols.entry.items) }
    {
        View {
            is_elf,
            sections,
            symbols,
        }
    }

    /// It was read of an ELF file, else of a Mach-O file.
    pub fn is_elf(&self) -> bool
        ensures { result ≡ (self.now).is_elf }
    {
        self.is_elf
    }

    /// Its sections in the order of the file.
    pub fn sections(&self) -> &[ViewSection<'a>]
        ensures { result.now ≡ (self.now).sections }
    {
        &self.sections
    }

    /// Its symbols by row; in ELF the null row is the first.
    pub fn symbols(&self) -> &[ViewSymbol<'a>]
        ensures { map symbol_seen result.now ≡ (self.now).symbols }
    {
        &self.symbols
    }
}
