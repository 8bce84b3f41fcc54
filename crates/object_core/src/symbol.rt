//! Symbols of an object.

ghost use Rattle.std.specs.Prelude.{◌≡◌};
ghost use Rattle.object_core.specs.Object.{changed_symbol};
ghost use Rattle.object_core.specs.Appending.{defined_symbol};

use crate::{SectionId, SymbolKind, SymbolScope, SymbolSection};

/// A symbol of an object. Its object keeps its name.
#[derive(Clone, Copy)]
pub struct Symbol {
    /// The offset in its section, in bytes.
    pub value: u128,
    /// How many bytes it names.
    pub size: u64,
    pub kind: SymbolKind,
    pub scope: SymbolScope,
    /// Another definition of its name may take its place.
    pub weak: bool,
    pub section: SymbolSection,
    /// The linker keeps it also where nothing uses it.
    pub no_dead_strip: bool,
}

impl Symbol {
    /// Places it at an offset of a section, in bytes.
    pub(crate) fn define(&mut self, section: SectionId, offset: u128, size: u64)
        ensures { self.new ≡ changed_symbol (defined_symbol section offset size) self.old }
    {
        self.value = offset;
        self.size = size;
        self.section = SymbolSection::Section(section);
    }
}
