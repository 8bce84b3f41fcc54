//! Objects: sections and symbols in order of creation.

ghost use Rattle.std.specs.Prelude.{◌≡◌, ◌+◌, ◌∷◌, ◌++◌, [], ◌<◌, ◌^◌, true, length, replicate, slice_get, Some, None, IsOk, IfOk, OnErr, OnOk, option_map, map, IfSome};
ghost use Rattle.std.specs.List.{All, position_from};
ghost use Rattle.std.specs.Str.{bytes_eq};
ghost use Rattle.std.specs.Int.{is_power_of_two};
ghost use Rattle.std.specs.Borrow.{Lends, sem};
ghost use Rattle.object_core.specs.contracts.object.Object.{the_row};
ghost use Rattle.object_core.specs.contracts.symbol.Symbol.{the_row as symbol_row};
ghost use Rattle.object_core.specs.Object.{named, plain_symbol, body_of};
ghost use Rattle.object_core.specs.Names.{text_at};
ghost use Rattle.object_core.specs.ObjectNames.{name_bytes};
ghost use Rattle.object_core.specs.Standard.{empty_section, empty_subsection, is_standard_in};
ghost use Rattle.object_core.specs.Appending.{empty_object, with_build_version, with_symbol, with_symbol_at, file_symbol, standard_at, with_standard_section, standard_number, with_standard, with_subsection, subsection_number, with_section, with_retain, with_relocation, next_offset, room_in, stored_in, with_section_data, with_section_room, with_definition, with_symbol_data, with_symbol_zeros, with_symbol_bss, IsUndefined, HasBytes, IsZeroFill, AreSections, kept_places};

use crate::names::Names;
use crate::placing::push_reserved;
use crate::{
    MachOBuildVersion, Relocation, Section, SectionId, SectionKind, StandardSection, Symbol,
    SymbolId, SymbolKind, SymbolScope, SymbolSection,
};
use ir_core::{Architecture, BinaryFormat};
use std::alloc::{AllocError, Global};
use std::marker::Model;

/// An object of one format and processor. A contract sees it as its sections and symbols.
#[derive(Drop)]
pub struct Object {
    alloc: Global,
    format: BinaryFormat,
    architecture: Architecture,
    e_flags: u32,
    build_version: Option<MachOBuildVersion>,
    sections: Vec<Section>,
    section_names: Vec<SectionNames>,
    // The number of each standard section, by its place in their order, none before its first use.
    standard_sections: [Option<usize>; 7],
    symbols: Vec<Symbol>,
    // The places of their names.
    symbol_names: Vec<usize>,
    names: Names,
    content_sum: u128,
}

/// The places of a section's texts among the names.
#[derive(Clone, Copy)]
struct SectionNames {
    segment: usize,
    name: usize,
}

impl Model for Object {
    ghost use Rattle.object_core.specs.Object.{ObjectData};

    ghost Value = { ObjectData };

    ghost use Rattle.object_core.specs.ObjectView.{object_view, IsSound};

    ghost view = { object_view };

    ghost invariant = { IsSound };
}

impl Object {
    /// An object without sections and symbols. The flags are those of an ELF header.
    pub fn new(
        alloc: Global,
        format: BinaryFormat,
        architecture: Architecture,
        e_flags: u32,
    ) -> Object
        ensures { result ≡ empty_object format architecture e_flags }
    {
        Object {
            alloc,
            format,
            architecture,
            e_flags,
            build_version: None,
            sections: Vec::new(alloc),
            section_names: Vec::new(alloc),
            standard_sections: [None; 7],
            symbols: Vec::new(alloc),
            symbol_names: Vec::new(alloc),
            names: Names::new(alloc),
            content_sum: 0,
        }
    }

    /// The format that the object was made for.
    pub fn format(&self) -> BinaryFormat
        ensures { result ≡ (self.now).format }
    {
        self.format
    }

    /// The processor that the object was made for.
    pub fn architecture(&self) -> Architecture
        ensures { result ≡ (self.now).architecture }
    {
        self.architecture
    }

    /// The flags of an ELF header that the object was made with.
    pub fn e_flags(&self) -> u32
        ensures { result ≡ (self.now).e_flags }
    {
        self.e_flags
    }

    /// The system version that was set last, none before that.
    pub fn macho_build_version(&self) -> Option<MachOBuildVersion>
        ensures { result ≡ (self.now).build_version }
    {
        self.build_version
    }

    /// Sets the system version that a Mach-O file tells, in place of one that was set before.
    pub fn set_macho_build_version(&mut self, version: MachOBuildVersion)
        ensures { self.new ≡ with_build_version self.old version }
    {
        self.build_version = Some(version);
    }

    /// The sections in order of creation.
    pub fn sections(&self) -> &[Section]
        ensures value { result.now ≡ map body_of (self.now).sections }
        ensures sound { AreSections (self.now).format (self.now).sections (self.now).content_sum }
        ensures bound { length (self.now).sections < 2 ^ 63 }
    {
        &self.sections
    }

    /// The section of this number.
    pub fn section(&self, id: SectionId) -> &Section
        requires { id < length (self.now).sections }
        ensures { option_map body_of (slice_get (self.now).sections id) ≡ Some result.now }
    {
        let sections = self.sections();
        &sections[id.as_number()]
    }

    /// The symbols in order of creation.
    pub fn symbols(&self) -> &[Symbol]
        ensures value { result.now ≡ map plain_symbol (self.now).symbols }
        ensures bound { length (self.now).symbols < 2 ^ 63 }
    {
        &self.symbols
    }

    /// The symbol of this number.
    pub fn symbol(&self, id: SymbolId) -> &Symbol
        requires { id < length (self.now).symbols }
        ensures { option_map plain_symbol (slice_get (self.now).symbols id) ≡ Some result.now }
    {
        &self.symbols[id.as_number()]
    }

    /// The symbol of this number, to write; its name stays. Whatever is written into it is an object's symbol; a
    /// writer asks more of it than an object does.
    pub fn symbol_mut(&mut self, id: SymbolId) -> &mut Symbol
        requires { id < length (self.old).symbols }
        ensures* writes_back { sem 𝓛 (Lends the_row symbol_row self.entry result (with_symbol_at self.old id)) }
        ensures value { option_map plain_symbol (slice_get (self.old).symbols id) ≡ Some result.now }
    {
        &mut self.symbols[id.as_number()]
    }

    /// The name of the symbol of this number.
    pub fn symbol_name(&self, id: SymbolId) -> &[u8]
        requires { id < length (self.now).symbols }
        ensures { option_map (λ s. s.name) (slice_get (self.now).symbols id) ≡ Some result.now }
    {
        self.names.text(self.symbol_names[id.as_number()])
    }

    /// The name of the section of this number, in ELF and in Mach-O.
    pub fn section_name(&self, id: SectionId) -> &[u8]
        requires { id < length (self.now).sections }
        ensures { option_map (λ s. s.name) (slice_get (self.now).sections id) ≡ Some result.now }
    {
        self.names.text(self.section_names[id.as_number()].name)
    }

    /// The Mach-O segment of the section of this number, empty in ELF.
    pub fn section_segment(&self, id: SectionId) -> &[u8]
        requires { id < length (self.now).sections }
        ensures { option_map (λ s. s.segment) (slice_get (self.now).sections id) ≡ Some result.now }
    {
        self.names.text(self.section_names[id.as_number()].segment)
    }

    /// How many bytes the names of the symbols and the sections have, their segments among them; equal ones count once.
    pub fn name_bytes(&self) -> usize
        ensures { result ≡ name_bytes self.now }
    {
        self.names.bytes()
    }

    /// The sizes and alignments of all contents that were added, in bytes.
    pub fn content_sum(&self) -> u128
        ensures { result ≡ (self.now).content_sum }
    {
        self.content_sum
    }

    /// The first symbol of this name. It looks at one symbol after the other.
    pub fn symbol_id(&self, name: &[u8]) -> Option<SymbolId>
        ensures { result ≡ position_from (λ s. bytes_eq s.name name.now) 0 (self.now).symbols }
    {
        match place_named(&self.names, &self.symbol_names, name) {
            Some(number) => Some(SymbolId::from_number(number)),
            None => None,
        }
    }

    /// Appends the symbol of the source file's name.
    pub fn add_file_symbol(&mut self, name: &[u8]) -> Result<SymbolId, AllocError>
        ensures id { IfOk result (λ id. id ≡ length (self.old).symbols) }
        ensures ok { OnOk result (self.new ≡ with_symbol self.old (file_symbol name.now)) }
        ensures err { OnErr result (self.new ≡ self.old) }
    {
        let symbol = Symbol {
            value: 0,
            size: 0,
            kind: SymbolKind::File,
            scope: SymbolScope::Compilation,
            weak: false,
            section: SymbolSection::Absolute,
            no_dead_strip: false,
        };
        self.add_symbol(name, symbol)
    }

    /// Appends a symbol under a name.
    pub fn add_symbol(&mut self, name: &[u8], symbol: Symbol) -> Result<SymbolId, AllocError>
        ensures id { IfOk result (λ id. id ≡ length (self.old).symbols) }
        ensures ok { OnOk result (self.new ≡ with_symbol self.old (named name.now symbol)) }
        ensures err { OnErr result (self.new ≡ self.old) }
    {
        let id = SymbolId::from_number(self.symbols.len());
        // The check needs the type of this part told.
        let _section = symbol.section;
        self.symbols.reserve(1)?;
        self.symbol_names.reserve(1)?;
        let name = self.names.intern(name)?;
        push_reserved(&mut self.symbols, symbol);
        push_reserved(&mut self.symbol_names, name);
        Ok(id)
    }

    /// Appends a section of these names, in which nothing is yet. The segment and the flags are those of a Mach-O
    /// section; ELF has neither.
    pub fn add_section(
        &mut self,
        segment: &[u8],
        name: &[u8],
        kind: SectionKind,
        macho_flags: u32,
    ) -> Result<SectionId, AllocError>
        ensures id { IfOk result (λ id. id ≡ length (self.old).sections) }
        ensures ok { OnOk result (self.new ≡ with_section self.old segment.now name.now kind macho_flags) }
        ensures err { OnErr result (self.new ≡ self.old) }
    {
        self.push_section(segment, name, kind, macho_flags, None)
    }

    /// The section of a standard section, which is made at its first use. Mach-O has none for thread-local data.
    pub fn section_id(&mut self, standard: StandardSection) -> Result<SectionId, AllocError>
        requires { is_standard_in (self.old).format standard ≡ true }
        ensures id { IfOk result (λ id. id ≡ standard_number self.old standard) }
        ensures ok { OnOk result (self.new ≡ with_standard_section self.old standard) }
        ensures err { OnErr result (self.new ≡ self.old) }
    {
        match self.kept_number(standard) {
            Some(number) => Ok(SectionId::from_number(number)),
            None => self.push_standard(standard),
        }
    }

    // Appends a standard section that is not there yet.
    fn push_standard(&mut self, standard: StandardSection) -> Result<SectionId, AllocError>
        requires { standard_at (self.old).sections standard ≡ None }
        ensures id { IfOk result (λ id. id ≡ length (self.old).sections) }
        ensures ok { OnOk result (self.new ≡ with_standard self.old standard None) }
        ensures err { OnErr result (self.new ≡ self.old) }
    {
        match self.format {
            BinaryFormat::Macho => self.push_section(
                standard.mach_segment(),
                standard.mach_name(),
                standard.kind(),
                standard.mach_flags(),
                Some(standard),
            ),
            _ => self.push_section(&[], standard.name(), standard.kind(), 0, Some(standard)),
        }
    }

    // The number of a standard section, where it is there.
    fn kept_number(&self, standard: StandardSection) -> Option<usize>
        ensures { result ≡ standard_at (self.now).sections standard }
    {
        let place = standard.place();
        self.standard_sections[place]
    }

    /// A new section beside a standard one, under its name and `.subsection`. In Mach-O it is the standard one itself.
    pub fn add_subsection(&mut self, standard: StandardSection) -> Result<SectionId, AllocError>
        requires { is_standard_in (self.old).format standard ≡ true }
        ensures id { IfOk result (λ id. id ≡ subsection_number self.old standard) }
        ensures ok { OnOk result (self.new ≡ with_subsection self.old standard) }
        ensures err { OnErr result (self.new ≡ self.old) }
    {
        match self.format {
            BinaryFormat::Macho => self.section_id(standard),
            _ => self.push_subsection(standard),
        }
    }

    // Appends a section beside a standard one.
    fn push_subsection(&mut self, standard: StandardSection) -> Result<SectionId, AllocError>
        ensures id { IfOk result (λ id. id ≡ length (self.old).sections) }
        ensures ok { OnOk result (self.new ≡ record self.old { sections = (self.old).sections ++ empty_subsection standard ∷ [] }) }
        ensures err { OnErr result (self.new ≡ self.old) }
    {
        let mut name = standard.name().to_vec(self.alloc)?;
        name.extend_from_slice(b".subsection")?;
        self.push_section(&[], &name, standard.kind(), 0, None)
    }

    // Appends a section in which nothing is yet, and keeps where it is if it is a standard one.
    fn push_section(
        &mut self,
        segment: &[u8],
        name: &[u8],
        kind: SectionKind,
        macho_flags: u32,
        shared: Option<StandardSection>,
    ) -> Result<SectionId, AllocError>
        requires { IfSome shared (λ standard. standard_at (self.old).sections standard ≡ None) }
        ensures id { IfOk result (λ id. id ≡ length (self.old).sections) }
        ensures ok { OnOk result (self.new ≡ record self.old { sections = (self.old).sections ++ empty_section segment.now name.now kind macho_flags shared ∷ [] }) }
        ensures err { OnErr result (self.new ≡ self.old) }
    {
        let number = self.sections.len();
        self.sections.reserve(1)?;
        self.section_names.reserve(1)?;
        let (segment, name) = self.names.intern_both(segment, name)?;
        let section = Section::new(self.alloc, kind, macho_flags, shared);
        let names = SectionNames { segment, name };
        push_reserved(&mut self.sections, section);
        push_reserved(&mut self.section_names, names);
        keep_place(&mut self.standard_sections, shared, number);
        Ok(SectionId::from_number(number))
    }

    /// Marks a section as one that the linker keeps also where nothing uses it.
    pub fn set_retain(&mut self, section: SectionId)
        requires { section < length (self.old).sections }
        ensures { self.new ≡ with_retain self.old section }
    {
        self.sections[section.as_number()].set_retain();
    }

    /// Appends a relocation to those of a section. Whatever it says is an object's relocation; a writer asks more of it
    /// than an object does.
    #[tactic(auto, using(crate::proofs::Sections::unchanged_set))]
    pub fn add_relocation(
        &mut self,
        section: SectionId,
        relocation: Relocation,
    ) -> Result<(), AllocError>
        requires { section < length (self.old).sections }
        ensures ok { OnOk result (self.new ≡ with_relocation self.old section relocation) }
        ensures err { OnErr result (self.new ≡ self.old) }
    {
        self.sections[section.as_number()].add_relocation(relocation)?;
        Ok(())
    }

    /// Appends contents to a section, behind zeros up to their alignment, and defines the symbol there. In Mach-O empty
    /// contents take one zero byte. The answer is their offset in the section, in bytes.
    pub fn add_symbol_data(
        &mut self,
        symbol: SymbolId,
        section: SectionId,
        contents: &[u8],
        align: u64,
    ) -> Result<u128, AllocError>
        requires power { is_power_of_two align ≡ true }
        requires symbol { IsUndefined self.old symbol }
        requires section { HasBytes self.old section }
        requires sum { (self.old).content_sum < 2 ^ 127 + 2 ^ 126 }
        ensures offset { IfOk result (λ offset. offset ≡ next_offset self.old section align) }
        ensures ok { OnOk result (self.new ≡ with_symbol_data self.old symbol section contents.now align) }
        ensures err { OnErr result (self.new ≡ self.old) }
    {
        let offset = self.append_section_data(section, contents, align)?;
        self.define_symbol(symbol, section, offset, contents.len() as u64);
        Ok(offset)
    }

    /// Appends so many zeros to a section, behind zeros up to their alignment, and defines the symbol there. The zeros
    /// are written; in Mach-O none of them take one byte. The answer is their offset in the section, in bytes.
    pub fn add_symbol_zeros(
        &mut self,
        symbol: SymbolId,
        section: SectionId,
        size: u64,
        align: u64,
    ) -> Result<u128, AllocError>
        requires power { is_power_of_two align ≡ true }
        requires symbol { IsUndefined self.old symbol }
        requires section { HasBytes self.old section }
        requires sum { (self.old).content_sum < 2 ^ 127 + 2 ^ 126 }
        ensures offset { IfOk result (λ offset. offset ≡ next_offset self.old section align) }
        ensures ok { OnOk result (self.new ≡ with_symbol_zeros self.old symbol section size align) }
        ensures err { OnErr result (self.new ≡ self.old) }
    {
        let offset = self.append_section_zeros(section, size, align)?;
        self.define_symbol(symbol, section, offset, size);
        Ok(offset)
    }

    /// Makes a zero-fill section larger by this size, in Mach-O by one at least, behind a gap up to the alignment, and
    /// defines the symbol there. No byte is written, so it takes no memory. The answer is the offset in the section, in
    /// bytes.
    pub fn add_symbol_bss(
        &mut self,
        symbol: SymbolId,
        section: SectionId,
        size: u64,
        align: u64,
    ) -> Result<u128, AllocError>
        requires power { is_power_of_two align ≡ true }
        requires symbol { IsUndefined self.old symbol }
        requires section { IsZeroFill self.old section }
        requires sum { (self.old).content_sum < 2 ^ 127 + 2 ^ 126 }
        ensures succeeds { IsOk result }
        ensures offset { IfOk result (λ offset. offset ≡ next_offset self.old section align) }
        ensures ok { OnOk result (self.new ≡ with_symbol_bss self.old symbol section size align) }
    {
        let offset = self.append_section_room(section, size, align);
        self.define_symbol(symbol, section, offset, size);
        Ok(offset)
    }

    // Appends contents to a section, behind zeros up to their alignment, and answers their offset.
    #[tactic(auto, using(crate::proofs::Sections::unchanged_set))]
    fn append_section_data(
        &mut self,
        section: SectionId,
        contents: &[u8],
        align: u64,
    ) -> Result<u128, AllocError>
        requires power { is_power_of_two align ≡ true }
        requires section { HasBytes self.old section }
        requires sum { (self.old).content_sum < 2 ^ 127 + 2 ^ 126 }
        ensures offset { IfOk result (λ offset. offset ≡ next_offset self.old section align) }
        ensures ok { OnOk result (self.new ≡ with_section_data self.old section contents.now align) }
        ensures err { OnErr result (self.new ≡ self.old) }
    {
        let stored = stored_in(self.format, contents);
        let offset = self.sections[section.as_number()].append(stored, align)?;
        self.content_sum += amount_of(self.format, contents.len() as u64, align);
        Ok(offset)
    }

    // Appends so many zeros to a section, likewise.
    #[tactic(auto, using(crate::proofs::Sections::unchanged_set))]
    fn append_section_zeros(
        &mut self,
        section: SectionId,
        size: u64,
        align: u64,
    ) -> Result<u128, AllocError>
        requires power { is_power_of_two align ≡ true }
        requires section { HasBytes self.old section }
        requires sum { (self.old).content_sum < 2 ^ 127 + 2 ^ 126 }
        ensures offset { IfOk result (λ offset. offset ≡ next_offset self.old section align) }
        ensures ok { OnOk result (self.new ≡ with_section_data self.old section (replicate size 0) align) }
        ensures err { OnErr result (self.new ≡ self.old) }
    {
        let stored = room_in(self.format, size);
        let offset = self.sections[section.as_number()].append_zeros(stored, align)?;
        self.content_sum += amount_of(self.format, size, align);
        Ok(offset)
    }

    // Makes a zero-fill section larger, and answers the offset of what is new.
    fn append_section_room(&mut self, section: SectionId, size: u64, align: u64) -> u128
        requires power { is_power_of_two align ≡ true }
        requires section { IsZeroFill self.old section }
        requires sum { (self.old).content_sum < 2 ^ 127 + 2 ^ 126 }
        ensures offset { result ≡ next_offset self.old section align }
        ensures room { self.new ≡ with_section_room self.old section size align }
    {
        let room = room_in(self.format, size);
        let offset = self.sections[section.as_number()].append_room(room, align);
        self.content_sum += amount_of(self.format, size, align);
        offset
    }

    // Places a symbol at an offset of a section.
    fn define_symbol(&mut self, symbol: SymbolId, section: SectionId, offset: u128, size: u64)
        requires { IsUndefined self.old symbol }
        ensures { self.new ≡ with_definition self.old symbol section offset size }
    {
        self.symbols[symbol.as_number()].define(section, offset, size);
    }
}

// What a definition adds to the sum that limits are judged by, in bytes.
fn amount_of(format: BinaryFormat, size: u64, align: u64) -> u128
    ensures { result ≡ room_in format size + align }
{
    u128::from(room_in(format, size)) + u128::from(align)
}

// How many bytes a definition of this size takes.
fn room_in(format: BinaryFormat, size: u64) -> u64
    ensures { result ≡ room_in format size }
{
    match format {
        BinaryFormat::Macho => size.max(1),
        _ => size,
    }
}

// Contents as a section stores them.
fn stored_in<'a>(format: BinaryFormat, contents: &'a [u8]) -> &'a [u8]
    ensures { result.now ≡ stored_in format contents.now }
{
    match format {
        BinaryFormat::Macho if contents.is_empty() => &[0],
        _ => contents,
    }
}

// Keeps the number of a section that is a standard one.
fn keep_place(places: &mut [Option<usize>; 7], shared: Option<StandardSection>, number: usize)
    ensures { places.new ≡ kept_places places.old shared number }
{
    if let Some(standard) = shared {
        places[standard.place()] = Some(number);
    }
}

// The place of the first symbol of a name, where the names of the symbols stand at these places.
fn place_named(names: &Names, places: &[usize], name: &[u8]) -> Option<usize>
    requires { All (λ place. place < length (names.now).texts) places.now }
    ensures { result ≡ position_from (λ place. bytes_eq (text_at (names.now).texts place) name.now) 0 places.now }
{
    for (number, place) in places.iter().enumerate() {
        if names.text(*place) == name {
            return Some(number);
        }
    }
    None
}
