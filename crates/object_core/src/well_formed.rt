//! Which objects have a file.

ghost use Rattle.std.specs.Prelude.{◌≡◌, ◌+◌, ◌^◌, ◌<◌, ◌≤◌, ◌↔◌, true, false, length, slice_get, Some};
ghost use Rattle.object_core.specs.Object.{SymbolData, SectionData, named, body_of};
ghost use Rattle.object_core.specs.WellFormed.{IsFormed, IsFormedElf, IsFormedMacho, IsFormedSymbol, IsFormedRelocation, IsFormedMachRelocation, IsFormedMachSection, PlaceFits, AreApart, has_zero_byte, is_file, is_supported, mach_width};
ghost use Rattle.object_core.specs.Checking.{Each, At, IsFormedElfSection, AreAllApart, IsApartOfEarlier, IsNarrow, AreNarrow};
ghost use Rattle.ir_core.specs.MachKind.{mach_number};
ghost use Rattle.ir_core.specs.MachO.{mach_cputype, has_room};
ghost use Rattle.ir_core.specs.declared.reloc.Reloc.{Reloc};

use crate::relocation_kinds::{elf_kind, mach_kind};
use crate::{
    Object, Relocation, RelocationFlags, Section, SectionId, Symbol, SymbolId, SymbolKind,
    SymbolSection,
};
use ir_core::{Architecture, BinaryFormat, MachNumber, field_width, has_room, mach_cputype};

/// Whether files of this format are built for this processor.
pub fn is_supported(architecture: Architecture, format: BinaryFormat) -> bool
    ensures { result ≡ is_supported architecture format }
{
    match format {
        BinaryFormat::Elf => matches!(
            architecture,
            Architecture::X86_64 | Architecture::Aarch64 | Architecture::Riscv64
        ),
        BinaryFormat::Macho => {
            matches!(architecture, Architecture::X86_64 | Architecture::Aarch64)
        }
        _ => false,
    }
}

impl Object {
    /// Whether the object has a file of its format: the format is built for the processor, no name has a zero byte,
    /// symbols stand where their kind may, and relocations are of the target's kinds, with their fields inside the
    /// contents and with symbols of the object. In Mach-O the fields are apart, addends have room, names of sections have
    /// 16 bytes at most, and no section is of the type S_GB_ZEROFILL.
    pub fn well_formed(&self) -> bool
        ensures { (result ≡ true) ↔ IsFormed self.now }
    {
        if !is_supported(self.architecture(), self.format()) {
            return false;
        }
        match self.format() {
            BinaryFormat::Elf => is_formed_elf(self),
            BinaryFormat::Macho => is_formed_macho(self),
            _ => false,
        }
    }
}

fn is_formed_elf(object: &Object) -> bool
    ensures yes { result ≡ true → IsFormedElf object.now }
    ensures no { result ≡ false → IsFormedElf object.now → ⊥ }
{
    if !are_formed_symbols(object) {
        return false;
    }
    are_formed_elf_sections(object)
}

fn is_formed_macho(object: &Object) -> bool
    ensures yes { result ≡ true → IsFormedMacho object.now }
    ensures no { result ≡ false → IsFormedMacho object.now → ⊥ }
{
    if !are_formed_symbols(object) {
        return false;
    }
    are_formed_mach_sections(object)
}

// -- symbols

fn are_formed_symbols(object: &Object) -> bool
    ensures yes { result ≡ true → Each (IsFormedSymbol object.now) (object.now).symbols }
    ensures no { result ≡ false → Each (IsFormedSymbol object.now) (object.now).symbols → ⊥ }
{
    let count = object.symbols().len();
    for number in 0..count {
        if !is_formed_symbol(object, number) {
            return false;
        }
    }
    true
}

fn is_formed_symbol(object: &Object, number: usize) -> bool
    requires { number < length (object.now).symbols }
    ensures yes { result ≡ true → At (IsFormedSymbol object.now) (object.now).symbols number }
    ensures no { result ≡ false → At (IsFormedSymbol object.now) (object.now).symbols number → ⊥ }
{
    let id = SymbolId::from_number(number);
    is_formed_named(object, object.symbol_name(id), object.symbol(id))
}

fn is_formed_named(object: &Object, name: &[u8], symbol: &Symbol) -> bool
    ensures yes { result ≡ true → IsFormedSymbol object.now (named name.now symbol.now) }
    ensures no { result ≡ false → IsFormedSymbol object.now (named name.now symbol.now) → ⊥ }
{
    if has_zero_byte(name) {
        return false;
    }
    if !fits_place(object, symbol) {
        return false;
    }
    symbol.value.saturating_sub(object.content_sum()) <= 4_294_967_295
}

fn has_zero_byte(text: &[u8]) -> bool
    ensures { result ≡ has_zero_byte text.now }
{
    text.iter().any(|byte| *byte == 0)
}

fn fits_place(object: &Object, symbol: &Symbol) -> bool
    ensures yes { result ≡ true → PlaceFits object.now (symbol.now).kind (symbol.now).section }
    ensures no { result ≡ false → PlaceFits object.now (symbol.now).kind (symbol.now).section → ⊥ }
{
    match symbol.section {
        SymbolSection::Absolute => is_file(symbol),
        SymbolSection::Undefined => !matches!(symbol.kind, SymbolKind::File | SymbolKind::Label),
        SymbolSection::Section(id) => {
            !is_file(symbol) && id.as_number() < object.sections().len()
        }
    }
}

fn is_file(symbol: &Symbol) -> bool
    ensures { result ≡ is_file (symbol.now).kind }
{
    matches!(symbol.kind, SymbolKind::File)
}

// -- sections

fn are_formed_elf_sections(object: &Object) -> bool
    ensures yes { result ≡ true → Each (IsFormedElfSection object.now) (object.now).sections }
    ensures no { result ≡ false → Each (IsFormedElfSection object.now) (object.now).sections → ⊥ }
{
    let count = object.sections().len();
    for number in 0..count {
        if !is_formed_elf_section(object, number) {
            return false;
        }
    }
    true
}

fn is_formed_elf_section(object: &Object, number: usize) -> bool
    requires { number < length (object.now).sections }
    ensures yes { result ≡ true → At (IsFormedElfSection object.now) (object.now).sections number }
    ensures no { result ≡ false → At (IsFormedElfSection object.now) (object.now).sections number → ⊥ }
{
    let id = SectionId::from_number(number);
    if has_zero_byte(object.section_name(id)) {
        return false;
    }
    are_formed_relocations(object, object.section(id))
}

fn are_formed_mach_sections(object: &Object) -> bool
    ensures yes { result ≡ true → Each (IsFormedMachSection object.now) (object.now).sections }
    ensures no { result ≡ false → Each (IsFormedMachSection object.now) (object.now).sections → ⊥ }
{
    let count = object.sections().len();
    for number in 0..count {
        if !is_formed_mach_section(object, number) {
            return false;
        }
    }
    true
}

fn is_formed_mach_section(object: &Object, number: usize) -> bool
    requires { number < length (object.now).sections }
    ensures yes { result ≡ true → At (IsFormedMachSection object.now) (object.now).sections number }
    ensures no { result ≡ false → At (IsFormedMachSection object.now) (object.now).sections number → ⊥ }
{
    let id = SectionId::from_number(number);
    if !is_mach_text(object.section_segment(id)) {
        return false;
    }
    if !is_mach_text(object.section_name(id)) {
        return false;
    }
    let section = object.section(id);
    if section.macho_flags() % 256 == 0xc {
        return false;
    }
    if !are_formed_mach_relocations(object, section) {
        return false;
    }
    are_apart(section.relocations())
}

// A segment or section name: 16 bytes at most, and none of them is zero.
fn is_mach_text(text: &[u8]) -> bool
    ensures yes { result ≡ true → has_zero_byte text.now ≡ false }
    ensures room { result ≡ true → length text.now ≤ 16 }
    ensures no { result ≡ false → has_zero_byte text.now ≡ false → length text.now ≤ 16 → ⊥ }
{
    !has_zero_byte(text) && text.len() <= 16
}

// -- relocations

fn are_formed_relocations(object: &Object, section: &Section) -> bool
    ensures yes { (s : SectionData) → body_of s ≡ section.now → result ≡ true → Each (IsFormedRelocation object.now s) s.relocations }
    ensures no { (s : SectionData) → body_of s ≡ section.now → result ≡ false → Each (IsFormedRelocation object.now s) s.relocations → ⊥ }
{
    let size = section.contents().len();
    for relocation in section.relocations() {
        if !is_formed_relocation(object, size, *relocation) {
            return false;
        }
    }
    true
}

fn is_formed_relocation(object: &Object, size: usize, relocation: Relocation) -> bool
    ensures yes { (s : SectionData) → length s.contents ≡ size → result ≡ true → IsFormedRelocation object.now s relocation }
    ensures no { (s : SectionData) → length s.contents ≡ size → result ≡ false → IsFormedRelocation object.now s relocation → ⊥ }
{
    if !names_symbol(object, relocation.symbol) {
        return false;
    }
    match relocation.flags {
        RelocationFlags::Elf { r_type } => match elf_kind(object.architecture(), r_type) {
            Some(kind) => is_within(relocation.offset, u64::from(field_width(kind)), size),
            None => false,
        },
        RelocationFlags::MachO { .. } => false,
    }
}

// The field lies in contents of this size.
fn is_within(offset: u64, width: u64, size: usize) -> bool
    ensures yes { result ≡ true → offset + width ≤ size }
    ensures no { result ≡ false → offset + width ≤ size → ⊥ }
{
    let size = size as u64;
    width <= size && offset <= size - width
}

// The relocation names a symbol of the object that is no file.
fn names_symbol(object: &Object, id: SymbolId) -> bool
    ensures yes { result ≡ true → (t : SymbolData) × (slice_get (object.now).symbols id ≡ Some t) × (is_file t.kind ≡ false) }
    ensures no { result ≡ false → (t : SymbolData) → slice_get (object.now).symbols id ≡ Some t → is_file t.kind ≡ false → ⊥ }
{
    if id.as_number() >= object.symbols().len() {
        return false;
    }
    !is_file(object.symbol(id))
}

fn are_formed_mach_relocations(object: &Object, section: &Section) -> bool
    ensures yes { (s : SectionData) → body_of s ≡ section.now → result ≡ true → Each (IsFormedMachRelocation object.now s) s.relocations }
    ensures no { (s : SectionData) → body_of s ≡ section.now → result ≡ false → Each (IsFormedMachRelocation object.now s) s.relocations → ⊥ }
    ensures narrow { result ≡ true → AreNarrow (section.now).relocations }
{
    let size = section.contents().len();
    for relocation in section.relocations() {
        if !is_formed_mach_relocation(object, size, *relocation) {
            return false;
        }
    }
    true
}

fn is_formed_mach_relocation(object: &Object, size: usize, relocation: Relocation) -> bool
    ensures yes { (s : SectionData) → length s.contents ≡ size → result ≡ true → IsFormedMachRelocation object.now s relocation }
    ensures no { (s : SectionData) → length s.contents ≡ size → result ≡ false → IsFormedMachRelocation object.now s relocation → ⊥ }
    ensures narrow { result ≡ true → IsNarrow relocation.flags }
{
    if !names_symbol(object, relocation.symbol) {
        return false;
    }
    match relocation.flags {
        RelocationFlags::Elf { .. } => false,
        RelocationFlags::MachO {
            r_type,
            r_pcrel,
            r_length,
        } => {
            let number = MachNumber {
                r_type,
                pcrel: r_pcrel,
                length: r_length,
            };
            fits_mach(object.architecture(), size, relocation, number)
        }
    }
}

// The numbers are those of a kind, whose field lies in contents of this size, and the addend has room.
fn fits_mach(
    architecture: Architecture,
    size: usize,
    relocation: Relocation,
    number: MachNumber,
) -> bool
    ensures kind { result ≡ true → (kind : Reloc) × (mach_number architecture kind ≡ Some number) }
    ensures narrow { result ≡ true → number.length < 4 }
    ensures field { result ≡ true → relocation.offset + 2 ^ number.length ≤ size }
    ensures addend { result ≡ true → has_room (mach_cputype architecture) number.r_type number.pcrel number.length relocation.addend ≡ true }
    ensures no { result ≡ false → (kind : Reloc) → mach_number architecture kind ≡ Some number → relocation.offset + 2 ^ number.length ≤ size
        → has_room (mach_cputype architecture) number.r_type number.pcrel number.length relocation.addend ≡ true → ⊥ }
{
    if mach_kind(architecture, number).is_none() {
        return false;
    }
    if !is_within(relocation.offset, width_of(number.length), size) {
        return false;
    }
    has_room(mach_cputype(architecture), number, relocation.addend)
}

// How many bytes a field of this power of two has.
fn width_of(length: u8) -> u64
    requires { length < 4 }
    ensures value { result ≡ 2 ^ length }
    ensures bound { result < 9 }
{
    match length {
        0 => 1,
        1 => 2,
        2 => 4,
        _ => 8,
    }
}

// -- fields that are apart

fn are_apart(relocations: &[Relocation]) -> bool
    requires { AreNarrow relocations.now }
    ensures yes { result ≡ true → AreAllApart relocations.now }
    ensures no { result ≡ false → AreAllApart relocations.now → ⊥ }
{
    if are_ascending(relocations) {
        return true;
    }
    for number in 0..relocations.len() {
        if !is_apart_of_earlier(relocations, number) {
            return false;
        }
    }
    true
}

// Each field ends where the next one starts, or before.
fn are_ascending(relocations: &[Relocation]) -> bool
    requires { AreNarrow relocations.now }
    ensures { result ≡ true → AreAllApart relocations.now }
{
    let mut end: u128 = 0;
    for relocation in relocations {
        if u128::from(relocation.offset) < end {
            return false;
        }
        end = end_of_field(relocation);
    }
    true
}

fn is_apart_of_earlier(relocations: &[Relocation], number: usize) -> bool
    requires narrow { AreNarrow relocations.now }
    requires number { number < length relocations.now }
    ensures yes { result ≡ true → IsApartOfEarlier relocations.now number }
    ensures no { result ≡ false → IsApartOfEarlier relocations.now number → ⊥ }
{
    let last = &relocations[number];
    for earlier in 0..number {
        if !are_two_apart(&relocations[earlier], last) {
            return false;
        }
    }
    true
}

fn are_two_apart(one: &Relocation, other: &Relocation) -> bool
    requires one { IsNarrow (one.now).flags }
    requires other { IsNarrow (other.now).flags }
    ensures yes { result ≡ true → AreApart one.now other.now }
    ensures no { result ≡ false → AreApart one.now other.now → ⊥ }
{
    let start = u128::from(one.offset);
    let other_start = u128::from(other.offset);
    if end_of_field(one) <= other_start {
        return true;
    }
    end_of_field(other) <= start
}

fn end_of_field(relocation: &Relocation) -> u128
    requires { IsNarrow (relocation.now).flags }
    ensures { result ≡ (relocation.now).offset + mach_width (relocation.now).flags }
{
    let width = match relocation.flags {
        RelocationFlags::Elf { .. } => 0,
        RelocationFlags::MachO { r_length, .. } => width_of(r_length),
    };
    u128::from(relocation.offset) + u128::from(width)
}
