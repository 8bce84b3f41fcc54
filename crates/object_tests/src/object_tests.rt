//! Objects in memory, through public items alone. A test makes the object and lends it, so that no step of the test
//! has to give it up.

use ir_core::{Architecture, BinaryFormat};
use object_core::{
    MachOBuildVersion, Object, Relocation, RelocationFlags, Section, SectionId, SectionKind,
    StandardSection, Symbol, SymbolId, SymbolKind, SymbolScope, SymbolSection,
};
use std::alloc::AllocError;
use std::process::Abort;
use std::test::Fail;

// The number of a symbol that is appended and not defined.
fn symbol(object: &mut Object, name: &[u8]) -> Result<SymbolId, AllocError> {
    let symbol = Symbol {
        value: 0,
        size: 0,
        kind: SymbolKind::Text,
        scope: SymbolScope::Dynamic,
        weak: false,
        section: SymbolSection::Undefined,
        no_dead_strip: false,
    };
    object.add_symbol(name, symbol)
}

// The number of a standard section.
fn standard(
    rt: &impl Abort,
    object: &mut Object,
    section: StandardSection,
) -> Result<SectionId, AllocError> {
    assert!(rt; matches!(object.format(), BinaryFormat::Elf));
    object.section_id(section)
}

// The section of this number.
fn section_at(object: &Object, id: SectionId) -> Result<&Section, AllocError> {
    object.sections().get(id.as_number()).ok_or(AllocError)
}

// The symbol of this number.
fn symbol_at(object: &Object, id: SymbolId) -> Result<&Symbol, AllocError> {
    object.symbols().get(id.as_number()).ok_or(AllocError)
}

// The offset of contents that define a symbol.
fn added(
    rt: &impl Abort,
    object: &mut Object,
    symbol: SymbolId,
    section: SectionId,
    contents: &[u8],
    align: u64,
) -> Result<u128, AllocError> {
    let Some(undefined) = object.symbols().get(symbol.as_number()) else {
        return Err(AllocError);
    };
    assert!(rt; matches!(undefined.section, SymbolSection::Undefined));
    let Some(place) = object.sections().get(section.as_number()) else {
        return Err(AllocError);
    };
    assert!(rt; !place.kind().is_zero_fill());
    assert!(rt; matches!(object.format(), BinaryFormat::Elf));
    assert!(rt; object.content_sum() < 1000);
    assert!(rt; align.is_power_of_two());
    object.add_symbol_data(symbol, section, contents, align)
}

// The offset of zeros that define a symbol, written or not as the section is.
fn zeros_added(
    rt: &impl Abort,
    object: &mut Object,
    symbol: SymbolId,
    section: SectionId,
    size: u64,
    align: u64,
) -> Result<u128, AllocError> {
    let Some(undefined) = object.symbols().get(symbol.as_number()) else {
        return Err(AllocError);
    };
    assert!(rt; matches!(undefined.section, SymbolSection::Undefined));
    let Some(place) = object.sections().get(section.as_number()) else {
        return Err(AllocError);
    };
    assert!(rt; matches!(object.format(), BinaryFormat::Elf));
    assert!(rt; object.content_sum() < 1 << 100);
    assert!(rt; align.is_power_of_two());
    if place.kind().is_zero_fill() {
        object.add_symbol_bss(symbol, section, size, align)
    } else {
        object.add_symbol_zeros(symbol, section, size, align)
    }
}

fn place_three(rt: &impl Abort, object: &mut Object) -> Result<(), AllocError> {
    let text = standard(rt, object, StandardSection::Text)?;
    let f = symbol(object, b"f")?;
    let g = symbol(object, b"g")?;
    let h = symbol(object, b"h")?;
    assert_eq!(rt; added(rt, object, f, text, b"\xc3", 1)?, 0);
    assert_eq!(rt; added(rt, object, g, text, b"\x31\xc0\xc3", 16)?, 16);
    assert_eq!(rt; added(rt, object, h, text, b"", 8)?, 24);
    assert_eq!(rt; object.content_sum(), 29);
    let section = section_at(object, text)?;
    let bytes: &[u8] = b"\xc3\0\0\0\0\0\0\0\0\0\0\0\0\0\0\0\x31\xc0\xc3\0\0\0\0\0";
    assert!(rt; section.contents() == bytes);
    assert_eq!(rt; section.size(), 24);
    assert_eq!(rt; section.align(), 16);
    let defined = symbol_at(object, g)?;
    assert_eq!(rt; defined.value, 16);
    assert_eq!(rt; defined.size, 3);
    assert!(rt; matches!(defined.section, SymbolSection::Section(id) if id == text));
    Ok(())
}

#[test]
fn contents_stand_at_the_next_multiple_of_their_alignment(rt: HostRuntime) -> Result<(), Fail> {
    let mut object = Object::new(rt.alloc(), BinaryFormat::Elf, Architecture::X86_64, 0);
    place_three(&rt, &mut object)?;
    Ok(())
}

fn place_zeros(rt: &impl Abort, object: &mut Object) -> Result<(), AllocError> {
    let data = standard(rt, object, StandardSection::Data)?;
    let zeros = standard(rt, object, StandardSection::UninitializedData)?;
    let a = symbol(object, b"a")?;
    let b = symbol(object, b"b")?;
    let c = symbol(object, b"c")?;
    let d = symbol(object, b"d")?;
    assert_eq!(rt; zeros_added(rt, object, a, data, 3, 1)?, 0);
    assert_eq!(rt; zeros_added(rt, object, b, data, 2, 4)?, 4);
    assert_eq!(rt;
        zeros_added(rt, object, c, zeros, 0x4000_0000_0000_0001, 2)?,
        0
    );
    assert_eq!(rt;
        zeros_added(rt, object, d, zeros, 5, 16)?,
        0x4000_0000_0000_0010
    );
    let written = section_at(object, data)?;
    assert!(rt; written.contents() == b"\0\0\0\0\0\0".as_slice());
    let counted = section_at(object, zeros)?;
    assert_eq!(rt; counted.contents().len(), 0);
    assert_eq!(rt; counted.size(), 0x4000_0000_0000_0015);
    assert_eq!(rt; counted.align(), 16);
    assert_eq!(rt; object.content_sum(), 0x4000_0000_0000_0022);
    Ok(())
}

#[test]
fn zeros_of_a_zero_fill_section_are_a_number(rt: HostRuntime) -> Result<(), Fail> {
    let mut object = Object::new(rt.alloc(), BinaryFormat::Elf, Architecture::X86_64, 0);
    place_zeros(&rt, &mut object)?;
    Ok(())
}

// The offset of contents that define a symbol of Mach-O.
fn added_in_mach_o(
    rt: &impl Abort,
    object: &mut Object,
    symbol: SymbolId,
    section: SectionId,
    contents: &[u8],
    align: u64,
) -> Result<u128, AllocError> {
    let Some(undefined) = object.symbols().get(symbol.as_number()) else {
        return Err(AllocError);
    };
    assert!(rt; matches!(undefined.section, SymbolSection::Undefined));
    let Some(place) = object.sections().get(section.as_number()) else {
        return Err(AllocError);
    };
    assert!(rt; place.macho_flags() == 0);
    assert!(rt; matches!(object.format(), BinaryFormat::Macho));
    assert!(rt; object.content_sum() < 1000);
    assert!(rt; align.is_power_of_two());
    object.add_symbol_data(symbol, section, contents, align)
}

fn place_nothing(rt: &impl Abort, object: &mut Object) -> Result<u128, AllocError> {
    let section = object.add_section(b"__DATA", b"__data", SectionKind::Data, 0)?;
    let id = symbol(object, b"_a")?;
    added_in_mach_o(rt, object, id, section, b"", 1)
}

#[test]
fn empty_contents_take_a_byte_of_mach_o(rt: HostRuntime) -> Result<(), Fail> {
    let mut object = Object::new(rt.alloc(), BinaryFormat::Macho, Architecture::Aarch64, 0);
    assert_eq!(rt; place_nothing(&rt, &mut object)?, 0);
    assert_eq!(rt; object.content_sum(), 2);
    Ok(())
}

// A section gets a relocation at this offset.
fn relate(
    rt: &impl Abort,
    object: &mut Object,
    section: SectionId,
    offset: u64,
) -> Result<(), AllocError> {
    assert!(rt; section.as_number() < object.sections().len());
    let relocation = Relocation {
        offset,
        symbol: SymbolId::from_number(0),
        flags: RelocationFlags::Elf { r_type: 1 },
        addend: -4,
    };
    object.add_relocation(section, relocation)
}

fn relate_twice(rt: &impl Abort, object: &mut Object) -> Result<(u64, u64), AllocError> {
    let text = standard(rt, object, StandardSection::Text)?;
    relate(rt, object, text, 8)?;
    relate(rt, object, text, 4)?;
    match section_at(object, text)?.relocations() {
        [first, second] => Ok((first.offset, second.offset)),
        _ => Err(AllocError),
    }
}

#[test]
fn relocations_stand_in_the_order_in_which_they_came(rt: HostRuntime) -> Result<(), Fail> {
    let mut object = Object::new(rt.alloc(), BinaryFormat::Elf, Architecture::X86_64, 0);
    assert_eq!(rt; relate_twice(&rt, &mut object)?, (8, 4));
    Ok(())
}

fn retain_second(rt: &impl Abort, object: &mut Object) -> Result<(bool, bool), AllocError> {
    let first = object.add_section(b"", b".a", SectionKind::Data, 0)?;
    let second = object.add_section(b"", b".b", SectionKind::Data, 0)?;
    assert!(rt; second.as_number() < object.sections().len());
    object.set_retain(second);
    Ok((
        section_at(object, first)?.retain(),
        section_at(object, second)?.retain(),
    ))
}

#[test]
fn the_section_that_was_marked_is_kept(rt: HostRuntime) -> Result<(), Fail> {
    let mut object = Object::new(rt.alloc(), BinaryFormat::Elf, Architecture::X86_64, 0);
    assert_eq!(rt; retain_second(&rt, &mut object)?, (false, true));
    Ok(())
}

fn open_sections(rt: &impl Abort, object: &mut Object) -> Result<(), AllocError> {
    let text = standard(rt, object, StandardSection::Text)?;
    let zeros = standard(rt, object, StandardSection::UninitializedTls)?;
    let again = standard(rt, object, StandardSection::Text)?;
    assert_eq!(rt; text.as_number(), 0);
    assert_eq!(rt; zeros.as_number(), 1);
    assert_eq!(rt; again.as_number(), 0);
    assert!(rt; matches!(object.format(), BinaryFormat::Elf));
    let own = object.add_subsection(StandardSection::Text)?;
    assert_eq!(rt; own.as_number(), 2);
    assert_eq!(rt; object.sections().len(), 3);
    assert!(rt; own.as_number() < object.sections().len());
    assert!(rt; object.section_name(own) == b".text.subsection".as_slice());
    assert_eq!(rt; section_at(object, own)?.align(), 1);
    Ok(())
}

#[test]
fn a_standard_section_is_made_once_and_a_subsection_each_time(rt: HostRuntime) -> Result<(), Fail> {
    let mut object = Object::new(rt.alloc(), BinaryFormat::Elf, Architecture::X86_64, 0);
    open_sections(&rt, &mut object)?;
    Ok(())
}

fn add_two_sections(rt: &impl Abort, object: &mut Object) -> Result<(), AllocError> {
    let first = object.add_section(b"__DATA", b"__mine", SectionKind::Data, 0)?;
    let second = object.add_section(b"__DATA", b"__mine", SectionKind::UninitializedData, 1)?;
    assert_eq!(rt; first.as_number(), 0);
    assert_eq!(rt; second.as_number(), 1);
    assert!(rt; second.as_number() < object.sections().len());
    assert!(rt; object.section_segment(second) == b"__DATA".as_slice());
    assert!(rt; object.section_name(second) == b"__mine".as_slice());
    let section = section_at(object, second)?;
    assert_eq!(rt; section.macho_flags(), 1);
    assert!(rt; matches!(section.kind(), SectionKind::UninitializedData));
    Ok(())
}

#[test]
fn a_section_of_any_name_is_appended(rt: HostRuntime) -> Result<(), Fail> {
    let mut object = Object::new(rt.alloc(), BinaryFormat::Macho, Architecture::Aarch64, 0);
    add_two_sections(&rt, &mut object)?;
    Ok(())
}

fn write_into_symbols(rt: &impl Abort, object: &mut Object) -> Result<(), AllocError> {
    let f = symbol(object, b"f")?;
    let g = symbol(object, b"g")?;
    assert!(rt; f.as_number() < object.symbols().len());
    object.symbol_mut(f).size = 8;
    assert_eq!(rt; symbol_at(object, f)?.size, 8);
    assert_eq!(rt; symbol_at(object, g)?.size, 0);
    Ok(())
}

#[test]
fn what_is_written_into_a_symbol_stays_there(rt: HostRuntime) -> Result<(), Fail> {
    let mut object = Object::new(rt.alloc(), BinaryFormat::Elf, Architecture::X86_64, 0);
    write_into_symbols(&rt, &mut object)?;
    Ok(())
}

#[test]
fn the_build_version_that_was_set_last_is_told(rt: HostRuntime) {
    let mut object = Object::new(rt.alloc(), BinaryFormat::Macho, Architecture::Aarch64, 0);
    assert!(rt; object.macho_build_version().is_none());
    object.set_macho_build_version(MachOBuildVersion {
        platform: 1,
        minos: 2,
        sdk: 3,
    });
    object.set_macho_build_version(MachOBuildVersion {
        platform: 4,
        minos: 5,
        sdk: 6,
    });
    let told = object
        .macho_build_version()
        .map(|version| (version.platform, version.minos, version.sdk));
    assert_eq!(rt; told, Some((4, 5, 6)));
}

fn name_four(rt: &impl Abort, object: &mut Object) -> Result<(), AllocError> {
    assert_eq!(rt; object.add_file_symbol(b"a\0.o")?.as_number(), 0);
    symbol(object, b"f")?;
    symbol(object, b"f")?;
    symbol(object, b"")?;
    assert_eq!(rt; object.symbol_id(b"f"), Some(SymbolId::from_number(1)));
    assert_eq!(rt; object.symbol_id(b""), Some(SymbolId::from_number(3)));
    assert_eq!(rt; object.symbol_id(b"a\0.o"), Some(SymbolId::from_number(0)));
    assert_eq!(rt; object.symbol_id(b"a"), None);
    let file = symbol_at(object, SymbolId::from_number(0))?;
    assert!(rt; matches!(file.kind, SymbolKind::File));
    assert!(rt; matches!(file.section, SymbolSection::Absolute));
    Ok(())
}

#[test]
fn a_name_finds_the_first_symbol_of_its_bytes(rt: HostRuntime) -> Result<(), Fail> {
    let mut object = Object::new(rt.alloc(), BinaryFormat::Elf, Architecture::X86_64, 0);
    name_four(&rt, &mut object)?;
    Ok(())
}

// A thousand sections and symbols under one text.
fn name_alike(object: &mut Object, text: &[u8]) -> Result<(), AllocError> {
    for _ in 0..1000 {
        object.add_section(text, text, SectionKind::Data, 0)?;
        symbol(object, text)?;
    }
    Ok(())
}

#[test]
fn the_text_of_a_thousand_symbols_and_sections_is_kept_once(rt: HostRuntime) -> Result<(), Fail> {
    let mut object = Object::new(rt.alloc(), BinaryFormat::Macho, Architecture::Aarch64, 0);
    let text = vec![in rt.alloc(); b'n'; 1000]?;
    name_alike(&mut object, &text)?;
    assert_eq!(rt; object.sections().len(), 1000);
    assert_eq!(rt; object.symbols().len(), 1000);
    assert_eq!(rt; object.name_bytes(), 1000);
    symbol(&mut object, b"f")?;
    symbol(&mut object, &text)?;
    assert_eq!(rt; object.name_bytes(), 1001);
    Ok(())
}

// A thousand symbols, each under two bytes of its own, and a section of each of these names.
fn name_apart(object: &mut Object) -> Result<(), AllocError> {
    for number in 0..1000_u16 {
        let name = number.to_le_bytes();
        symbol(object, &name)?;
        object.add_section(b"", &name, SectionKind::Data, 0)?;
    }
    Ok(())
}

#[test]
fn a_thousand_texts_are_kept_and_found_apart(rt: HostRuntime) -> Result<(), Fail> {
    let mut object = Object::new(rt.alloc(), BinaryFormat::Elf, Architecture::X86_64, 0);
    name_apart(&mut object)?;
    assert_eq!(rt; object.name_bytes(), 2000);
    assert_eq!(rt;
        object.symbol_id(b"\xe7\x03"),
        Some(SymbolId::from_number(999))
    );
    assert_eq!(rt; object.symbol_id(b"\xe8\x03"), None);
    let last = SectionId::from_number(999);
    assert!(rt; last.as_number() < object.sections().len());
    assert!(rt; object.section_name(last) == b"\xe7\x03".as_slice());
    Ok(())
}

// Two texts of one FNV-1a number of 64 bits, by a published collision.
const FIRST: &[u8] = b"8yn0iYCKYHlIj4-BwPqk";

const SECOND: &[u8] = b"GReLUrM4wMqfg9yzV3KQ";

fn name_by_one_number(rt: &impl Abort, object: &mut Object) -> Result<(), AllocError> {
    let first = symbol(object, FIRST)?;
    let second = symbol(object, SECOND)?;
    let again = symbol(object, FIRST)?;
    let section = object.add_section(FIRST, SECOND, SectionKind::Data, 0)?;
    assert_eq!(rt; object.name_bytes(), 40);
    assert!(rt; first.as_number() < object.symbols().len());
    assert!(rt; second.as_number() < object.symbols().len());
    assert!(rt; again.as_number() < object.symbols().len());
    assert!(rt; object.symbol_name(first) == FIRST);
    assert!(rt; object.symbol_name(second) == SECOND);
    assert!(rt; object.symbol_name(again) == FIRST);
    assert!(rt; section.as_number() < object.sections().len());
    assert!(rt; object.section_segment(section) == FIRST);
    assert!(rt; object.section_name(section) == SECOND);
    assert_eq!(rt; object.symbol_id(SECOND), Some(SymbolId::from_number(1)));
    Ok(())
}

#[test]
fn texts_of_one_number_are_kept_apart(rt: HostRuntime) -> Result<(), Fail> {
    let mut object = Object::new(rt.alloc(), BinaryFormat::Macho, Architecture::Aarch64, 0);
    name_by_one_number(&rt, &mut object)?;
    Ok(())
}
