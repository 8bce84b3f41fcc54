//! Steps that make objects, each of which tests what its call needs.

use ir_core::{Architecture, BinaryFormat, is_zero_fill_type};
use object_core::{
    MachOBuildVersion, Object, Relocation, RelocationFlags, SectionId, SectionKind, Symbol,
    SymbolId, SymbolKind, SymbolScope, SymbolSection,
};
use std::alloc::{AllocError, Global};
use std::process::Abort;

/// A symbol that isn't defined.
pub fn undefined(scope: SymbolScope) -> Symbol {
    Symbol {
        value: 0,
        size: 0,
        kind: SymbolKind::Text,
        scope,
        weak: false,
        section: SymbolSection::Undefined,
        no_dead_strip: false,
    }
}

/// A section of a name in a segment, with its type and attributes.
pub fn section(
    object: &mut Object,
    segment: &[u8],
    name: &[u8],
    flags: u32,
) -> Result<SectionId, AllocError> {
    let kind = if flags == 1 {
        SectionKind::UninitializedData
    } else {
        SectionKind::Data
    };
    object.add_section(segment, name, kind, flags)
}

/// Contents that define a symbol.
pub fn put(
    rt: &impl Abort,
    object: &mut Object,
    symbol: SymbolId,
    section: SectionId,
    contents: &[u8],
    align: u64,
) -> Result<u128, AllocError> {
    let Some(undefined) = object.symbols().get(symbol.as_number()) else {
        return Err(AllocError);
    };
    assert!(rt; matches!(undefined.section, SymbolSection::Undefined));
    let Some(place) = object.sections().get(section.as_number()) else {
        return Err(AllocError);
    };
    assert!(rt; matches!(object.format(), BinaryFormat::Macho));
    assert!(rt; !is_zero_fill_type(place.macho_flags()));
    assert!(rt; object.content_sum() < 1000);
    assert!(rt; align.is_power_of_two());
    object.add_symbol_data(symbol, section, contents, align)
}

/// Zeros that define a symbol of a zero-fill section.
pub fn put_zeros(
    rt: &impl Abort,
    object: &mut Object,
    symbol: SymbolId,
    section: SectionId,
    size: u64,
    align: u64,
) -> Result<u128, AllocError> {
    let Some(undefined) = object.symbols().get(symbol.as_number()) else {
        return Err(AllocError);
    };
    assert!(rt; matches!(undefined.section, SymbolSection::Undefined));
    let Some(place) = object.sections().get(section.as_number()) else {
        return Err(AllocError);
    };
    assert!(rt; matches!(object.format(), BinaryFormat::Macho));
    assert!(rt; is_zero_fill_type(place.macho_flags()));
    assert!(rt; object.content_sum() < 1000);
    assert!(rt; align.is_power_of_two());
    object.add_symbol_bss(symbol, section, size, align)
}

/// A relocation behind those of a section: its place, its symbol, its kind by type, relative mark and width, and its addend.
pub fn relocate(
    rt: &impl Abort,
    object: &mut Object,
    section: SectionId,
    offset: u64,
    symbol: SymbolId,
    kind: (u8, bool, u8),
    addend: i64,
) -> Result<(), AllocError> {
    assert!(rt; section.as_number() < object.sections().len());
    let relocation = Relocation {
        offset,
        symbol,
        flags: RelocationFlags::MachO {
            r_type: kind.0,
            r_pcrel: kind.1,
            r_length: kind.2,
        },
        addend,
    };
    object.add_relocation(section, relocation)
}

/// An object without sections, with a file symbol.
pub fn empty(alloc: Global, architecture: Architecture) -> Result<Object, AllocError> {
    let mut object = Object::new(alloc, BinaryFormat::Macho, architecture, 0);
    object.add_file_symbol(b"a.o")?;
    Ok(object)
}

/// A function `f` that calls `g`.
pub fn calling(rt: &impl Abort, alloc: Global) -> Result<Object, AllocError> {
    let mut object = empty(alloc, Architecture::X86_64)?;
    let text = section(&mut object, b"__TEXT", b"__text", 0x8000_0400)?;
    let f = object.add_symbol(b"f", undefined(SymbolScope::Dynamic))?;
    let g = object.add_symbol(b"g", undefined(SymbolScope::Dynamic))?;
    put(rt, &mut object, f, text, b"\xe8\x11\x22\x33\x44", 1)?;
    relocate(rt, &mut object, text, 1, g, (1, true, 2), -4)?;
    Ok(object)
}

const MAC_OS_11: MachOBuildVersion = MachOBuildVersion {
    platform: 1,
    minos: 720_896,
    sdk: 0,
};

/// An object of x86_64 with every kind of symbol, a zero-fill section, and a relocation of every type.
pub fn many(rt: &impl Abort, alloc: Global) -> Result<Object, AllocError> {
    let mut object = empty(alloc, Architecture::X86_64)?;
    object.set_macho_build_version(MAC_OS_11);
    let zeros = section(&mut object, b"__DATA", b"__bss", 1)?;
    let text = section(&mut object, b"__TEXT", b"__text", 0x8000_0400)?;
    let data = section(&mut object, b"__DATA", b"__data", 0)?;
    let mine = section(&mut object, b"__DATA", b"__mine", 0x1000_0005)?;
    let f = object.add_symbol(b"f", undefined(SymbolScope::Dynamic))?;
    let mut weak = undefined(SymbolScope::Dynamic);
    weak.weak = true;
    let g = object.add_symbol(b"g", weak)?;
    let mut hidden = undefined(SymbolScope::Linkage);
    hidden.no_dead_strip = true;
    let h = object.add_symbol(b"h", hidden)?;
    let l = object.add_symbol(b"l", undefined(SymbolScope::Compilation))?;
    let mut weak_data = undefined(SymbolScope::Dynamic);
    weak_data.weak = true;
    weak_data.kind = SymbolKind::Data;
    let w = object.add_symbol(b"w", weak_data)?;
    let x = object.add_symbol(b"x", undefined(SymbolScope::Compilation))?;
    put_zeros(rt, &mut object, x, zeros, 5, 8)?;
    let code = [
        1, 2, 3, 4, 5, 6, 7, 8, 9, 10, 11, 12, 13, 14, 15, 16, 17, 18, 19, 20, 21, 22, 23, 24, 25,
        26, 27, 28, 29, 30,
    ];
    put(rt, &mut object, f, text, &code, 16)?;
    put(rt, &mut object, l, text, b"", 4)?;
    put(rt, &mut object, h, data, &[255; 16], 8)?;
    put(rt, &mut object, w, mine, &[7, 8], 2)?;
    let label = Symbol {
        value: 4,
        size: 0,
        kind: SymbolKind::Label,
        scope: SymbolScope::Compilation,
        weak: false,
        section: SymbolSection::Section(text),
        no_dead_strip: false,
    };
    let label = object.add_symbol(b".L0_4", label)?;
    relocate(rt, &mut object, text, 0, g, (0, false, 2), 7)?;
    relocate(rt, &mut object, text, 4, g, (1, true, 2), -4)?;
    relocate(rt, &mut object, text, 8, g, (2, true, 2), -5)?;
    relocate(rt, &mut object, text, 12, g, (4, true, 2), -4)?;
    relocate(rt, &mut object, text, 16, label, (9, true, 2), 0)?;
    relocate(rt, &mut object, data, 8, l, (0, false, 3), -2)?;
    relocate(rt, &mut object, data, 0, x, (0, false, 3), 1 << 40)?;
    Ok(object)
}

/// An object of arm64 with a relocation of every type, some with addends.
pub fn arm(rt: &impl Abort, alloc: Global) -> Result<Object, AllocError> {
    let mut object = empty(alloc, Architecture::Aarch64)?;
    let text = section(&mut object, b"__TEXT", b"__text", 0x8000_0400)?;
    let data = section(&mut object, b"__DATA", b"__data", 0)?;
    let f = object.add_symbol(b"f", undefined(SymbolScope::Dynamic))?;
    let g = object.add_symbol(b"g", undefined(SymbolScope::Dynamic))?;
    let v = object.add_symbol(b"v", undefined(SymbolScope::Compilation))?;
    let code = [
        64, 65, 66, 67, 68, 69, 70, 71, 72, 73, 74, 75, 76, 77, 78, 79, 80, 81, 82, 83, 84, 85, 86,
        87, 88, 89, 90, 91, 92, 93, 94, 95, 96, 97, 98, 99,
    ];
    put(rt, &mut object, f, text, &code, 4)?;
    put(rt, &mut object, v, data, &[170; 16], 8)?;
    relocate(rt, &mut object, text, 0, g, (2, true, 2), 0)?;
    relocate(rt, &mut object, text, 4, g, (2, true, 2), -8)?;
    relocate(rt, &mut object, text, 8, g, (3, true, 2), 4096)?;
    relocate(rt, &mut object, text, 12, g, (4, false, 2), 8)?;
    relocate(rt, &mut object, text, 16, g, (5, true, 2), 0)?;
    relocate(rt, &mut object, text, 20, g, (6, false, 2), 0)?;
    relocate(rt, &mut object, text, 24, g, (8, true, 2), 0)?;
    relocate(rt, &mut object, text, 28, g, (9, false, 2), 0)?;
    relocate(rt, &mut object, text, 32, v, (0, false, 2), -1)?;
    relocate(rt, &mut object, data, 8, f, (0, false, 3), 16)?;
    Ok(object)
}
