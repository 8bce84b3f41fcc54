//! Header, commands and rows: Apple's `mach-o/loader.h`, `mach-o/nlist.h` and `mach-o/reloc.h`.

ghost use Rattle.std.specs.Prelude.{◌≡◌, ◌+◌, ◌-◌, ◌*◌, ◌<◌, ◌≤◌, ◌^◌, ◌++◌, take, length, [], ◌∷◌};
ghost use Rattle.std.specs.Int.{trailing_zeros, w64};
ghost use Rattle.byte_core.specs.Strings.{zero_filled};
ghost use Rattle.byte_core.specs.Fields.{field_bytes};
ghost use Rattle.object_core.specs.Object.{is_in_section, is_local_symbol};
ghost use Rattle.object_core.specs.MachRows.{hidden_bit, extern_bits, mach_type, weak_bit, mach_desc};
ghost use Rattle.image_read.specs.MachFile.{MachRelocationRow};
ghost use Rattle.object_macho.specs.Layout.{segment_size};
ghost use Rattle.object_macho.specs.MachHolds.{version_command, version_for, symtab_command};
ghost use Rattle.object_macho.specs.File.{mach_header_fields, mach_header_bytes, mach_section_fields, command_bytes, segment_bytes, mach_section_bytes, build_version_bytes, symtab_bytes, mach_symbol_bytes, bit, record_word, mach_record_bytes};
ghost use Rattle.object_macho.specs.Rows.{header_with, segment_with, section_with, symbol_with};

use byte_core::{Field, place_bytes, place_fields, place_zeros};
use object_core::{MachOBuildVersion, Section, Symbol, SymbolKind, SymbolScope, SymbolSection};

/// MH_MAGIC_64.
const MAGIC: [u8; 4] = [0xcf, 0xfa, 0xed, 0xfe];

/// Writes the header of an object file: MH_OBJECT 1, MH_SUBSECTIONS_VIA_SYMBOLS 0x2000.
pub(crate) fn place_header(
    out: &mut [u8],
    cputype: u32,
    cpusubtype: u32,
    ncmds: u32,
    sizeofcmds: u32,
) -> usize
    requires { 32 ≤ length out.old }
    ensures bytes { take result out.new ≡ mach_header_bytes (header_with cputype cpusubtype ncmds sizeofcmds) }
    ensures end { result ≡ 32 }
    ensures len { length out.new ≡ length out.old }
{
    let at = place_bytes(out, 0, &MAGIC);
    place_header_numbers(out, at, cputype, cpusubtype, ncmds, sizeofcmds)
}

fn place_header_numbers(
    out: &mut [u8],
    at: usize,
    cputype: u32,
    cpusubtype: u32,
    ncmds: u32,
    sizeofcmds: u32,
) -> usize
    requires { at + 28 ≤ length out.old }
    ensures bytes { take result out.new ≡ take at out.old ++ field_bytes (mach_header_fields (header_with cputype cpusubtype ncmds sizeofcmds)) }
    ensures end { result ≡ at + 28 }
    ensures len { length out.new ≡ length out.old }
{
    place_fields(
        out,
        at,
        &[
            Field::of_u32(cputype),
            Field::of_u32(cpusubtype),
            Field::of_u32(1),
            Field::of_u32(ncmds),
            Field::of_u32(sizeofcmds),
            Field::of_u32(0x2000),
            Field::of_u32(0),
        ],
    )
}

/// Writes the number and the size of a load command.
pub(crate) fn place_command(out: &mut [u8], at: usize, cmd: u32, cmdsize: u32) -> usize
    requires { at + 8 ≤ length out.old }
    ensures bytes { take result out.new ≡ take at out.old ++ command_bytes (record { cmd = cmd; cmdsize = cmdsize }) }
    ensures end { result ≡ at + 8 }
    ensures len { length out.new ≡ length out.old }
{
    place_fields(out, at, &[Field::of_u32(cmd), Field::of_u32(cmdsize)])
}

/// Writes the segment behind its command's number and size: VM_PROT_READ, VM_PROT_WRITE and VM_PROT_EXECUTE are 7.
pub(crate) fn place_segment(
    out: &mut [u8],
    at: usize,
    vmsize: u64,
    fileoff: u64,
    filesize: u64,
    nsects: u32,
) -> usize
    requires { at + 64 ≤ length out.old }
    ensures bytes { take result out.new ≡ take at out.old ++ segment_bytes (segment_with vmsize fileoff filesize nsects) }
    ensures end { result ≡ at + 64 }
    ensures len { length out.new ≡ length out.old }
{
    let at = place_zeros(out, at, 16);
    place_fields(
        out,
        at,
        &[
            Field::of_u64(0),
            Field::of_u64(vmsize),
            Field::of_u64(fileoff),
            Field::of_u64(filesize),
            Field::of_u32(7),
            Field::of_u32(7),
            Field::of_u32(nsects),
            Field::of_u32(0),
        ],
    )
}

/// Writes a name in 16 bytes, with zeros behind it.
fn place_name(out: &mut [u8], at: usize, name: &[u8]) -> usize
    requires name { length name.now ≤ 16 }
    requires room { at + 16 ≤ length out.old }
    ensures bytes { take result out.new ≡ take at out.old ++ zero_filled 16 name.now }
    ensures end { result ≡ at + 16 }
    ensures len { length out.new ≡ length out.old }
{
    let at = place_bytes(out, at, name);
    place_zeros(out, at, 16 - name.len())
}

/// Where a section's contents and records stand.
#[derive(Clone, Copy)]
pub(crate) struct SectionPlaces {
    pub(crate) address: u64,
    pub(crate) offset: u32,
    pub(crate) reloff: u32,
    pub(crate) nreloc: u32,
}

/// Writes the header of a section of these names.
pub(crate) fn place_section_row(
    out: &mut [u8],
    at: usize,
    segment: &[u8],
    name: &[u8],
    section: &Section,
    places: SectionPlaces,
) -> usize
    requires segment { length segment.now ≤ 16 }
    requires name { length name.now ≤ 16 }
    requires size { (section.now).size < 2 ^ 64 }
    requires room { at + 80 ≤ length out.old }
    ensures bytes { take result out.new ≡ take at out.old ++ mach_section_bytes (section_with segment.now name.now section.now places.address places.offset places.reloff places.nreloc) }
    ensures end { result ≡ at + 80 }
    ensures len { length out.new ≡ length out.old }
{
    let at = place_name(out, at, name);
    let at = place_name(out, at, segment);
    place_section_numbers(out, at, section, places)
}

fn place_section_numbers(
    out: &mut [u8],
    at: usize,
    section: &Section,
    places: SectionPlaces,
) -> usize
    requires size { (section.now).size < 2 ^ 64 }
    requires room { at + 48 ≤ length out.old }
    ensures bytes { take result out.new ≡ take at out.old ++ field_bytes (mach_section_fields (section_with [] [] section.now places.address places.offset places.reloff places.nreloc)) }
    ensures end { result ≡ at + 48 }
    ensures len { length out.new ≡ length out.old }
    ensures flags { (section.now).macho_flags < 2 ^ 32 }
{
    let size = section.size() as u64;
    let power = section.align().trailing_zeros();
    let flags = section.macho_flags();
    place_fields(
        out,
        at,
        &[
            Field::of_u64(places.address),
            Field::of_u64(size),
            Field::of_u32(places.offset),
            Field::of_u32(power),
            Field::of_u32(places.reloff),
            Field::of_u32(places.nreloc),
            Field::of_u32(flags),
            Field::of_u32(0),
            Field::of_u32(0),
            Field::of_u32(0),
        ],
    )
}

/// Writes LC_BUILD_VERSION.
pub(crate) fn place_version(out: &mut [u8], at: usize, version: MachOBuildVersion) -> usize
    requires { at + 24 ≤ length out.old }
    ensures bytes { take result out.new ≡ take at out.old ++ (command_bytes version_command ++ build_version_bytes (version_for version)) }
    ensures end { result ≡ at + 24 }
    ensures len { length out.new ≡ length out.old }
{
    let at = place_command(out, at, 0x32, 24);
    place_fields(
        out,
        at,
        &[
            Field::of_u32(version.platform),
            Field::of_u32(version.minos),
            Field::of_u32(version.sdk),
            Field::of_u32(0),
        ],
    )
}

/// Writes LC_SYMTAB.
pub(crate) fn place_symtab(
    out: &mut [u8],
    at: usize,
    symoff: u32,
    nsyms: u32,
    stroff: u32,
    strsize: u32,
) -> usize
    requires { at + 24 ≤ length out.old }
    ensures bytes { take result out.new ≡ take at out.old ++ (command_bytes symtab_command ++ symtab_bytes (record { symoff = symoff; nsyms = nsyms; stroff = stroff; strsize = strsize })) }
    ensures end { result ≡ at + 24 }
    ensures len { length out.new ≡ length out.old }
{
    let at = place_command(out, at, 2, 24);
    place_fields(
        out,
        at,
        &[
            Field::of_u32(symoff),
            Field::of_u32(nsyms),
            Field::of_u32(stroff),
            Field::of_u32(strsize),
        ],
    )
}

/// Writes a symbol whose name stands at `strx`.
pub(crate) fn place_symbol_row(
    out: &mut [u8],
    at: usize,
    strx: u32,
    symbol: &Symbol,
    sect: u8,
    value: u64,
) -> usize
    requires { at + 16 ≤ length out.old }
    ensures bytes { take result out.new ≡ take at out.old ++ mach_symbol_bytes (symbol_with strx symbol.now sect value) }
    ensures end { result ≡ at + 16 }
    ensures len { length out.new ≡ length out.old }
{
    place_fields(
        out,
        at,
        &[
            Field::of_u32(strx),
            Field::of_u8(symbol_type(symbol)),
            Field::of_u8(sect),
            Field::of_u16(description(symbol)),
            Field::of_u64(value),
        ],
    )
}

/// Only this file sees the symbol.
pub(crate) fn is_local(symbol: &Symbol) -> bool
    ensures { result ≡ is_local_symbol symbol.now }
{
    match symbol.kind {
        SymbolKind::File | SymbolKind::Label => true,
        _ => is_in_section(symbol) && matches!(symbol.scope, SymbolScope::Compilation),
    }
}

fn is_in_section(symbol: &Symbol) -> bool
    ensures { result ≡ is_in_section (symbol.now).section }
{
    matches!(symbol.section, SymbolSection::Section(_))
}

/// N_PEXT 0x10 for a symbol that only the linked file sees.
fn hidden(symbol: &Symbol) -> u8
    ensures value { result ≡ hidden_bit (symbol.now).scope (symbol.now).weak }
    ensures bound { result < 17 }
{
    match symbol.scope {
        SymbolScope::Linkage => { if symbol.weak { 0 } else { 0x10 } }
        _ => 0,
    }
}

/// N_SECT 0xe in a section, else N_UNDF 0, with N_EXT 1 and N_PEXT 0x10.
fn symbol_type(symbol: &Symbol) -> u8
    ensures { result ≡ mach_type symbol.now }
{
    let place = if is_in_section(symbol) { 0x0e } else { 0 };
    let seen = if is_local(symbol) {
        0
    } else {
        1 + hidden(symbol)
    };
    place + seen
}

/// N_WEAK_DEF 0x80 for a weak definition, N_WEAK_REF 0x40 for a weak name that is undefined.
fn weak(symbol: &Symbol) -> u16
    ensures value { result ≡ weak_bit symbol.now }
    ensures bound { result < 129 }
{
    if is_local(symbol) || !symbol.weak {
        0
    } else if is_in_section(symbol) {
        0x80
    } else {
        0x40
    }
}

/// The weak bit, and N_NO_DEAD_STRIP 0x20.
fn description(symbol: &Symbol) -> u16
    ensures { result ≡ mach_desc symbol.now }
{
    let kept = if symbol.no_dead_strip { 0x20 } else { 0 };
    weak(symbol) + kept
}
