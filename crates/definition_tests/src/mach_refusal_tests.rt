//! What Mach-O alone refuses: section texts, thread-local data, fields that overlap, and addends without room.

use cranelift_module::{
    BackendCause, DataDescription, DataId, Linkage, ModuleDeclarations, ModuleError, ModuleReloc,
    ModuleRelocTarget, ModuleResult, SectionFault, check_data_definable, check_relocs,
    parse_section,
};
use ir_core::{Architecture, BinaryFormat, Environment, Reloc, System, TargetIsa, Triple};
use std::alloc::Global;
use std::test::Fail;

fn target(alloc: Global, architecture: Architecture, binary_format: BinaryFormat) -> TargetIsa {
    let triple = Triple {
        architecture,
        binary_format,
        system: System::MacOSX,
        version: None,
        environment: Environment::Unknown,
    };
    TargetIsa::new(alloc, triple)
}

fn asks_for(text: &str, segment: &str, name: &str, flags: u32) -> bool {
    match parse_section(text, BinaryFormat::Macho) {
        Ok(section) => section.0 == segment && section.1 == name && section.2 == flags,
        Err(_) => false,
    }
}

fn fails_by(text: &str, fault: SectionFault) -> bool {
    match parse_section(text, BinaryFormat::Macho) {
        Ok(_) => false,
        Err(told) => told == fault,
    }
}

#[test]
fn a_section_text_gives_segment_section_and_flags(rt: HostRuntime) -> Result<(), Fail> {
    assert!(rt;
        asks_for(
            "__DATA,__mod_init_func,mod_init_funcs",
            "__DATA",
            "__mod_init_func",
            9
        )
    );
    assert!(rt;
        asks_for(
            "__OBJC,__module_info,regular,no_dead_strip",
            "__OBJC",
            "__module_info",
            0x1000_0000
        )
    );
    assert!(rt; asks_for("__TEXT,__text", "__TEXT", "__text", 0));
    assert!(rt; asks_for("__TEXT,__text,regular", "__TEXT", "__text", 0));
    assert!(rt;
        asks_for(
            "foo,bar,literal_pointers,no_toc+no_dead_strip",
            "foo",
            "bar",
            0x5000_0005
        )
    );
    assert!(rt;
        asks_for(
            "__DATA,__thread_bss,thread_local_zerofill",
            "__DATA",
            "__thread_bss",
            0x12
        )
    );
    assert!(rt;
        asks_for(
            "1234567890123456,1234567890123456",
            "1234567890123456",
            "1234567890123456",
            0
        )
    );
    Ok(())
}

#[test]
fn the_first_check_that_a_section_text_fails_is_told(rt: HostRuntime) -> Result<(), Fail> {
    assert!(rt; fails_by("foo", SectionFault::NoComma));
    assert!(rt; fails_by("12345678901234567,bar", SectionFault::SegmentLong));
    assert!(rt; fails_by("12345678901234567", SectionFault::SegmentLong));
    assert!(rt; fails_by("foo,12345678901234567", SectionFault::SectionLong));
    assert!(rt; fails_by("foo,12345678901234567,unknown", SectionFault::SectionLong));
    assert!(rt; fails_by("foo,bar,unknown", SectionFault::UnknownType));
    assert!(rt; fails_by("foo,bar,", SectionFault::UnknownType));
    assert!(rt; fails_by("foo,bar,unknown,unknown", SectionFault::UnknownType));
    assert!(rt; fails_by("foo,bar,regular,unknown", SectionFault::UnknownAttribute));
    assert!(rt; fails_by("foo,bar,regular,", SectionFault::UnknownAttribute));
    assert!(rt;
        fails_by(
            "foo,bar,regular,no_dead_strip+unknown",
            SectionFault::UnknownAttribute
        )
    );
    assert!(rt;
        fails_by(
            "foo,bar,regular,no_dead_strip,unknown",
            SectionFault::TooManyParts
        )
    );
    Ok(())
}

#[test]
fn another_format_takes_the_whole_text_as_the_name(rt: HostRuntime) -> Result<(), Fail> {
    match parse_section("a,b,unknown", BinaryFormat::Elf) {
        Ok(section) => {
            assert_eq!(rt; section.0, "");
            assert_eq!(rt; section.1, "a,b,unknown");
            assert_eq!(rt; section.2, 0);
        }
        Err(_) => return Err(Fail::from("the text was refused")),
    }
    Ok(())
}

/// A declared data object.
fn declared(alloc: Global, tls: bool) -> ModuleResult<(ModuleDeclarations, DataId)> {
    let mut declarations = ModuleDeclarations::new(alloc);
    let (id, _) = declarations.declare_data("d", Linkage::Local, true, tls)?;
    Ok((declarations, id))
}

/// The cause by which a data object is refused in a format, none where it is taken.
fn cause_in(
    alloc: Global,
    format: BinaryFormat,
    tls: bool,
    desc: &DataDescription,
) -> ModuleResult<Option<BackendCause>> {
    let (declarations, id) = declared(alloc, tls)?;
    match check_data_definable(alloc, format, &declarations, false, id, desc) {
        Ok(()) => Ok(None),
        Err(ModuleError::Backend(cause)) => Ok(Some(cause)),
        Err(error) => Err(error),
    }
}

fn given_bytes(alloc: Global, section: &str, contents: &[u8]) -> ModuleResult<DataDescription> {
    let contents = contents.to_vec(alloc)?;
    let mut desc = DataDescription::new(alloc);
    desc.define(contents);
    desc.set_custom_section(alloc, section)?;
    Ok(desc)
}

fn given_zeros(alloc: Global, section: &str) -> ModuleResult<DataDescription> {
    let mut desc = DataDescription::new(alloc);
    desc.define_zeroinit(4);
    desc.set_custom_section(alloc, section)?;
    Ok(desc)
}

#[test]
fn bytes_are_refused_under_a_text_of_zero_fill(rt: HostRuntime) -> Result<(), Fail> {
    let alloc = rt.alloc();
    let bytes = given_bytes(alloc, "__DATA,__mine,zerofill", b"\x01")?;
    assert_eq!(rt;
        cause_in(alloc, BinaryFormat::Macho, false, &bytes)?,
        Some(BackendCause::ZerofillBytes)
    );
    assert_eq!(rt; cause_in(alloc, BinaryFormat::Elf, false, &bytes)?, None);
    let none = given_bytes(alloc, "__DATA,__mine,zerofill", b"")?;
    assert_eq!(rt;
        cause_in(alloc, BinaryFormat::Macho, false, &none)?,
        Some(BackendCause::ZerofillBytes)
    );
    let zeros = given_zeros(alloc, "__DATA,__mine,zerofill")?;
    assert_eq!(rt; cause_in(alloc, BinaryFormat::Macho, false, &zeros)?, None);
    Ok(())
}

#[test]
fn a_section_text_is_refused_by_its_fault(rt: HostRuntime) -> Result<(), Fail> {
    let alloc = rt.alloc();
    let desc = given_zeros(alloc, "__DATA")?;
    assert_eq!(rt;
        cause_in(alloc, BinaryFormat::Macho, false, &desc)?,
        Some(BackendCause::BadSection(SectionFault::NoComma))
    );
    assert_eq!(rt; cause_in(alloc, BinaryFormat::Elf, false, &desc)?, None);
    Ok(())
}

#[test]
fn thread_local_data_is_not_defined_in_mach_o(rt: HostRuntime) -> Result<(), Fail> {
    let alloc = rt.alloc();
    let mut desc = DataDescription::new(alloc);
    desc.define_zeroinit(8);
    assert_eq!(rt;
        cause_in(alloc, BinaryFormat::Macho, true, &desc)?,
        Some(BackendCause::TlsPlace)
    );
    assert_eq!(rt; cause_in(alloc, BinaryFormat::Elf, true, &desc)?, None);
    assert_eq!(rt; cause_in(alloc, BinaryFormat::Macho, false, &desc)?, None);
    Ok(())
}

/// The place of the relocation of this kind at an offset, to function 0.
fn relocation(offset: u32, kind: Reloc, addend: i64) -> ModuleReloc {
    ModuleReloc {
        offset,
        kind,
        name: ModuleRelocTarget::user(0, 0),
        addend,
    }
}

/// The cause by which relocations in 16 bytes are refused, none where they are taken.
fn cause_of(
    alloc: Global,
    isa: &TargetIsa,
    relocs: &[ModuleReloc],
) -> ModuleResult<Option<BackendCause>> {
    match check_relocs(alloc, isa, Some(16), relocs) {
        Ok(()) => Ok(None),
        Err(ModuleError::Backend(cause)) => Ok(Some(cause)),
        Err(error) => Err(error),
    }
}

#[test]
fn a_field_shares_no_byte_with_an_earlier_one_in_mach_o(rt: HostRuntime) -> Result<(), Fail> {
    let alloc = rt.alloc();
    let isa = target(alloc, Architecture::X86_64, BinaryFormat::Macho);
    let apart = [
        relocation(8, Reloc::Abs8, 0),
        relocation(4, Reloc::X86PCRel4, -4),
        relocation(0, Reloc::Abs4, 0),
    ];
    assert_eq!(rt; cause_of(alloc, &isa, &apart)?, None);
    let meeting = [
        relocation(0, Reloc::Abs4, 0),
        relocation(8, Reloc::Abs8, 0),
        relocation(5, Reloc::X86PCRel4, -4),
    ];
    assert_eq!(rt;
        cause_of(alloc, &isa, &meeting)?,
        Some(BackendCause::BadReloc {
            index: 2,
            offset: 5
        })
    );
    let elf = target(alloc, Architecture::X86_64, BinaryFormat::Elf);
    assert_eq!(rt; cause_of(alloc, &elf, &meeting)?, None);
    let outside = [relocation(13, Reloc::Abs4, 0)];
    assert_eq!(rt;
        cause_of(alloc, &isa, &outside)?,
        Some(BackendCause::BadReloc {
            index: 0,
            offset: 13
        })
    );
    Ok(())
}

/// Whether a relocation with this addend is taken.
fn has_room(alloc: Global, isa: &TargetIsa, kind: Reloc, addend: i64) -> ModuleResult<bool> {
    let relocs = [relocation(0, kind, addend)];
    Ok(cause_of(alloc, isa, &relocs)?.is_none())
}

#[test]
fn an_addend_needs_room_where_mach_o_keeps_it(rt: HostRuntime) -> Result<(), Fail> {
    let alloc = rt.alloc();
    let x86_64 = target(alloc, Architecture::X86_64, BinaryFormat::Macho);
    // The field holds the addend and 4, as a signed number of 32 bits.
    assert!(rt; has_room(alloc, &x86_64, Reloc::X86PCRel4, 0x7fff_fffb)?);
    assert!(rt; !has_room(alloc, &x86_64, Reloc::X86PCRel4, 0x7fff_fffc)?);
    assert!(rt; has_room(alloc, &x86_64, Reloc::X86PCRel4, -0x8000_0004)?);
    assert!(rt; !has_room(alloc, &x86_64, Reloc::X86PCRel4, -0x8000_0005)?);
    assert!(rt; has_room(alloc, &x86_64, Reloc::Abs4, 0x7fff_ffff)?);
    assert!(rt; !has_room(alloc, &x86_64, Reloc::Abs4, 0x8000_0000)?);
    assert!(rt; has_room(alloc, &x86_64, Reloc::Abs8, i64::MIN)?);
    let arm64 = target(alloc, Architecture::Aarch64, BinaryFormat::Macho);
    // A record of the addend has 24 bits.
    assert!(rt; has_room(alloc, &arm64, Reloc::Arm64Call, 0x7f_ffff)?);
    assert!(rt; !has_room(alloc, &arm64, Reloc::Arm64Call, 0x80_0000)?);
    assert!(rt; has_room(alloc, &arm64, Reloc::Aarch64AdrPrelPgHi21, -0x80_0000)?);
    assert!(rt; !has_room(alloc, &arm64, Reloc::Aarch64AdrPrelPgHi21, -0x80_0001)?);
    // The other kinds have no place for one.
    assert!(rt; has_room(alloc, &arm64, Reloc::Aarch64AdrGotPage21, 0)?);
    assert!(rt; !has_room(alloc, &arm64, Reloc::Aarch64AdrGotPage21, 1)?);
    Ok(())
}

#[test]
fn a_kind_of_another_format_is_not_supported(rt: HostRuntime) -> Result<(), Fail> {
    let alloc = rt.alloc();
    let isa = target(alloc, Architecture::X86_64, BinaryFormat::Macho);
    let relocs = [
        relocation(0, Reloc::MachOX86_64Tlv, 0),
        relocation(4, Reloc::ElfX86_64TlsGd, 0),
    ];
    assert_eq!(rt;
        cause_of(alloc, &isa, &relocs)?,
        Some(BackendCause::UnsupportedReloc {
            index: 1,
            kind: Reloc::ElfX86_64TlsGd
        })
    );
    Ok(())
}
