//! Values from outside: the names of architectures, the table of a small fat file, texts.

use goblin_mach::cputype::{get_arch_from_flag, get_arch_name_from_types};
use goblin_mach::{Error, FAT_MAGIC, FatArch, MultiArch, peek};
use std::test::Fail;

// The header and the two entries of a fat file with 100 bytes for x86_64 and 50 for arm64.
const TWO_ENTRIES: [u8; 48] = [
    0xca, 0xfe, 0xba, 0xbe, 0, 0, 0, 2, 1, 0, 0, 7, 0, 0, 0, 3, 0, 0, 0x40, 0, 0, 0, 0, 0x64, 0, 0,
    0, 0x0e, 1, 0, 0, 0x0c, 0, 0, 0, 0, 0, 0, 0x80, 0, 0, 0, 0, 0x32, 0, 0, 0, 0x0e,
];

const FIRST: FatArch = FatArch {
    cputype: 0x0100_0007,
    cpusubtype: 3,
    offset: 16384,
    size: 100,
    align: 14,
};

const SECOND: FatArch = FatArch {
    cputype: 0x0100_000c,
    cpusubtype: 0,
    offset: 32768,
    size: 50,
    align: 14,
};

#[test]
fn a_name_stands_for_a_type_and_a_subtype(rt: HostRuntime) {
    for (name, pair) in [
        ("pentium", Some((7, 5))),
        ("pentpro", Some((7, 22))),
        ("x86", Some((7, 3))),
        ("arm64e", Some((0x0100_000c, 2))),
        ("ppc970-64", Some((0x0100_0012, 100))),
        ("any", Some((0xffff_ffff, 0xffff_ffff))),
        ("ARM64", None),
        ("", None),
    ] {
        assert_eq!(rt; get_arch_from_flag(name), pair);
    }
}

#[test]
fn a_subtype_is_compared_with_its_feature_bits(rt: HostRuntime) {
    assert_eq!(rt; get_arch_name_from_types(7, 5), Some("i586"));
    assert_eq!(rt; get_arch_name_from_types(0x0100_000c, 2), Some("arm64e"));
    assert_eq!(rt; get_arch_name_from_types(0x0100_000c, 0x8000_0002), None);
}

#[test]
fn the_two_entries_of_a_fat_header(rt: HostRuntime) -> Result<(), Fail> {
    let arches = MultiArch::new(&TWO_ENTRIES)?.arches(rt.alloc())?;
    assert!(rt; arches.as_slice() == [FIRST, SECOND].as_slice());
    Ok(())
}

#[test]
fn a_count_past_the_end_ends_with_one_error(rt: HostRuntime) -> Result<(), Fail> {
    let mut fat = MultiArch::new(&TWO_ENTRIES)?;
    fat.narches = usize::MAX;
    let mut items = fat.iter_arches();
    assert!(rt; items.next() == Some(Ok(FIRST)));
    assert!(rt; items.next() == Some(Ok(SECOND)));
    assert!(rt; items.next() == Some(Err(Error::BufferTooShort)));
    assert!(rt; items.next().is_none());
    Ok(())
}

#[test]
fn short_bytes_are_refused(rt: HostRuntime) {
    assert!(rt; peek(&TWO_ENTRIES, 0) == Ok(FAT_MAGIC));
    assert_eq!(rt; peek(&TWO_ENTRIES[..3], 0), Err(Error::BufferTooShort));
    assert_eq!(rt; peek(&TWO_ENTRIES, usize::MAX), Err(Error::BufferTooShort));
    assert_eq!(rt;
        MultiArch::new(&TWO_ENTRIES[..7]).err(),
        Some(Error::BufferTooShort)
    );
    assert!(rt; MultiArch::new(&TWO_ENTRIES[..8]).is_ok());
}

#[test]
fn errors_show_their_texts(rt: HostRuntime) -> Result<(), Fail> {
    for (error, text) in [
        (
            Error::BadMagic(0x6865_6c6c),
            "unknown magic number: 0x68656c6c",
        ),
        (Error::BufferTooShort, "the bytes end too early"),
        (Error::OutOfMemory, "out of memory"),
    ] {
        assert_eq!(rt; error.to_string(rt.alloc())?.as_str(), text);
    }
    Ok(())
}
