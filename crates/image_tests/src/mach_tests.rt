//! Reading of small 64-bit Mach-O files. The rows of the files that clang made are those that `llvm-readobj` shows.

use crate::small_mach_files::{
    CALL_FILE, CLANG_ARM64_FILE, CLANG_X86_64_FILE, EMPTY_FILE, PAGE_FILE, VERSIONED_FILE,
};
use image_read::{Image, MachImage, MachReloc64, MachSymbol, ReadError, read_image};
use std::alloc::{AllocError, Global};
use std::process::Abort;
use std::test::Fail;

fn mach_image(alloc: Global, bytes: &[u8]) -> Result<MachImage<'_>, ReadError> {
    match read_image(alloc, bytes)? {
        Image::Mach(image) => Ok(image),
        Image::Elf(_) | Image::Fat(_) => Err(ReadError::NoReading),
    }
}

fn is_read(alloc: Global, bytes: &[u8]) -> Result<bool, ReadError> {
    match read_image(alloc, bytes) {
        Ok(_) => Ok(true),
        Err(ReadError::NoReading) => Ok(false),
        Err(error) => Err(error),
    }
}

/// The segment and name of a section, its address, size, alignment and flags, and the offset and end of its contents.
type SectionLine = (&'static str, &'static str, [u64; 4], usize, usize);

/// The name of a symbol, its type, section, desc and value.
type SymbolLine = (&'static str, u8, u8, u16, u64);

fn has_sections(
    rt: &impl Abort,
    image: &MachImage<'_>,
    file: &[u8],
    lines: &[SectionLine],
) -> Result<(), Fail> {
    assert_eq!(rt; image.sections().len(), lines.len());
    for (section, line) in image.sections().iter().zip(lines) {
        let (segment, name, numbers, offset, end) = *line;
        assert_eq!(rt; section.segment(), segment.as_bytes(), "of {name}");
        assert_eq!(rt; section.name(), name.as_bytes());
        assert_eq!(rt;
            [
                section.address(),
                section.size(),
                u64::from(section.align()),
                u64::from(section.flags()),
            ],
            numbers,
            "of {name}"
        );
        assert_eq!(rt;
            Some(section.contents()),
            file.get(offset..end),
            "of {name}"
        );
    }
    Ok(())
}

fn has_symbols(rt: &impl Abort, image: &MachImage<'_>, lines: &[SymbolLine]) -> Result<(), Fail> {
    assert_eq!(rt; image.symbols().len(), lines.len());
    for (symbol, line) in image.symbols().iter().zip(lines) {
        let (name, n_type, sect, desc, value) = *line;
        let expected = MachSymbol {
            name: name.as_bytes(),
            n_type,
            sect,
            desc,
            value,
        };
        assert_eq!(rt; *symbol, expected, "of {name}");
    }
    Ok(())
}

/// A relocation by a symbol.
fn relocation(address: u32, symbolnum: u32, pcrel: bool, length: u8, r_type: u8) -> MachReloc64 {
    MachReloc64 {
        address,
        symbolnum,
        pcrel,
        length,
        is_extern: true,
        r_type,
    }
}

fn has_relocations(image: &MachImage<'_>, number: usize, expected: &[MachReloc64]) -> bool {
    match image.sections().get(number) {
        Some(section) => section.relocations() == expected,
        None => false,
    }
}

/// The bytes with one of them changed.
fn changed(alloc: Global, bytes: &[u8], place: usize, value: u8) -> Result<Vec<u8>, AllocError> {
    let mut file = bytes.to_vec(alloc)?;
    if let Some(byte) = file.get_mut(place) {
        *byte = value;
    }
    Ok(file)
}

#[test]
fn the_file_of_no_definitions_has_no_rows(rt: HostRuntime) -> Result<(), Fail> {
    let image = mach_image(rt.alloc(), &EMPTY_FILE)?;
    assert_eq!(rt;
        (image.cputype(), image.cpusubtype(), image.flags()),
        (0x0100_0007, 3, 0x2000)
    );
    assert_eq!(rt; image.build_version(), None);
    assert!(rt; image.sections().is_empty());
    assert!(rt; image.symbols().is_empty());
    Ok(())
}

#[test]
fn a_build_version_is_told(rt: HostRuntime) -> Result<(), Fail> {
    let image = mach_image(rt.alloc(), &VERSIONED_FILE)?;
    assert_eq!(rt; image.build_version(), Some((1, 720_896, 0)));
    Ok(())
}

const CALL_SECTIONS: [SectionLine; 1] = [("__TEXT", "__text", [0, 5, 0, 0x8000_0400], 208, 213)];

const CALL_SYMBOLS: [SymbolLine; 2] = [("_f", 0xf, 1, 0, 0), ("_g", 1, 0, 0, 0)];

#[test]
fn the_file_of_a_call_has_these_rows(rt: HostRuntime) -> Result<(), Fail> {
    let image = mach_image(rt.alloc(), &CALL_FILE)?;
    has_sections(&rt, &image, &CALL_FILE, &CALL_SECTIONS)?;
    has_symbols(&rt, &image, &CALL_SYMBOLS)?;
    assert!(rt; has_relocations(&image, 0, &[relocation(1, 1, true, 2, 1)]));
    Ok(())
}

const PAGE_SECTIONS: [SectionLine; 1] = [("__TEXT", "__text", [0, 4, 2, 0x8000_0400], 208, 212)];

#[test]
fn a_record_of_an_addend_stands_before_its_relocation(rt: HostRuntime) -> Result<(), Fail> {
    let image = mach_image(rt.alloc(), &PAGE_FILE)?;
    assert_eq!(rt; (image.cputype(), image.cpusubtype()), (0x0100_000c, 0));
    has_sections(&rt, &image, &PAGE_FILE, &PAGE_SECTIONS)?;
    has_symbols(&rt, &image, &CALL_SYMBOLS)?;
    let addend = MachReloc64 {
        address: 0,
        symbolnum: 16,
        pcrel: false,
        length: 2,
        is_extern: false,
        r_type: 10,
    };
    assert!(rt; has_relocations(&image, 0, &[addend, relocation(0, 1, true, 2, 3)]));
    Ok(())
}

const X86_64_SECTIONS: [SectionLine; 4] = [
    ("__TEXT", "__text", [0x0, 0x22, 4, 0x80000400], 552, 586),
    ("__DATA", "__data", [0x28, 0x10, 3, 0x0], 592, 608),
    ("__DATA", "__bss", [0x38, 0x4, 2, 0x1], 0, 0),
    ("__DATA", "__common", [0x40, 0x10, 4, 0x1], 0, 0),
];

const X86_64_SYMBOLS: [SymbolLine; 6] = [
    ("_counter", 0xe, 3, 0, 0x38),
    ("_address", 0xf, 2, 0, 0x30),
    ("_f", 0xf, 1, 0, 0x0),
    ("_shared", 0xf, 2, 0, 0x28),
    ("_zeros", 0xf, 4, 0, 0x40),
    ("_other", 0x1, 0, 0, 0x0),
];

#[test]
fn a_file_of_clang_for_x86_64_has_these_rows(rt: HostRuntime) -> Result<(), Fail> {
    let image = mach_image(rt.alloc(), &CLANG_X86_64_FILE)?;
    assert_eq!(rt; image.build_version(), Some((1, 0x000b_0000, 0)));
    has_sections(&rt, &image, &CLANG_X86_64_FILE, &X86_64_SECTIONS)?;
    has_symbols(&rt, &image, &X86_64_SYMBOLS)?;
    let text = [
        relocation(0x1a, 0, true, 2, 1),
        relocation(0x11, 0, true, 2, 1),
        relocation(0xb, 3, true, 2, 1),
        relocation(5, 5, true, 2, 2),
    ];
    assert!(rt; has_relocations(&image, 0, &text));
    assert!(rt; has_relocations(&image, 1, &[relocation(8, 3, false, 3, 0)]));
    Ok(())
}

const ARM64_SECTIONS: [SectionLine; 4] = [
    ("__TEXT", "__text", [0x0, 0x34, 2, 0x80000400], 568, 620),
    ("__DATA", "__data", [0x38, 0x10, 3, 0x0], 624, 640),
    ("__DATA", "__bss", [0x48, 0x4, 2, 0x1], 0, 0),
    ("__DATA", "__common", [0x4c, 0x10, 2, 0x1], 0, 0),
];

const ARM64_SYMBOLS: [SymbolLine; 10] = [
    ("ltmp0", 0xe, 1, 0, 0x0),
    ("_counter", 0xe, 3, 0, 0x48),
    ("ltmp1", 0xe, 2, 0, 0x38),
    ("ltmp2", 0xe, 3, 0, 0x48),
    ("ltmp3", 0xe, 4, 0, 0x4c),
    ("_address", 0xf, 2, 0, 0x40),
    ("_f", 0xf, 1, 0, 0x0),
    ("_shared", 0xf, 2, 0, 0x38),
    ("_zeros", 0xf, 4, 0, 0x4c),
    ("_other", 0x1, 0, 0, 0x0),
];

#[test]
fn a_file_of_clang_for_arm64_has_these_rows(rt: HostRuntime) -> Result<(), Fail> {
    let image = mach_image(rt.alloc(), &CLANG_ARM64_FILE)?;
    assert_eq!(rt; image.build_version(), Some((1, 0x000b_0000, 0)));
    has_sections(&rt, &image, &CLANG_ARM64_FILE, &ARM64_SECTIONS)?;
    has_symbols(&rt, &image, &ARM64_SYMBOLS)?;
    let text = [
        relocation(0x20, 1, false, 2, 4),
        relocation(0x18, 1, false, 2, 4),
        relocation(0x14, 1, true, 2, 3),
        relocation(0x10, 7, false, 2, 4),
        relocation(0xc, 7, true, 2, 3),
        relocation(8, 9, true, 2, 2),
    ];
    assert!(rt; has_relocations(&image, 0, &text));
    assert!(rt; has_relocations(&image, 1, &[relocation(8, 7, false, 3, 0)]));
    Ok(())
}

#[test]
fn each_proper_prefix_of_a_mach_file_has_no_reading(rt: HostRuntime) -> Result<(), Fail> {
    let files: [&[u8]; 4] = [
        &CALL_FILE,
        &VERSIONED_FILE,
        &CLANG_X86_64_FILE,
        &CLANG_ARM64_FILE,
    ];
    for file in files {
        for len in 0..file.len() {
            assert!(rt; !is_read(rt.alloc(), &file[..len])?, "at {len}");
        }
    }
    Ok(())
}

/// A place in `CLANG_X86_64_FILE`, a new byte there, and whether the file still is read.
const CHANGES: [(usize, u8, bool); 30] = [
    // cputype isn't judged
    (0x7, 0x2, true),
    // filetype
    (0xc, 0x6, false),
    // a command that is passed over becomes a second symbol table, a second segment, another one that is passed over
    (0x1d8, 0x2, false),
    (0x1d8, 0x19, false),
    (0x1d8, 0x26, true),
    // its size is less than 8, and it passes the commands
    (0x1dc, 0x7, false),
    (0x1dc, 0x51, false),
    // the size of the build version
    (0x1ac, 0x17, false),
    // the segment has one section more than its command has room for, and one less, in which a symbol lies
    (0x60, 0x5, false),
    (0x60, 0x3, false),
    // __bss passes the file, and takes bytes of it; so does __data
    (0x132, 0x1, true),
    (0x148, 0x0, true),
    (0xe2, 0x1, false),
    // __data becomes each type without bytes in the file
    (0xf8, 0x1, true),
    (0xf8, 0xc, true),
    (0xf8, 0x12, true),
    // the relocations of __text pass the file
    (0xa6, 0x1, false),
    // a record's address; its symbol is the last row, or none
    (0x263, 0x80, false),
    (0x263, 0x7f, true),
    (0x264, 0x5, true),
    (0x264, 0x6, false),
    // a symbol lies in no section, in the last one, in none that is there; a debugger's symbol may
    (0x28d, 0x0, false),
    (0x28d, 0x4, true),
    (0x28d, 0x5, false),
    (0x28c, 0x2e, true),
    // a name begins at the last byte of the strings, and behind them
    (0x288, 0x2f, true),
    (0x288, 0x30, false),
    // the strings end behind the last name's zero byte, and before it
    (0x1d4, 0x2c, true),
    (0x1d4, 0x2b, false),
    // the symbols pass the file
    (0x1ce, 0x1, false),
];

#[test]
fn a_changed_number_of_a_mach_file_is_judged_by_its_condition(rt: HostRuntime) -> Result<(), Fail> {
    for (place, value, expected) in CHANGES {
        let file = changed(rt.alloc(), &CLANG_X86_64_FILE, place, value)?;
        assert_eq!(rt; is_read(rt.alloc(), &file)?, expected, "{value} at {place}");
    }
    Ok(())
}

/// From which byte of `CALL_FILE` to which one, and from which value to which one, a single changed byte leaves a file
/// that is read, by a judge of another language that was written from the conditions. All others give no reading.
const READ_VALUES: [(usize, usize, u8, u8); 57] = [
    (4, 11, 0, 255),
    (16, 16, 0, 0),
    (20, 20, 176, 231),
    (24, 31, 0, 255),
    (40, 95, 0, 255),
    (100, 143, 0, 255),
    (144, 144, 0, 55),
    (152, 152, 0, 255),
    (156, 159, 0, 255),
    (160, 160, 1, 16),
    (160, 160, 18, 32),
    (160, 160, 34, 68),
    (160, 160, 70, 97),
    (160, 160, 99, 100),
    (160, 160, 102, 113),
    (160, 160, 115, 116),
    (160, 160, 118, 148),
    (160, 160, 150, 156),
    (160, 160, 158, 167),
    (160, 160, 169, 188),
    (160, 160, 190, 204),
    (160, 160, 206, 252),
    (160, 160, 254, 255),
    (164, 164, 0, 5),
    (168, 183, 0, 255),
    (192, 192, 12, 12),
    (192, 192, 21, 21),
    (192, 192, 26, 28),
    (192, 192, 37, 44),
    (192, 192, 48, 52),
    (192, 192, 57, 60),
    (192, 192, 64, 68),
    (192, 192, 80, 84),
    (192, 192, 96, 100),
    (192, 192, 110, 116),
    (192, 192, 128, 132),
    (192, 192, 137, 140),
    (192, 192, 148, 148),
    (192, 192, 156, 156),
    (192, 192, 164, 164),
    (192, 192, 180, 180),
    (192, 192, 196, 196),
    (192, 192, 216, 216),
    (192, 192, 229, 231),
    (201, 201, 0, 1),
    (208, 218, 0, 255),
    (219, 219, 0, 127),
    (220, 220, 0, 1),
    (223, 223, 0, 255),
    (224, 224, 0, 6),
    (228, 228, 0, 255),
    (230, 239, 0, 255),
    (240, 240, 0, 6),
    (244, 244, 0, 13),
    (244, 244, 16, 29),
    (244, 244, 32, 255),
    (245, 261, 0, 255),
];

fn is_listed(place: usize, value: u8) -> bool {
    READ_VALUES.iter().any(|row| row.0 <= place
        && place <= row.1
        && row.2 <= value
        && value <= row.3)
}

#[test]
fn each_change_of_one_byte_of_a_mach_file_is_judged(rt: HostRuntime) -> Result<(), Fail> {
    for (place, byte) in CALL_FILE.iter().enumerate() {
        for value in 0..=255 {
            let file = changed(rt.alloc(), &CALL_FILE, place, value)?;
            let expected = *byte == value || is_listed(place, value);
            assert_eq!(rt; is_read(rt.alloc(), &file)?, expected, "{value} at {place}");
        }
    }
    Ok(())
}
