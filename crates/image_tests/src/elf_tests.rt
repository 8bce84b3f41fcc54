//! Reading of small ELF files. The rows of `LLVM_FILE` are those that GNU `readelf` shows.

use crate::small_files::{LLVM_FILE, MAIN_FILE};
use image_read::{ElfImage, ElfReloc, ElfSection, ElfSymbol, Image, ReadError, read_image};
use std::alloc::{AllocError, Global};
use std::process::Abort;
use std::test::Fail;

fn elf_image(alloc: Global, bytes: &[u8]) -> Result<ElfImage<'_>, ReadError> {
    match read_image(alloc, bytes)? {
        Image::Elf(image) => Ok(image),
        Image::Mach(_) | Image::Fat(_) => Err(ReadError::NoReading),
    }
}

fn is_read(alloc: Global, bytes: &[u8]) -> Result<bool, ReadError> {
    match read_image(alloc, bytes) {
        Ok(_) => Ok(true),
        Err(ReadError::NoReading) => Ok(false),
        Err(error) => Err(error),
    }
}

/// Type, flags, address, size, link, info, alignment and size of an entry.
fn numbers_of(section: &ElfSection<'_>) -> [u64; 8] {
    [
        u64::from(section.sh_type()),
        section.flags(),
        section.address(),
        section.size(),
        u64::from(section.link()),
        u64::from(section.info()),
        section.align(),
        section.entsize(),
    ]
}

/// The name of a section, its numbers, and the offset and end of its contents in the file.
type SectionLine = (&'static str, [u64; 8], usize, usize);

fn has_sections(
    rt: &impl Abort,
    image: &ElfImage<'_>,
    file: &[u8],
    lines: &[SectionLine],
) -> Result<(), Fail> {
    assert_eq!(rt; image.sections().len(), lines.len());
    for (section, line) in image.sections().iter().zip(lines) {
        let (name, numbers, offset, end) = *line;
        assert_eq!(rt; section.name(), name.as_bytes());
        assert_eq!(rt; numbers_of(section), numbers, "of {name}");
        assert_eq!(rt;
            Some(section.contents()),
            file.get(offset..end),
            "of {name}"
        );
    }
    Ok(())
}

const MAIN_SECTIONS: [SectionLine; 5] = [
    (".text", [1, 6, 0, 1, 0, 0, 1, 0], 64, 65),
    (".note.GNU-stack", [1, 0, 0, 0, 0, 0, 1, 0], 65, 65),
    (".symtab", [2, 0, 0, 72, 4, 2, 8, 24], 72, 144),
    (".strtab", [3, 0, 0, 10, 0, 0, 1, 0], 144, 154),
    (".shstrtab", [3, 0, 0, 49, 0, 0, 1, 0], 154, 203),
];

const LLVM_SECTIONS: [SectionLine; 7] = [
    (".strtab", [3, 0, 0, 0x36, 0, 0, 1, 0], 0x130, 0x166),
    (".text", [1, 6, 0, 0xd, 0, 0, 4, 0], 0x40, 0x4d),
    (".rela.text", [4, 0x40, 0, 0x30, 7, 2, 8, 24], 0xe8, 0x118),
    (".data", [1, 3, 0, 8, 0, 0, 1, 0], 0x4d, 0x55),
    (".rela.data", [4, 0x40, 0, 0x18, 7, 4, 8, 24], 0x118, 0x130),
    (".bss", [8, 3, 0, 0x10, 0, 0, 1, 0], 0x55, 0x55),
    (".symtab", [2, 0, 0, 0x90, 1, 1, 8, 24], 0x58, 0xe8),
];

const LLVM_SYMBOLS: [(&str, u8, u8, u16, u64, u64); 5] = [
    ("f", 0x10, 0, 2, 0, 0),
    ("g", 0x10, 0, 0, 0, 0),
    ("h", 0x10, 0, 0, 0, 0),
    ("d", 0x10, 0, 4, 0, 0),
    ("z", 0x10, 0, 6, 0, 0),
];

// R_X86_64_PLT32, R_X86_64_REX_GOTPCRELX and R_X86_64_64.
const CALL: ElfReloc = ElfReloc {
    offset: 1,
    symbol: 2,
    r_type: 4,
    addend: -4,
};

const LOAD: ElfReloc = ElfReloc {
    offset: 8,
    symbol: 3,
    r_type: 42,
    addend: -4,
};

const ADDRESS: ElfReloc = ElfReloc {
    offset: 0,
    symbol: 1,
    r_type: 1,
    addend: 4,
};

fn has_relocations(image: &ElfImage<'_>, number: usize, expected: &[ElfReloc]) -> bool {
    match image.sections().get(number) {
        Some(section) => section.relocations() == expected,
        None => false,
    }
}

/// The bytes with one of them changed.
fn changed(alloc: Global, bytes: &[u8], place: usize, value: u8) -> Result<Vec<u8>, AllocError> {
    let mut file = bytes.to_vec(alloc)?;
    if let Some(byte) = file.get_mut(place) {
        *byte = value;
    }
    Ok(file)
}

#[test]
fn the_file_of_an_exported_main_has_these_rows(rt: HostRuntime) -> Result<(), Fail> {
    let image = elf_image(rt.alloc(), &MAIN_FILE)?;
    assert_eq!(rt; image.machine(), 62);
    assert_eq!(rt; image.flags(), 0);
    assert_eq!(rt; image.local_symbols(), 2);
    has_sections(&rt, &image, &MAIN_FILE, &MAIN_SECTIONS)?;
    let symbols = [
        ElfSymbol {
            name: b"a.o",
            info: 4,
            other: 0,
            shndx: 0xfff1,
            value: 0,
            size: 0,
        },
        ElfSymbol {
            name: b"main",
            info: 0x12,
            other: 0,
            shndx: 1,
            value: 0,
            size: 1,
        },
    ];
    assert_eq!(rt; image.symbols(), symbols.as_slice());
    Ok(())
}

#[test]
fn a_file_of_another_order_of_sections_is_read(rt: HostRuntime) -> Result<(), Fail> {
    let image = elf_image(rt.alloc(), &LLVM_FILE)?;
    assert_eq!(rt; image.machine(), 62);
    assert_eq!(rt; image.local_symbols(), 1);
    has_sections(&rt, &image, &LLVM_FILE, &LLVM_SECTIONS)?;
    assert_eq!(rt; image.symbols().len(), 5);
    for (symbol, line) in image.symbols().iter().zip(&LLVM_SYMBOLS) {
        assert_eq!(rt; symbol.name, line.0.as_bytes());
        assert_eq!(rt;
            (symbol.info, symbol.other, symbol.shndx),
            (line.1, line.2, line.3)
        );
        assert_eq!(rt; (symbol.value, symbol.size), (line.4, line.5));
    }
    assert!(rt; has_relocations(&image, 1, &[CALL, LOAD]));
    assert!(rt; has_relocations(&image, 3, &[ADDRESS]));
    for number in [0, 2, 4, 5, 6] {
        assert!(rt; has_relocations(&image, number, &[]));
    }
    Ok(())
}

#[test]
fn records_of_two_sections_for_one_stand_in_the_order_of_headers(
    rt: HostRuntime,
) -> Result<(), Fail> {
    // sh_info of .rela.data
    let file = changed(rt.alloc(), &LLVM_FILE, 0x2d4, 2)?;
    let image = elf_image(rt.alloc(), &file)?;
    assert!(rt; has_relocations(&image, 1, &[CALL, LOAD, ADDRESS]));
    assert!(rt; has_relocations(&image, 3, &[]));
    Ok(())
}

#[test]
fn each_proper_prefix_has_no_reading(rt: HostRuntime) -> Result<(), Fail> {
    for len in 0..MAIN_FILE.len() {
        assert!(rt; !is_read(rt.alloc(), &MAIN_FILE[..len])?, "at {len}");
    }
    for len in 0..LLVM_FILE.len() {
        assert!(rt; !is_read(rt.alloc(), &LLVM_FILE[..len])?, "at {len}");
    }
    Ok(())
}

/// A place in `LLVM_FILE`, a new byte there, and whether the file still is read.
const CHANGES: [(usize, u8, bool); 21] = [
    // e_machine isn't judged
    (0x12, 0xb7, true),
    // of .rela.text: the size of an entry, its size, its link, the section that it relocates
    (0x260, 23, false),
    (0x248, 47, false),
    (0x250, 6, false),
    (0x254, 0, false),
    (0x254, 8, false),
    // of .rela.data: it relocates itself
    (0x2d4, 5, true),
    // the symbol of a relocation: the null row, the last row, none
    (0xf4, 0, true),
    (0xf4, 5, true),
    (0xf4, 6, false),
    // .text is SHT_REL, or passes the file
    (0x1ec, 9, false),
    (0x207, 1, false),
    // .bss is a second symbol table, or its offset passes the file
    (0x2ec, 2, false),
    (0x307, 1, true),
    // .symtab is none, its strings are .text, all of its rows are local, more than all
    (0x32c, 1, false),
    (0x350, 2, false),
    (0x354, 6, true),
    (0x354, 7, false),
    // a symbol in the last section, in none
    (0x76, 7, true),
    (0x76, 8, false),
    // the strings end before the last zero byte
    (0x1c8, 0x35, false),
];

#[test]
fn a_changed_number_is_judged_by_its_condition(rt: HostRuntime) -> Result<(), Fail> {
    for (place, value, expected) in CHANGES {
        let file = changed(rt.alloc(), &LLVM_FILE, place, value)?;
        assert_eq!(rt; is_read(rt.alloc(), &file)?, expected, "{value} at {place}");
    }
    Ok(())
}

/// From which byte of `MAIN_FILE` to which one, and from which value to which one, a single changed byte leaves a file
/// that is read, by a judge of another language that was written from the conditions. All others give no reading.
const READ_VALUES: [(usize, usize, u8, u8); 86] = [
    (7, 15, 0, 255),
    (18, 39, 0, 255),
    (48, 51, 0, 255),
    (54, 57, 0, 255),
    (64, 95, 0, 255),
    (96, 96, 0, 9),
    (100, 101, 0, 255),
    (102, 102, 0, 254),
    (104, 119, 0, 255),
    (120, 120, 0, 9),
    (124, 125, 0, 255),
    (126, 126, 0, 5),
    (127, 127, 0, 0),
    (127, 127, 255, 255),
    (128, 152, 0, 255),
    (154, 201, 0, 255),
    (203, 271, 0, 255),
    (272, 272, 0, 48),
    (276, 276, 0, 1),
    (276, 276, 3, 3),
    (276, 276, 5, 8),
    (276, 276, 10, 255),
    (277, 296, 0, 255),
    (297, 297, 0, 2),
    (304, 304, 0, 255),
    (305, 305, 0, 2),
    (312, 335, 0, 255),
    (336, 336, 0, 48),
    (340, 340, 0, 1),
    (340, 340, 3, 3),
    (340, 340, 5, 8),
    (340, 340, 10, 255),
    (341, 360, 0, 255),
    (361, 361, 0, 2),
    (368, 368, 0, 255),
    (369, 369, 0, 2),
    (376, 399, 0, 255),
    (400, 400, 0, 48),
    (404, 404, 0, 3),
    (404, 404, 5, 8),
    (404, 404, 10, 255),
    (405, 423, 0, 255),
    (424, 424, 0, 0),
    (424, 424, 17, 20),
    (424, 424, 23, 24),
    (424, 424, 42, 44),
    (424, 424, 48, 48),
    (424, 424, 56, 64),
    (424, 424, 66, 68),
    (424, 424, 72, 72),
    (424, 424, 80, 80),
    (424, 424, 82, 84),
    (424, 424, 88, 88),
    (424, 424, 178, 216),
    (424, 424, 218, 220),
    (424, 424, 224, 224),
    (424, 424, 228, 228),
    (424, 424, 232, 240),
    (424, 424, 243, 244),
    (424, 424, 252, 252),
    (425, 425, 0, 1),
    (432, 432, 48, 48),
    (432, 432, 72, 72),
    (440, 440, 4, 5),
    (444, 444, 0, 3),
    (448, 455, 0, 255),
    (464, 464, 0, 48),
    (472, 487, 0, 255),
    (488, 488, 0, 149),
    (488, 488, 151, 155),
    (488, 488, 167, 171),
    (488, 488, 175, 179),
    (488, 488, 183, 187),
    (488, 488, 193, 255),
    (489, 489, 0, 1),
    (496, 496, 10, 255),
    (497, 497, 0, 1),
    (504, 527, 0, 255),
    (528, 528, 0, 48),
    (536, 551, 0, 255),
    (552, 552, 0, 121),
    (552, 552, 128, 255),
    (553, 553, 0, 1),
    (560, 560, 49, 255),
    (561, 561, 0, 1),
    (568, 591, 0, 255),
];

fn is_listed(place: usize, value: u8) -> bool {
    READ_VALUES.iter().any(|row| row.0 <= place
        && place <= row.1
        && row.2 <= value
        && value <= row.3)
}

#[test]
fn each_change_of_one_byte_is_judged(rt: HostRuntime) -> Result<(), Fail> {
    for (place, byte) in MAIN_FILE.iter().enumerate() {
        for value in 0..=255 {
            let file = changed(rt.alloc(), &MAIN_FILE, place, value)?;
            let expected = *byte == value || is_listed(place, value);
            assert_eq!(rt; is_read(rt.alloc(), &file)?, expected, "{value} at {place}");
        }
    }
    Ok(())
}
