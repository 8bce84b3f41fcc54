//! The reader of fat files: what it refuses, and which slice it gives.

use crate::images::{ARM64, TABLE, WIDE_TABLE, X86_64, file_behind, front, image};
use fat_macho::{Error, FatReader, InvalidCase, IoCause};
use goblin_mach::Error as TableError;
use std::alloc::{AllocError, Global};
use std::test::Fail;

/// The file of two slices, of ones and of twos.
fn two_slices(alloc: Global) -> Result<Vec<u8>, AllocError> {
    let mut file = TABLE.to_vec(alloc)?;
    file.resize(16384, 0)?;
    file.resize(16484, 1)?;
    file.resize(32768, 0)?;
    file.resize(32818, 2)?;
    Ok(file)
}

/// Why there is no reader of these bytes.
fn refusal(bytes: &[u8]) -> Option<Error> {
    FatReader::new(bytes).err()
}

#[test]
fn a_slice_is_that_of_its_architecture(rt: HostRuntime) -> Result<(), Fail> {
    let alloc = rt.alloc();
    let file = two_slices(alloc)?;
    let reader = FatReader::new(&file)?;
    assert_eq!(rt; reader.extract("x86_64"), Some(&[1; 100][..]));
    assert_eq!(rt; reader.extract("arm64"), Some(&[2; 50][..]));
    for name in ["i386", "x86_64h", "no such architecture", ""] {
        assert_eq!(rt; reader.extract(name), None, "{name}");
    }
    let arches = reader.multi_arch().arches(alloc)?;
    assert_eq!(rt; arches.len(), 2);
    Ok(())
}

#[test]
fn feature_bits_of_a_subtype_do_not_count(rt: HostRuntime) -> Result<(), Fail> {
    let mut file = two_slices(rt.alloc())?;
    if let Some(byte) = file.get_mut(12) {
        *byte = 0x80;
    }
    let reader = FatReader::new(&file)?;
    assert_eq!(rt; reader.extract("x86_64"), Some(&[1; 100][..]));
    Ok(())
}

#[test]
fn a_slice_that_leaves_the_file_is_not_given(rt: HostRuntime) -> Result<(), Fail> {
    let file = two_slices(rt.alloc())?;
    let reader = FatReader::new(front(&file, 28))?;
    assert_eq!(rt; reader.extract("x86_64"), None);
    let reader = FatReader::new(front(&file, 32817))?;
    assert_eq!(rt; reader.extract("x86_64"), Some(&[1; 100][..]));
    assert_eq!(rt; reader.extract("arm64"), None);
    Ok(())
}

#[test]
fn other_files_are_refused_by_their_first_bytes(rt: HostRuntime) {
    let cases: [(&[u8], Error); 10] = [
        (b"", Error::Goblin(TableError::BufferTooShort)),
        (b"\0", Error::Goblin(TableError::BufferTooShort)),
        (b"hello", Error::Goblin(TableError::BadMagic(0x6865_6c6c))),
        (
            b"\xcf\xfa\xed\xfe",
            Error::InvalidMachO(InvalidCase::ShortHeader),
        ),
        (
            b"\xfe\xed\xfa\xce",
            Error::InvalidMachO(InvalidCase::ShortHeader),
        ),
        (b"\xca\xfe\xba\xbf", Error::InvalidMachO(InvalidCase::Fat64)),
        (
            b"\xca\xfe\xba\xbe",
            Error::Goblin(TableError::BufferTooShort),
        ),
        (
            &[
                0xce, 0xfa, 0xed, 0xfe, 0, 0, 0, 0, 0, 0, 0, 0, 0, 0, 0, 0, 0, 0, 0, 0, 0, 0, 0, 0,
                0, 0, 0, 0,
            ],
            Error::NotFatBinary,
        ),
        (b"!<arch>\n", Error::NotFatBinary),
        (b"\xde\xc0\x17\x0b", Error::NotFatBinary),
    ];
    for (bytes, error) in cases {
        assert_eq!(rt; refusal(bytes), Some(error), "{bytes:?}");
    }
    assert_eq!(rt;
        refusal(b"!<arch>"),
        Some(Error::Goblin(TableError::BadMagic(0x213c_6172)))
    );
}

#[test]
fn images_and_wide_tables_have_no_reader(rt: HostRuntime) -> Result<(), Fail> {
    let alloc = rt.alloc();
    for image in [image(alloc, &X86_64, 100)?, image(alloc, &ARM64, 50)?] {
        assert_eq!(rt; refusal(&image), Some(Error::NotFatBinary));
    }
    let wide = file_behind(alloc, &WIDE_TABLE)?;
    assert_eq!(rt;
        refusal(&wide),
        Some(Error::InvalidMachO(InvalidCase::Fat64))
    );
    Ok(())
}

#[test]
fn errors_print_their_texts(rt: HostRuntime) -> Result<(), Fail> {
    let alloc = rt.alloc();
    let cases = [
        (
            Error::NotFatBinary,
            "input is not a valid Mach-O fat binary",
        ),
        (
            Error::InvalidMachO(InvalidCase::NotMachO),
            "input is not a macho file",
        ),
        (
            Error::InvalidMachO(InvalidCase::ShortHeader),
            "bytes size is smaller than a Mach-O header",
        ),
        (
            Error::InvalidMachO(InvalidCase::NestedFat),
            "fat binary nested inside a fat binary",
        ),
        (
            Error::InvalidMachO(InvalidCase::Archive),
            "archive input is unsupported",
        ),
        (
            Error::InvalidMachO(InvalidCase::Bitcode),
            "bitcode input is unsupported",
        ),
        (
            Error::InvalidMachO(InvalidCase::ShortFatHeader),
            "truncated fat header",
        ),
        (
            Error::InvalidMachO(InvalidCase::TablePastEnd),
            "fat arch table runs past the end of the input",
        ),
        (
            Error::InvalidMachO(InvalidCase::SlicePastEnd),
            "fat arch slice out of bounds",
        ),
        (
            Error::InvalidMachO(InvalidCase::Fat64),
            "64-bit fat binaries are not supported",
        ),
        (
            Error::DuplicatedArch("x86_64"),
            "duplicated architecture x86_64",
        ),
        (
            Error::TooMany {
                count: 4_294_967_296,
            },
            "too many slices: 4294967296",
        ),
        (
            Error::TooLarge {
                amount: 9_223_372_036_854_775_808,
            },
            "too large file: 9223372036854775808",
        ),
        (Error::Io(IoCause::Source), "reading failed"),
        (Error::OutOfMemory, "out of memory"),
    ];
    for (error, text) in cases {
        let printed = format!(in alloc; "{error}")?;
        assert_eq!(rt; printed.as_str(), text);
    }
    Ok(())
}
