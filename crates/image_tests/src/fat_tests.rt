//! Reading of fat files.

use crate::small_mach_files::{EMPTY_FILE, PAGE_FILE};
use image_read::{FatImage, FatSlice, Image, ReadError, read_image};
use std::alloc::{AllocError, Global};
use std::process::Abort;
use std::test::Fail;

fn fat_image(alloc: Global, bytes: &[u8]) -> Result<FatImage<'_>, ReadError> {
    match read_image(alloc, bytes)? {
        Image::Fat(image) => Ok(image),
        Image::Elf(_) | Image::Mach(_) => Err(ReadError::NoReading),
    }
}

fn is_read(alloc: Global, bytes: &[u8]) -> Result<bool, ReadError> {
    match read_image(alloc, bytes) {
        Ok(_) => Ok(true),
        Err(ReadError::NoReading) => Ok(false),
        Err(error) => Err(error),
    }
}

/// The bytes of a table, then those of two slices, each from its offset on, and zeros between.
fn file_of(
    alloc: Global,
    table: &[u8],
    first: (usize, &[u8]),
    second: (usize, &[u8]),
) -> Result<Vec<u8>, AllocError> {
    let mut file = table.to_vec(alloc)?;
    file.resize(first.0, 0)?;
    file.extend_from_slice(first.1)?;
    file.resize(second.0, 0)?;
    file.extend_from_slice(second.1)?;
    Ok(file)
}

/// The bytes with one of them changed.
fn changed(alloc: Global, bytes: &[u8], place: usize, value: u8) -> Result<Vec<u8>, AllocError> {
    let mut file = bytes.to_vec(alloc)?;
    if let Some(byte) = file.get_mut(place) {
        *byte = value;
    }
    Ok(file)
}

/// The bytes of a slice, the numbers of its entry, and the alignment of its offset as a power of two.
fn slice(bytes: &[u8], cputype: u32, cpusubtype: u32, align: u32, offset: u64) -> FatSlice<'_> {
    FatSlice {
        cputype,
        cpusubtype,
        align,
        offset,
        bytes,
    }
}

const X86_64: u32 = 0x0100_0007;

const ARM64: u32 = 0x0100_000c;

/// The table of `llvm-lipo -create` of `EMPTY_FILE` and `PAGE_FILE`, with the alignments 16 and 32.
const LIPO_TABLE: [u8; 48] = [
    0xca, 0xfe, 0xba, 0xbe, 0x00, 0x00, 0x00, 0x02, 0x01, 0x00, 0x00, 0x07, 0x00, 0x00, 0x00, 0x03,
    0x00, 0x00, 0x00, 0x30, 0x00, 0x00, 0x00, 0x81, 0x00, 0x00, 0x00, 0x04, 0x01, 0x00, 0x00, 0x0c,
    0x00, 0x00, 0x00, 0x00, 0x00, 0x00, 0x00, 0xc0, 0x00, 0x00, 0x01, 0x0f, 0x00, 0x00, 0x00, 0x05,
];

fn lipo_file(alloc: Global) -> Result<Vec<u8>, AllocError> {
    file_of(alloc, &LIPO_TABLE, (0x30, &EMPTY_FILE), (0xc0, &PAGE_FILE))
}

#[test]
fn a_file_of_llvm_lipo_has_these_slices(rt: HostRuntime) -> Result<(), Fail> {
    let file = lipo_file(rt.alloc())?;
    let image = fat_image(rt.alloc(), &file)?;
    assert_eq!(rt; file.len(), 463);
    assert!(rt; !image.is_fat64());
    assert_eq!(rt;
        image.slices(),
        [
            slice(&EMPTY_FILE, X86_64, 3, 4, 0x30),
            slice(&PAGE_FILE, ARM64, 0, 5, 0xc0),
        ]
        .as_slice()
    );
    Ok(())
}

/// A table of two slices of 100 and of 50 bytes, which stand at multiples of 16,384.
const WIDELY_ALIGNED_TABLE: [u8; 48] = [
    0xca, 0xfe, 0xba, 0xbe, 0x00, 0x00, 0x00, 0x02, 0x01, 0x00, 0x00, 0x07, 0x00, 0x00, 0x00, 0x03,
    0x00, 0x00, 0x40, 0x00, 0x00, 0x00, 0x00, 0x64, 0x00, 0x00, 0x00, 0x0e, 0x01, 0x00, 0x00, 0x0c,
    0x00, 0x00, 0x00, 0x00, 0x00, 0x00, 0x80, 0x00, 0x00, 0x00, 0x00, 0x32, 0x00, 0x00, 0x00, 0x0e,
];

#[test]
fn each_proper_prefix_of_a_file_of_two_slices_has_no_reading(rt: HostRuntime) -> Result<(), Fail> {
    let file = file_of(
        rt.alloc(),
        &WIDELY_ALIGNED_TABLE,
        (16_384, &[7; 100]),
        (32_768, &[12; 50]),
    )?;
    assert_eq!(rt; file.len(), 32_818);
    for len in 0..file.len() {
        assert!(rt; !is_read(rt.alloc(), &file[..len])?, "at {len}");
    }
    let image = fat_image(rt.alloc(), &file)?;
    assert_eq!(rt;
        image.slices(),
        [
            slice(&[7; 100], X86_64, 3, 14, 16_384),
            slice(&[12; 50], ARM64, 0, 14, 32_768),
        ]
        .as_slice()
    );
    Ok(())
}

/// A table with entries of 64 bits, by `struct fat_arch_64`: the second entry's reserved number isn't 0.
const WIDE_TABLE: [u8; 72] = [
    0xca, 0xfe, 0xba, 0xbf, 0x00, 0x00, 0x00, 0x02, 0x01, 0x00, 0x00, 0x07, 0x00, 0x00, 0x00, 0x03,
    0x00, 0x00, 0x00, 0x00, 0x00, 0x00, 0x00, 0x50, 0x00, 0x00, 0x00, 0x00, 0x00, 0x00, 0x00, 0x03,
    0x00, 0x00, 0x00, 0x04, 0x00, 0x00, 0x00, 0x00, 0x01, 0x00, 0x00, 0x0c, 0x80, 0x00, 0x00, 0x02,
    0x00, 0x00, 0x00, 0x00, 0x00, 0x00, 0x00, 0x60, 0x00, 0x00, 0x00, 0x00, 0x00, 0x00, 0x00, 0x02,
    0x00, 0x00, 0x00, 0x05, 0x00, 0x00, 0x00, 0x09,
];

fn wide_file(alloc: Global) -> Result<Vec<u8>, AllocError> {
    file_of(alloc, &WIDE_TABLE, (0x50, &[1, 2, 3]), (0x60, &[4, 5]))
}

#[test]
fn entries_of_64_bits_have_these_slices(rt: HostRuntime) -> Result<(), Fail> {
    let file = wide_file(rt.alloc())?;
    let image = fat_image(rt.alloc(), &file)?;
    assert!(rt; image.is_fat64());
    assert_eq!(rt;
        image.slices(),
        [
            slice(&[1, 2, 3], X86_64, 3, 4, 0x50),
            slice(&[4, 5], ARM64, 0x8000_0002, 5, 0x60),
        ]
        .as_slice()
    );
    Ok(())
}

#[test]
fn a_table_of_no_entries_has_no_slices(rt: HostRuntime) -> Result<(), Fail> {
    let narrow = [0xca, 0xfe, 0xba, 0xbe, 0, 0, 0, 0];
    let wide = [0xca, 0xfe, 0xba, 0xbf, 0, 0, 0, 0];
    assert!(rt; fat_image(rt.alloc(), &narrow)?.slices().is_empty());
    assert!(rt; !fat_image(rt.alloc(), &narrow)?.is_fat64());
    assert!(rt; fat_image(rt.alloc(), &wide)?.slices().is_empty());
    assert!(rt; fat_image(rt.alloc(), &wide)?.is_fat64());
    Ok(())
}

/// A place in a file, a new byte there, and whether the file still is read.
type Change = (usize, u8, bool);

fn are_judged(rt: &impl Abort, alloc: Global, file: &[u8], changes: &[Change]) -> Result<(), Fail> {
    assert!(rt; is_read(alloc, file)?);
    for (place, value, expected) in changes {
        let changed = changed(alloc, file, *place, *value)?;
        assert_eq!(rt; is_read(alloc, &changed)?, *expected, "{value} at {place}");
    }
    Ok(())
}

/// Changes of the file with entries of 32 bits and 463 bytes.
const NARROW_CHANGES: [Change; 15] = [
    // the magic number
    (0x0, 0xcb, false),
    (0x3, 0xbd, false),
    // entries of 64 bits: the first has its offset in the size and the alignment
    (0x3, 0xbf, false),
    // no slices, one slice, and more than the file has room for
    (0x7, 0x0, true),
    (0x7, 0x1, true),
    (0x4, 0x1, false),
    // processor and alignment aren't judged
    (0x8, 0xff, true),
    (0x1b, 0xff, true),
    // the second slice ends with the file, behind it, and before it
    (0x27, 0xc0, true),
    (0x27, 0xc1, false),
    (0x2b, 0x10, false),
    (0x2b, 0xe, true),
    // a slice in the table, one over another, and one far behind the file
    (0x13, 0x0, true),
    (0x27, 0x30, true),
    (0x10, 0xff, false),
];

/// Changes of the file with entries of 64 bits and 98 bytes.
const WIDE_CHANGES: [Change; 9] = [
    // more entries than the file has room for
    (0x7, 0x3, false),
    // the second slice ends with the file, behind it, and before it
    (0x37, 0x61, false),
    (0x3f, 0x3, false),
    (0x3f, 0x1, true),
    // the high bytes of an offset and of a size
    (0x30, 0xff, false),
    (0x38, 0xff, false),
    (0x33, 0x1, false),
    (0x3b, 0x1, false),
    // the reserved number isn't judged
    (0x47, 0xff, true),
];

#[test]
fn a_changed_number_of_a_fat_file_is_judged_by_its_condition(rt: HostRuntime) -> Result<(), Fail> {
    let narrow = lipo_file(rt.alloc())?;
    are_judged(&rt, rt.alloc(), &narrow, &NARROW_CHANGES)?;
    let wide = wide_file(rt.alloc())?;
    are_judged(&rt, rt.alloc(), &wide, &WIDE_CHANGES)?;
    for len in 0..wide.len() {
        assert!(rt; !is_read(rt.alloc(), &wide[..len])?, "at {len}");
    }
    Ok(())
}
