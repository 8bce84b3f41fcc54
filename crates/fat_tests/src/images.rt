//! Images and the file of two of them.

use byte_core::{MemSink, Source};
use fat_macho::FatWriter;
use std::alloc::{AllocError, Global};
use std::test::Fail;

/// The header and the table of a fat file with 100 bytes for x86_64 at 16,384 and 50 for arm64 at 32,768.
pub const TABLE: [u8; 48] = [
    0xca, 0xfe, 0xba, 0xbe, 0, 0, 0, 2, 1, 0, 0, 7, 0, 0, 0, 3, 0, 0, 0x40, 0, 0, 0, 0, 0x64, 0, 0,
    0, 0x0e, 1, 0, 0, 0x0c, 0, 0, 0, 0, 0, 0, 0x80, 0, 0, 0, 0, 0x32, 0, 0, 0, 0x0e,
];

/// The same with entries of 64 bits.
pub const WIDE_TABLE: [u8; 72] = [
    0xca, 0xfe, 0xba, 0xbf, 0, 0, 0, 2, 1, 0, 0, 7, 0, 0, 0, 3, 0, 0, 0, 0, 0, 0, 0x40, 0, 0, 0, 0,
    0, 0, 0, 0, 0x64, 0, 0, 0, 0x0e, 0, 0, 0, 0, 1, 0, 0, 0x0c, 0, 0, 0, 0, 0, 0, 0, 0, 0, 0, 0x80,
    0, 0, 0, 0, 0, 0, 0, 0, 0x32, 0, 0, 0, 0x0e, 0, 0, 0, 0,
];

/// How an image for x86_64 begins.
pub const X86_64: [u8; 12] = [0xcf, 0xfa, 0xed, 0xfe, 7, 0, 0, 1, 3, 0, 0, 0];

/// How an image for arm64 begins.
pub const ARM64: [u8; 12] = [0xcf, 0xfa, 0xed, 0xfe, 0x0c, 0, 0, 1, 0, 0, 0, 0];

/// An image that begins so and has so many bytes.
pub fn image(alloc: Global, front: &[u8], len: usize) -> Result<Vec<u8>, AllocError> {
    let mut bytes = front.to_vec(alloc)?;
    bytes.resize(len, 0x5a)?;
    Ok(bytes)
}

/// The file of an image for x86_64 with 100 bytes and one for arm64 with 50, behind this table.
pub fn file_behind(alloc: Global, table: &[u8]) -> Result<Vec<u8>, AllocError> {
    let mut file = table.to_vec(alloc)?;
    file.resize(16384, 0)?;
    file.extend_from_slice(&image(alloc, &X86_64, 100)?)?;
    file.resize(32768, 0)?;
    file.extend_from_slice(&image(alloc, &ARM64, 50)?)?;
    Ok(file)
}

/// The same with entries of 32 bits.
pub fn two_slices(alloc: Global) -> Result<Vec<u8>, AllocError> {
    file_behind(alloc, &TABLE)
}

/// What a writer writes.
pub fn written<S: Source + Drop>(
    alloc: Global,
    writer: &mut FatWriter<'_, S>,
) -> Result<Vec<u8>, Fail> {
    let mut sink = MemSink::new(alloc, &[], writer.total_size() as usize)?;
    writer.write_to(&mut sink)?;
    Ok(sink.into_taken())
}

/// These bytes with others from a place on.
pub fn with_bytes(
    alloc: Global,
    bytes: &[u8],
    place: usize,
    others: &[u8],
) -> Result<Vec<u8>, AllocError> {
    let mut changed = Vec::with_capacity(alloc, bytes.len())?;
    for (i, byte) in bytes.iter().enumerate() {
        let other = if i < place {
            None
        } else {
            others.get(i - place)
        };
        changed.push(*other.unwrap_or(byte))?;
    }
    Ok(changed)
}

/// The first bytes of a file, as many as it has of so many.
pub fn front(file: &[u8], len: usize) -> &[u8] {
    &file[..file.len().min(len)]
}

/// The bytes of a file from a place on, none where it ends before.
pub fn behind(file: &[u8], place: usize) -> &[u8] {
    &file[file.len().min(place)..]
}
