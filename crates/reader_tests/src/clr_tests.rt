//! The CLR data of 128 bytes with one stream.

use goblin_pe::{Case, ClrData, ClrSectionIterator, DataDirectory, Error, ParseOptions};
use std::test::Fail;

/// A header at 0 that names 56 bytes of metadata at 72, and in them one stream `#GUID` of 16 bytes.
#[rattlefmt::skip]
static IMAGE: [u8; 128] = [
    72, 0, 0, 0, 2, 0, 5, 0, 72, 0, 0, 0, 56, 0, 0, 0, 1, 0, 0, 0, 0, 0, 0, 0,
    0, 0, 0, 0, 0, 0, 0, 0, 0, 0, 0, 0, 0, 0, 0, 0, 0, 0, 0, 0, 0, 0, 0, 0,
    0, 0, 0, 0, 0, 0, 0, 0, 0, 0, 0, 0, 0, 0, 0, 0, 0, 0, 0, 0, 0, 0, 0, 0,
    0x42, 0x53, 0x4a, 0x42, 1, 0, 1, 0, 0, 0, 0, 0, 4, 0, 0, 0, 0x76, 0x34, 0, 0,
    0, 0, 1, 0, 40, 0, 0, 0, 16, 0, 0, 0, 0x23, 0x47, 0x55, 0x49, 0x44, 0, 0, 0,
    1, 2, 3, 4, 5, 6, 7, 8, 9, 10, 11, 12, 13, 14, 15, 16,
];

fn parse(bytes: &[u8]) -> Result<ClrData<'_>, Error> {
    let plain = ParseOptions { resolve_rva: false };
    ClrData::parse_with_opts(bytes, &DataDirectory::default(), &[], 512, &plain)
}

#[test]
fn the_metadata_has_a_version_and_identifies_the_module(rt: HostRuntime) -> Result<(), Fail> {
    let clr = parse(&IMAGE)?;
    assert!(rt; clr.metadata_header.version == "v4\0\0");
    assert_eq!(rt; clr.offset_of_metadata, 24);
    assert!(rt; clr.mvid()? == Some(&IMAGE[112..]));
    Ok(())
}

#[test]
fn the_metadata_has_one_stream(rt: HostRuntime) -> Result<(), Fail> {
    let mut streams = parse(&IMAGE)?.sections();
    assert_eq!(rt; ClrSectionIterator::count(&streams), 1);
    let stream = streams.next().ok_or("no stream")??;
    assert!(rt; stream.name == "#GUID");
    assert_eq!(rt; stream.offset, 40);
    assert_eq!(rt; stream.size, 16);
    assert!(rt; streams.next().is_none());
    Ok(())
}

#[test]
fn a_cut_file_is_refused_by_the_first_step_that_fails(rt: HostRuntime) {
    assert_eq!(rt; parse(&IMAGE[..71]).err(), Some(Error::BufferTooShort));
    assert_eq!(rt; parse(&IMAGE[..75]).err(), Some(Error::BufferTooShort));
    assert_eq!(rt;
        parse(&IMAGE[..127]).err(),
        Some(Error::Malformed(Case::MetadataRange))
    );
}
