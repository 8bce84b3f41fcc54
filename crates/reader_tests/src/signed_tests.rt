//! The ranges of small files.

use goblin_pe::{Case, Error, ExcludedSections, PE, SectionTable};
use std::alloc::Global;
use std::test::Fail;

fn section(pointer_to_raw_data: u32, size_of_raw_data: u32) -> SectionTable {
    SectionTable {
        name: [0; 8],
        virtual_size: 0,
        virtual_address: 0,
        size_of_raw_data,
        pointer_to_raw_data,
        characteristics: 0,
    }
}

fn places(certificate_table_size: usize) -> ExcludedSections {
    ExcludedSections {
        checksum: 8..12,
        datadir_entry_certtable: 16..24,
        certificate_table_size,
        end_image_header: 32,
    }
}

/// Bytes that are their own places.
#[rattlefmt::skip]
static BYTES: [u8; 61] = [
    0, 1, 2, 3, 4, 5, 6, 7, 8, 9, 10, 11, 12, 13, 14, 15,
    16, 17, 18, 19, 20, 21, 22, 23, 24, 25, 26, 27, 28, 29, 30, 31,
    32, 33, 34, 35, 36, 37, 38, 39, 40, 41, 42, 43, 44, 45, 46, 47,
    48, 49, 50, 51, 52, 53, 54, 55, 56, 57, 58, 59, 60,
];

/// The bytes that its signature covers, one range behind the other.
#[rattlefmt::skip]
static SIGNED: [u8; 47] = [
    0, 1, 2, 3, 4, 5, 6, 7, 12, 13, 14, 15, 24, 25, 26, 27, 28, 29, 30, 31,
    32, 33, 34, 35, 36, 37, 38, 39, 40, 41, 42, 43, 44, 45, 46, 47, 48, 49, 50, 51, 52, 53, 54, 55,
    0, 0, 0,
];

fn joined(alloc: Global, pe: &PE) -> Result<Vec<u8>, Fail> {
    let mut bytes = Vec::new(alloc);
    for range in pe.authenticode_ranges()? {
        bytes.extend_from_slice(range)?;
    }
    Ok(bytes)
}

#[test]
fn a_file_of_61_bytes_has_47_signed_bytes(rt: HostRuntime) -> Result<(), Fail> {
    let sections = [section(44, 12), section(32, 12)];
    let pe = PE::new(&BYTES, &sections, Some(places(5)));
    assert!(rt; joined(rt.alloc(), &pe)?.as_slice() == SIGNED.as_slice());
    Ok(())
}

#[test]
fn a_table_in_the_order_of_its_pointers_gives_the_same_bytes(rt: HostRuntime) -> Result<(), Fail> {
    let sections = [section(32, 12), section(0, 0), section(44, 12)];
    let pe = PE::new(&BYTES, &sections, Some(places(5)));
    assert!(rt; joined(rt.alloc(), &pe)?.as_slice() == SIGNED.as_slice());
    Ok(())
}

#[test]
fn seventy_sections_whose_pointers_fall_take_two_passes(rt: HostRuntime) -> Result<(), Fail> {
    let mut bytes: Vec<u8> = Vec::new(rt.alloc());
    let mut sections: Vec<SectionTable> = Vec::new(rt.alloc());
    for place in 0..104u8 {
        bytes.push(place)?;
    }
    for number in 0..70 {
        sections.push(section(101 - number, 1))?;
    }
    let pe = PE::new(&bytes, &sections, Some(places(2)));
    let signed = joined(rt.alloc(), &pe)?;
    assert!(rt; signed.len() == 90);
    assert!(rt; signed.get(20..) == bytes.get(32..102));
    Ok(())
}

#[test]
fn the_first_cause_refuses_a_file(rt: HostRuntime) {
    let outside = [section(44, 12), section(50, 12)];
    let short = PE::new(&BYTES[..31], &outside, Some(places(5)));
    assert_eq!(rt;
        short.authenticode_ranges().err(),
        Some(Error::Malformed(Case::HeaderPlaces))
    );
    let far = PE::new(&BYTES, &outside, Some(places(99)));
    assert_eq!(rt;
        far.authenticode_ranges().err(),
        Some(Error::Malformed(Case::SectionRange(1)))
    );
    let long = PE::new(&BYTES, &[], Some(places(30)));
    assert_eq!(rt;
        long.authenticode_ranges().err(),
        Some(Error::Malformed(Case::CertificateRange))
    );
}

#[test]
fn a_file_without_known_places_is_one_range(rt: HostRuntime) -> Result<(), Fail> {
    let sections = [section(900, 12)];
    let pe = PE::new(b"abc", &sections, None);
    assert!(rt; joined(rt.alloc(), &pe)?.as_slice() == b"abc".as_slice());
    Ok(())
}
