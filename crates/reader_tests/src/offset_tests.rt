//! Offsets of addresses in one section, and the texts of refusals.

use goblin_pe::{Case, Error, ParseOptions, SectionTable, find_offset};
use std::test::Fail;

fn one_section() -> [SectionTable; 1] {
    [SectionTable {
        name: [0; 8],
        virtual_size: 4097,
        virtual_address: 4096,
        size_of_raw_data: 12_288,
        pointer_to_raw_data: 1000,
        characteristics: 0,
    }]
}

#[test]
fn the_last_byte_of_two_pages_has_an_offset_and_the_next_has_none(rt: HostRuntime) {
    let options = ParseOptions::default();
    assert_eq!(rt;
        find_offset(12_287, &one_section(), 512, &options),
        Some(8703)
    );
    assert_eq!(rt; find_offset(12_288, &one_section(), 512, &options), None);
}

#[test]
fn an_alignment_that_is_no_power_of_two_gives_no_offset(rt: HostRuntime) {
    let resolved = ParseOptions { resolve_rva: true };
    let plain = ParseOptions { resolve_rva: false };
    assert_eq!(rt; find_offset(12_287, &one_section(), 500, &resolved), None);
    assert_eq!(rt;
        find_offset(12_287, &one_section(), 500, &plain),
        Some(12_287)
    );
}

#[test]
fn an_error_tells_its_number(rt: HostRuntime) -> Result<(), Fail> {
    let text = format!(in rt.alloc(); "{}", Error::Malformed(Case::NoOffset(4096)))?;
    assert_eq!(rt;
        text.as_str(),
        "malformed: no offset for the relative virtual address 0x1000"
    );
    let text = format!(in rt.alloc(); "{}", Error::Malformed(Case::SectionRange(3)))?;
    assert_eq!(rt;
        text.as_str(),
        "malformed: section 3 past the end of the file"
    );
    Ok(())
}
