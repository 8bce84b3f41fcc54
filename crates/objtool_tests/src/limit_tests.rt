//! The greatest number of sections of a part. The size and the header of its file were laid out by another program from the
//! written layout.

use crate::build_tests::{NONE, words};
use byte_core::MemHost;
use objtool_run::run;
use std::alloc::{AllocError, Global};
use std::test::Fail;

/// The size of the file that has the most sections.
const SIZE: usize = 6_654_072;

/// Its header, which counts 65,279 sections, the last of which has the names of all.
const HEADER: &str =
    "7f454c4602010100000000000000000001003e000100000000000000000000000000000000000000b8c8250000000000000000004000000000004000fffefefe";

/// A part of a format with so many local data objects of one byte, each in a section of its own under this text.
pub(crate) fn data_objects(
    alloc: Global,
    format: &str,
    count: usize,
    section: &str,
) -> Result<String, AllocError> {
    let mut text = format!(in alloc;
        "[{{\"name\":\"a.o\",\"arch\":\"x86_64\",\"format\":\"{format}\",\"commands\":["
    )?;
    for number in 0..count {
        if number > 0 {
            text.push(',')?;
        }
        let commands = format!(in alloc;
            "{{\"op\":\"declare_anonymous_data\"}},{{\"op\":\"define_data\",\"id\":{number},\"bytes\":\"00\",\"section\":\"{section}\"}}"
        )?;
        text.push_str(&commands)?;
    }
    text.push_str("]}]")?;
    Ok(text)
}

#[test]
fn a_part_has_at_most_65274_sections_of_its_own(rt: HostRuntime) -> Result<(), Fail> {
    let alloc = rt.alloc();
    let build = words(alloc, &["build"])?;
    let part = data_objects(alloc, "elf", 65_274, "s")?;
    let mut host = MemHost::new(alloc, part.as_bytes(), &[], NONE, 14_000_000)?;
    assert_eq!(rt; run(alloc, &build, &mut host), 0);
    assert_eq!(rt; host.output().len(), 2 * SIZE + 1);
    assert!(rt; host.output().starts_with(HEADER.as_bytes()));
    Ok(())
}

#[test]
fn one_section_more_is_too_many(rt: HostRuntime) -> Result<(), Fail> {
    let alloc = rt.alloc();
    let build = words(alloc, &["build"])?;
    let part = data_objects(alloc, "elf", 65_275, "s")?;
    let mut host = MemHost::new(alloc, part.as_bytes(), &[], NONE, 100)?;
    assert_eq!(rt; run(alloc, &build, &mut host), 1);
    assert!(rt; host.errors() == b"part 0 end: too many sections: 65280\n".as_slice());
    Ok(())
}
