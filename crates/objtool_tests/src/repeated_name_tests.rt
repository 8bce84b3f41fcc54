//! A thousand sections of one long name. The size and the checksum of their file are those of one that another program
//! laid out from the written layout.

use crate::build_tests::{NONE, words};
use crate::limit_tests::data_objects;
use byte_core::MemHost;
use objtool_run::run;
use std::alloc::{AllocError, Global};
use std::test::Fail;

/// The size of the file, in bytes.
const SIZE: usize = 1_100_208;

/// FNV-1a in 64 bits (Fowler, Noll, Vo) of its line of hexadecimal.
const CHECKSUM: u64 = 0xb7b93d78b20addd8;

fn checksum(bytes: &[u8]) -> u64 {
    let mut number: u64 = 0xcbf29ce484222325;
    for byte in bytes {
        number = (number ^ u64::from(*byte)).wrapping_mul(0x100000001b3);
    }
    number
}

/// A name of a thousand letters.
fn long_name(alloc: Global) -> Result<String, AllocError> {
    let mut name = String::new(alloc);
    for _ in 0..1000 {
        name.push('n')?;
    }
    Ok(name)
}

#[test]
fn each_of_a_thousand_sections_of_one_name_has_it_in_the_file(rt: HostRuntime) -> Result<(), Fail> {
    let alloc = rt.alloc();
    let build = words(alloc, &["build"])?;
    let name = long_name(alloc)?;
    let part = data_objects(alloc, "elf", 1000, &name)?;
    let mut host = MemHost::new(alloc, part.as_bytes(), &[], NONE, 3_000_000)?;
    assert_eq!(rt; run(alloc, &build, &mut host), 0);
    assert_eq!(rt; host.output().len(), 2 * SIZE + 1);
    assert_eq!(rt; checksum(host.output()), CHECKSUM);
    Ok(())
}
