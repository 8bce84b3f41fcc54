//! Fat files on disk.

use crate::images::{ARM64, X86_64, image, two_slices};
use fat_macho::{Error, FatWriter, IoCause};
use std::fs;
use std::test::Fail;

const X86_64_PATH: &str = "/tmp/objtool_fat_test_x86_64";

const ARM64_PATH: &str = "/tmp/objtool_fat_test_arm64";

const JOINED_PATH: &str = "/tmp/objtool_fat_test_joined";

/// Writes an image for each of two architectures into a file.
fn put_images(rt: &HostRuntime) -> Result<(), Fail> {
    let alloc = rt.alloc();
    fs::write(rt, X86_64_PATH, &image(alloc, &X86_64, 100)?)?;
    fs::write(rt, ARM64_PATH, &image(alloc, &ARM64, 50)?)?;
    Ok(())
}

/// Joins files into a file.
fn join_files(rt: &HostRuntime, inputs: &[&str], output: &str) -> Result<(), Fail> {
    let mut writer = FatWriter::new(rt.alloc());
    for input in inputs {
        writer.add_file(rt, input)?;
    }
    writer.write_to_file(rt, output)?;
    Ok(())
}

#[test]
fn files_are_joined_into_a_file_that_is_read_again(rt: HostRuntime) -> Result<(), Fail> {
    put_images(&rt)?;
    join_files(&rt, &[ARM64_PATH, X86_64_PATH], JOINED_PATH)?;
    // What was written is read, and written in place of a file that is there.
    join_files(&rt, &[JOINED_PATH], X86_64_PATH)?;
    let file = two_slices(rt.alloc())?;
    for path in [JOINED_PATH, X86_64_PATH] {
        assert!(rt; fs::read(&rt, path)? == file, "{path}");
    }
    for path in [X86_64_PATH, ARM64_PATH, JOINED_PATH] {
        fs::remove_file(&rt, path)?;
    }
    Ok(())
}

#[test]
fn a_file_that_is_not_there_is_not_opened(rt: HostRuntime) {
    let mut writer = FatWriter::new(rt.alloc());
    let path = "/no such directory/file";
    assert_eq!(rt; writer.add_file(&rt, path), Err(Error::Io(IoCause::Open)));
    assert_eq!(rt;
        writer.write_to_file(&rt, path),
        Err(Error::Io(IoCause::Open))
    );
    assert!(rt; writer.is_empty());
}
