//! The bytes of fat files that are written.

use crate::images::{ARM64, X86_64, image, two_slices, written};
use byte_core::PlainSource;
use fat_macho::{FatReader, FatWriter, LayoutStep};
use std::alloc::Global;
use std::rc::RcSlice;
use std::test::Fail;

/// The file of two images that are added in this order.
fn joined(alloc: Global, first: &[u8], second: &[u8]) -> Result<Vec<u8>, Fail> {
    let mut writer: FatWriter<'_, PlainSource<'_>> = FatWriter::new(alloc);
    writer.add(first)?;
    writer.add(second)?;
    written(alloc, &mut writer)
}

/// The file of a source and of bytes that the writer takes over.
fn joined_source(alloc: Global, first: &[u8], second: Vec<u8>) -> Result<Vec<u8>, Fail> {
    let mut writer = FatWriter::new(alloc);
    writer.add_source(PlainSource::new(first))?;
    writer.add_owned(second)?;
    written(alloc, &mut writer)
}

/// The file of bytes that are shared and of bytes that are lent.
fn joined_shared(alloc: Global, first: Vec<u8>, second: &[u8]) -> Result<Vec<u8>, Fail> {
    let mut writer: FatWriter<'_, PlainSource<'_>> = FatWriter::new(alloc);
    writer.add_shared(RcSlice::from_vec(first)?)?;
    writer.add(second)?;
    written(alloc, &mut writer)
}

#[test]
fn two_images_have_one_file_in_either_order(rt: HostRuntime) -> Result<(), Fail> {
    let alloc = rt.alloc();
    let x86 = image(alloc, &X86_64, 100)?;
    let arm = image(alloc, &ARM64, 50)?;
    let file = joined(alloc, &x86, &arm)?;
    assert_eq!(rt; file.len(), 32818);
    assert!(rt; file == joined(alloc, &arm, &x86)?);
    assert!(rt; file == two_slices(alloc)?);
    Ok(())
}

#[test]
fn a_file_of_two_images_gives_each_by_its_name(rt: HostRuntime) -> Result<(), Fail> {
    let alloc = rt.alloc();
    let x86 = image(alloc, &X86_64, 100)?;
    let arm = image(alloc, &ARM64, 50)?;
    let file = joined(alloc, &x86, &arm)?;
    let reader = FatReader::new(&file)?;
    assert_eq!(rt; reader.extract("x86_64"), Some(x86.as_slice()));
    assert_eq!(rt; reader.extract("arm64"), Some(arm.as_slice()));
    Ok(())
}

#[test]
fn however_images_are_held_their_file_is_the_same(rt: HostRuntime) -> Result<(), Fail> {
    let alloc = rt.alloc();
    let x86 = image(alloc, &X86_64, 100)?;
    let arm = image(alloc, &ARM64, 50)?;
    let file = joined_source(alloc, &x86, arm.clone()?)?;
    assert!(rt; file == two_slices(alloc)?);
    assert!(rt; file == joined_shared(alloc, x86, &arm)?);
    Ok(())
}

#[test]
fn the_file_of_one_image_has_its_own_alignment(rt: HostRuntime) -> Result<(), Fail> {
    let alloc = rt.alloc();
    let x86 = image(alloc, &X86_64, 100)?;
    let mut file = [
        0xca, 0xfe, 0xba, 0xbe, 0, 0, 0, 1, 1, 0, 0, 7, 0, 0, 0, 3, 0, 0, 0x10, 0, 0, 0, 0, 0x64,
        0, 0, 0, 0x0c,
    ]
    .to_vec(alloc)?;
    file.resize(4096, 0)?;
    file.extend_from_slice(&x86)?;
    let mut writer: FatWriter<'_, PlainSource<'_>> = FatWriter::new(alloc);
    writer.add(&x86)?;
    assert!(rt; written(alloc, &mut writer)? == file);
    Ok(())
}

#[test]
fn the_layout_has_a_step_for_each_slice(rt: HostRuntime) -> Result<(), Fail> {
    let alloc = rt.alloc();
    let file = two_slices(alloc)?;
    let mut writer: FatWriter<'_, PlainSource<'_>> = FatWriter::new(alloc);
    writer.add(&file)?;
    assert_eq!(rt; writer.total_size(), 32818);
    let mut steps = writer.layout();
    let first = LayoutStep {
        offset: 16384,
        size: 100,
    };
    let second = LayoutStep {
        offset: 32768,
        size: 50,
    };
    assert_eq!(rt; steps.next(), Some(first));
    assert_eq!(rt; steps.next(), Some(second));
    assert_eq!(rt; steps.next(), None);
    Ok(())
}

#[test]
fn a_new_writer_has_no_slices(rt: HostRuntime) {
    let writer: FatWriter<'_, PlainSource<'_>> = FatWriter::new(rt.alloc());
    assert!(rt; writer.is_empty());
    assert_eq!(rt; writer.total_size(), 0);
    assert_eq!(rt; writer.layout().next(), None);
    assert!(rt; !writer.exists("x86_64"));
}

#[test]
fn a_slice_is_there_by_the_names_of_its_architecture(rt: HostRuntime) -> Result<(), Fail> {
    let alloc = rt.alloc();
    let file = two_slices(alloc)?;
    let mut writer: FatWriter<'_, PlainSource<'_>> = FatWriter::new(alloc);
    writer.add(&file)?;
    assert_eq!(rt; writer.len(), 2);
    for name in ["x86_64", "arm64"] {
        assert!(rt; writer.exists(name), "{name}");
    }
    for name in ["arm64e", "i386", "no such architecture", ""] {
        assert!(rt; !writer.exists(name), "{name}");
    }
    Ok(())
}

#[test]
fn sources_are_written_block_by_block(rt: HostRuntime) -> Result<(), Fail> {
    let alloc = rt.alloc();
    let x86 = image(alloc, &X86_64, 10000)?;
    let mut writer = FatWriter::new(alloc);
    writer.add_source(PlainSource::new(&x86))?;
    assert_eq!(rt; writer.total_size(), 14096);
    let bytes = written(alloc, &mut writer)?;
    let reader = FatReader::new(&bytes)?;
    assert!(rt; reader.extract("x86_64") == Some(x86.as_slice()));
    Ok(())
}
