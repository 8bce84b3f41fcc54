//! Slices that are taken out of a writer.

use crate::images::{X86_64, behind, image, two_slices, written};
use byte_core::{MemSource, PlainSource};
use fat_macho::{Error, FatWriter, IoCause};
use std::borrow::CowSlice;
use std::rc::RcSlice;
use std::test::Fail;

/// The bytes of an owned slice, None of all else.
fn owned(slice: Option<CowSlice<'_, u8>>) -> Option<Vec<u8>> {
    match slice {
        Some(CowSlice::Owned(bytes)) => Some(bytes),
        _ => None,
    }
}

/// The bytes of a borrowed slice, None of all else.
fn borrowed<'a>(slice: Option<CowSlice<'a, u8>>) -> Option<&'a [u8]> {
    match slice {
        Some(CowSlice::Borrowed(bytes)) => Some(bytes),
        _ => None,
    }
}

#[test]
fn borrowed_bytes_are_given_back_borrowed(rt: HostRuntime) -> Result<(), Fail> {
    let alloc = rt.alloc();
    let x86 = image(alloc, &X86_64, 100)?;
    let mut writer: FatWriter<'_, PlainSource<'_>> = FatWriter::new(alloc);
    writer.add(&x86)?;
    assert_eq!(rt; borrowed(writer.remove("x86_64")?), Some(x86.as_slice()));
    assert!(rt; writer.is_empty());
    assert_eq!(rt; writer.total_size(), 0);
    assert_eq!(rt; written(alloc, &mut writer)?.len(), 0);
    Ok(())
}

#[test]
fn a_slice_of_a_borrowed_fat_file_is_given_back_borrowed(rt: HostRuntime) -> Result<(), Fail> {
    let alloc = rt.alloc();
    let file = two_slices(alloc)?;
    let mut writer: FatWriter<'_, PlainSource<'_>> = FatWriter::new(alloc);
    writer.add(&file)?;
    assert_eq!(rt;
        borrowed(writer.remove("arm64")?),
        Some(behind(&file, 32768))
    );
    assert_eq!(rt; writer.len(), 1);
    assert!(rt; writer.exists("x86_64"));
    assert!(rt; !writer.exists("arm64"));
    assert_eq!(rt; writer.total_size(), 4196);
    Ok(())
}

#[test]
fn owned_bytes_are_given_back_owned(rt: HostRuntime) -> Result<(), Fail> {
    let alloc = rt.alloc();
    let x86 = image(alloc, &X86_64, 100)?;
    let mut writer: FatWriter<'_, PlainSource<'_>> = FatWriter::new(alloc);
    writer.add_owned(x86.clone()?)?;
    assert!(rt; owned(writer.remove("x86_64")?).as_ref() == Some(&x86));
    Ok(())
}

#[test]
fn shared_bytes_are_given_back_owned(rt: HostRuntime) -> Result<(), Fail> {
    let alloc = rt.alloc();
    let x86 = image(alloc, &X86_64, 100)?;
    let mut writer: FatWriter<'_, PlainSource<'_>> = FatWriter::new(alloc);
    writer.add_shared(RcSlice::from_vec(x86.clone()?)?)?;
    assert!(rt; owned(writer.remove("x86_64")?).as_ref() == Some(&x86));
    Ok(())
}

#[test]
fn bytes_of_a_source_are_given_back_owned(rt: HostRuntime) -> Result<(), Fail> {
    let alloc = rt.alloc();
    let file = two_slices(alloc)?;
    let mut writer = FatWriter::new(alloc);
    writer.add_source(PlainSource::new(&file))?;
    let arm = owned(writer.remove("arm64")?).ok_or(Error::NotFatBinary)?;
    assert!(rt; arm.as_slice() == behind(&file, 32768));
    assert_eq!(rt; writer.len(), 1);
    Ok(())
}

#[test]
fn a_name_without_a_slice_removes_none(rt: HostRuntime) -> Result<(), Fail> {
    let alloc = rt.alloc();
    let x86 = image(alloc, &X86_64, 100)?;
    let mut writer: FatWriter<'_, PlainSource<'_>> = FatWriter::new(alloc);
    writer.add(&x86)?;
    for name in ["arm64", "x86_64h", "no such architecture", ""] {
        assert!(rt; writer.remove(name)?.is_none(), "{name}");
    }
    assert_eq!(rt; writer.len(), 1);
    Ok(())
}

#[test]
fn a_failed_read_leaves_the_slice_where_it_is(rt: HostRuntime) -> Result<(), Fail> {
    let alloc = rt.alloc();
    let x86 = image(alloc, &X86_64, 100)?;
    // Reading 0 is that of the class, reading 1 that of the slice.
    let fails = [1];
    let mut writer = FatWriter::new(alloc);
    writer.add_source(MemSource::new(&x86, &fails))?;
    assert_eq!(rt;
        writer.remove("x86_64").err(),
        Some(Error::Io(IoCause::Source))
    );
    assert_eq!(rt; writer.len(), 1);
    assert!(rt; owned(writer.remove("x86_64")?).as_ref() == Some(&x86));
    Ok(())
}
