//! Sources and sinks that fail at calls that they were given.

use crate::images::{ARM64, X86_64, front, image, two_slices, written};
use byte_core::{MemSink, MemSource, PlainSource};
use fat_macho::{Error, FatWriter, IoCause};
use std::test::Fail;

#[test]
fn a_source_that_fails_is_not_added(rt: HostRuntime) -> Result<(), Fail> {
    let alloc = rt.alloc();
    let file = two_slices(alloc)?;
    let mut writer = FatWriter::new(alloc);
    // The class, the count of entries, and each entry and the class of its slice.
    for call in 0..6 {
        let fails = [call];
        let mut writer = FatWriter::new(alloc);
        let result = writer.add_source(MemSource::new(&file, &fails));
        assert_eq!(rt; result, Err(Error::Io(IoCause::Source)), "{call}");
        assert!(rt; writer.is_empty());
    }
    writer.add_source(MemSource::new(&file, &[6]))?;
    assert_eq!(rt; writer.len(), 2);
    Ok(())
}

#[test]
fn after_a_failed_read_a_second_call_writes_the_whole_file(rt: HostRuntime) -> Result<(), Fail> {
    let alloc = rt.alloc();
    let x86 = image(alloc, &X86_64, 10000)?;
    // Reading 0 is that of the class; the slice is read in three blocks.
    for call in 1..4 {
        let fails = [call];
        let mut writer = FatWriter::new(alloc);
        writer.add_source(MemSource::new(&x86, &fails))?;
        let mut sink = MemSink::new(alloc, &[], 14096)?;
        assert_eq!(rt; writer.write_to(&mut sink), Err(Error::Io(IoCause::Source)));
        let whole = written(alloc, &mut writer)?;
        assert_eq!(rt; whole.len(), 14096);
        assert!(rt; whole.starts_with(sink.taken()));
    }
    Ok(())
}

#[test]
fn a_failed_write_leaves_a_front_of_the_file(rt: HostRuntime) -> Result<(), Fail> {
    let alloc = rt.alloc();
    let x86 = image(alloc, &X86_64, 100)?;
    let arm = image(alloc, &ARM64, 50)?;
    let file = two_slices(alloc)?;
    let mut writer: FatWriter<'_, PlainSource<'_>> = FatWriter::new(alloc);
    writer.add(&x86)?;
    writer.add(&arm)?;
    // The header, two entries, and for each slice a gap in blocks of 4,096 bytes and the slice.
    for call in 0..14 {
        let fails = [call];
        let mut sink = MemSink::new(alloc, &fails, 32818)?;
        let result = writer.write_to(&mut sink);
        assert!(rt; file.starts_with(sink.taken()));
        if call < 13 {
            assert_eq!(rt; result, Err(Error::Io(IoCause::Sink)));
        } else {
            assert_eq!(rt; result, Ok(()));
            assert!(rt; sink.taken() == file.as_slice());
        }
    }
    Ok(())
}

#[test]
fn a_sink_without_room_takes_a_front_of_the_file(rt: HostRuntime) -> Result<(), Fail> {
    let alloc = rt.alloc();
    let file = two_slices(alloc)?;
    let mut writer: FatWriter<'_, PlainSource<'_>> = FatWriter::new(alloc);
    writer.add(&file)?;
    let mut sink = MemSink::new(alloc, &[], 20000)?;
    assert_eq!(rt; writer.write_to(&mut sink), Err(Error::Io(IoCause::Sink)));
    assert!(rt; sink.taken() == front(&file, 20000));
    Ok(())
}
