//! What a writer takes, and what it refuses.

use crate::hollow::HollowSource;
use crate::images::{
    ARM64, WIDE_TABLE, X86_64, file_behind, front, image, two_slices, with_bytes, written,
};
use byte_core::{MemSink, PlainSource};
use fat_macho::{Error, FatReader, FatWriter, InvalidCase, IoCause, LayoutStep};
use std::alloc::Global;
use std::test::Fail;

/// Why these bytes are not added to a writer with no slices.
fn refusal(alloc: Global, bytes: &[u8]) -> Option<Error> {
    let mut writer: FatWriter<'_, PlainSource<'_>> = FatWriter::new(alloc);
    writer.add(bytes).err()
}

#[test]
fn an_input_is_refused_by_its_first_bytes(rt: HostRuntime) -> Result<(), Fail> {
    let alloc = rt.alloc();
    let arm = image(alloc, &ARM64, 50)?;
    let cases: [(&[u8], InvalidCase); 9] = [
        (b"", InvalidCase::NotMachO),
        (b"\0", InvalidCase::NotMachO),
        (b"hello", InvalidCase::NotMachO),
        (front(&arm, 31), InvalidCase::ShortHeader),
        (b"\xce\xfa\xed\xfe", InvalidCase::ShortHeader),
        (b"!<arch>\n", InvalidCase::Archive),
        (b"\xde\xc0\x17\x0b", InvalidCase::Bitcode),
        (b"\xca\xfe\xba\xbe\0\0", InvalidCase::ShortFatHeader),
        (
            b"\xca\xfe\xba\xbf\xff\xff\xff\xff",
            InvalidCase::TablePastEnd,
        ),
    ];
    for (bytes, case) in cases {
        assert_eq!(rt;
            refusal(alloc, bytes),
            Some(Error::InvalidMachO(case)),
            "{bytes:?}"
        );
    }
    Ok(())
}

#[test]
fn a_fat_file_is_refused_by_its_entries(rt: HostRuntime) -> Result<(), Fail> {
    let alloc = rt.alloc();
    let file = two_slices(alloc)?;
    // A place of the file, and what stands there in place of its own bytes.
    let cases: [(usize, &[u8], InvalidCase); 7] = [
        // More entries than the file has room for.
        (4, &[0xff, 0xff, 0xff, 0xff], InvalidCase::TablePastEnd),
        // The first slice runs past the end, and so does the second by one byte.
        (20, &[0xff, 0xff, 0xff, 0xff], InvalidCase::SlicePastEnd),
        (40, &[0, 0, 0, 0x33], InvalidCase::SlicePastEnd),
        // The first slice is the file itself.
        (16, &[0, 0, 0, 0, 0, 0, 0x80, 0x32], InvalidCase::NestedFat),
        // The second slice has 31 bytes, is an archive, is nothing known.
        (40, &[0, 0, 0, 31], InvalidCase::ShortHeader),
        (32768, b"!<arch>\n", InvalidCase::Archive),
        (32768, b"hello", InvalidCase::NotMachO),
    ];
    for (place, others, case) in cases {
        let changed = with_bytes(alloc, &file, place, others)?;
        assert_eq!(rt;
            refusal(alloc, &changed),
            Some(Error::InvalidMachO(case)),
            "{place}"
        );
    }
    assert_eq!(rt; refusal(alloc, &file), None);
    Ok(())
}

/// Why these bytes are not added twice, the second time with others from a place on.
fn second_refusal(
    alloc: Global,
    bytes: &[u8],
    place: usize,
    others: &[u8],
) -> Result<Option<Error>, Fail> {
    let second = with_bytes(alloc, bytes, place, others)?;
    let mut writer: FatWriter<'_, PlainSource<'_>> = FatWriter::new(alloc);
    writer.add(bytes)?;
    Ok(writer.add_owned(second).err())
}

#[test]
fn an_architecture_is_taken_once(rt: HostRuntime) -> Result<(), Fail> {
    let alloc = rt.alloc();
    let x86 = image(alloc, &X86_64, 100)?;
    let nameless = with_bytes(alloc, &x86, 4, &[99])?;
    let twice = Some(Error::DuplicatedArch("x86_64"));
    assert_eq!(rt; second_refusal(alloc, &x86, 0, &[])?, twice);
    // A feature bit of the subtype makes no other architecture.
    assert_eq!(rt; second_refusal(alloc, &x86, 11, &[0x80])?, twice);
    assert_eq!(rt; second_refusal(alloc, &x86, 8, &[8])?, None);
    let unknown = Some(Error::DuplicatedArch("unknown"));
    assert_eq!(rt; second_refusal(alloc, &nameless, 0, &[])?, unknown);
    Ok(())
}

#[test]
fn a_fat_file_with_an_architecture_twice_is_refused(rt: HostRuntime) -> Result<(), Fail> {
    let alloc = rt.alloc();
    // The second image is for x86_64, as the first is.
    let file = with_bytes(alloc, &two_slices(alloc)?, 32772, &[7, 0, 0, 1, 3])?;
    assert_eq!(rt;
        refusal(alloc, &file),
        Some(Error::DuplicatedArch("x86_64"))
    );
    Ok(())
}

#[test]
fn of_a_fat_file_all_slices_are_added_or_none(rt: HostRuntime) -> Result<(), Fail> {
    let alloc = rt.alloc();
    let arm = image(alloc, &ARM64, 50)?;
    let file = two_slices(alloc)?;
    let mut writer: FatWriter<'_, PlainSource<'_>> = FatWriter::new(alloc);
    writer.add(&arm)?;
    assert_eq!(rt; writer.add(&file), Err(Error::DuplicatedArch("arm64")));
    assert_eq!(rt; writer.len(), 1);
    assert!(rt; !writer.exists("x86_64"));
    Ok(())
}

#[test]
fn a_fat_file_is_written_as_it_was_read(rt: HostRuntime) -> Result<(), Fail> {
    let alloc = rt.alloc();
    let file = two_slices(alloc)?;
    let mut writer: FatWriter<'_, PlainSource<'_>> = FatWriter::new(alloc);
    writer.add_owned(file.clone()?)?;
    assert!(rt; written(alloc, &mut writer)? == file);
    Ok(())
}

#[test]
fn slices_of_an_owned_fat_file_are_those_of_its_reader(rt: HostRuntime) -> Result<(), Fail> {
    let alloc = rt.alloc();
    let file = two_slices(alloc)?;
    let reader = FatReader::new(&file)?;
    let mut writer: FatWriter<'_, PlainSource<'_>> = FatWriter::new(alloc);
    writer.add_owned(file.clone()?)?;
    for name in ["x86_64", "arm64"] {
        let slice = writer.remove(name)?;
        assert_eq!(rt; slice.as_deref(), reader.extract(name), "{name}");
    }
    assert!(rt; writer.is_empty());
    Ok(())
}

#[test]
fn a_fat_file_with_entries_of_64_bits_is_taken(rt: HostRuntime) -> Result<(), Fail> {
    let alloc = rt.alloc();
    let wide = file_behind(alloc, &WIDE_TABLE)?;
    let mut writer: FatWriter<'_, PlainSource<'_>> = FatWriter::new(alloc);
    writer.add(&wide)?;
    assert!(rt; written(alloc, &mut writer)? == two_slices(alloc)?);
    Ok(())
}

#[test]
fn a_file_of_more_than_32_bits_has_wide_entries(rt: HostRuntime) -> Result<(), Fail> {
    let alloc = rt.alloc();
    let narrow = [
        0xca, 0xfe, 0xba, 0xbe, 0, 0, 0, 1, 1, 0, 0, 7, 0, 0, 0, 3, 0, 0, 0x10, 0, 0xff, 0xff,
        0xef, 0xff, 0, 0, 0, 0x0c,
    ];
    let wide = [
        0xca, 0xfe, 0xba, 0xbf, 0, 0, 0, 1, 1, 0, 0, 7, 0, 0, 0, 3, 0, 0, 0, 0, 0, 0, 0x10, 0, 0,
        0, 0, 0, 0xff, 0xff, 0xf0, 0, 0, 0, 0, 0x0c, 0, 0, 0, 0,
    ];
    let cases: [(u64, &[u8]); 2] = [(0xffff_efff, &narrow), (0xffff_f000, &wide)];
    for (len, table) in cases {
        let mut writer = FatWriter::new(alloc);
        writer.add_source(HollowSource::new(len))?;
        assert_eq!(rt; writer.total_size(), len + 4096);
        // The header and the entry are written, and the third write fails.
        let mut sink = MemSink::new(alloc, &[2], 4096)?;
        assert_eq!(rt; writer.write_to(&mut sink), Err(Error::Io(IoCause::Sink)));
        assert_eq!(rt; sink.taken(), table);
    }
    Ok(())
}

#[test]
fn a_file_of_more_than_63_bits_is_refused(rt: HostRuntime) -> Result<(), Fail> {
    let alloc = rt.alloc();
    let mut writer = FatWriter::new(alloc);
    let refused = writer.add_source(HollowSource::new((1 << 63) - 4096));
    assert_eq!(rt; refused, Err(Error::TooLarge { amount: 1 << 63 }));
    assert!(rt; writer.is_empty());
    writer.add_source(HollowSource::new((1 << 63) - 4097))?;
    assert_eq!(rt; writer.total_size(), (1 << 63) - 1);
    let step = LayoutStep {
        offset: 4096,
        size: (1 << 63) - 4097,
    };
    assert_eq!(rt; writer.layout().next(), Some(step));
    Ok(())
}
