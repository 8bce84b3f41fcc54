//! Sources and sinks: what they give and take, and which calls fail.

use byte_core::{
    Failed, FileSink, FileSource, MemSink, MemSource, PlainSink, PlainSource, Sink, Source,
};
use std::fs;
use std::test::Fail;

#[test]
fn a_source_gives_the_bytes_at_a_place(rt: HostRuntime) -> Result<(), Fail> {
    let bytes = [10, 11, 12, 13, 14];
    let mut source = MemSource::new(&bytes, &[]);
    let mut plain = PlainSource::new(&bytes);
    assert_eq!(rt; source.len(), 5);
    assert_eq!(rt; plain.len(), 5);
    let mut buf = [0; 3];
    assert_eq!(rt; source.read_at(&mut buf, 1), Ok(3));
    assert_eq!(rt; &buf, &[11, 12, 13]);
    assert_eq!(rt; source.read_at(&mut buf, 4), Ok(1));
    assert_eq!(rt; &buf, &[14, 12, 13]);
    assert_eq!(rt; plain.read_at(&mut buf, 3), Ok(2));
    assert_eq!(rt; &buf, &[13, 14, 13]);
    for offset in [5, 6, u64::MAX] {
        assert_eq!(rt; source.read_at(&mut buf, offset), Ok(0));
        assert_eq!(rt; plain.read_at(&mut buf, offset), Ok(0));
    }
    assert_eq!(rt; source.read_at(&mut [], 0), Ok(0));
    Ok(())
}

#[test]
fn a_source_fails_at_the_reads_that_it_was_given(rt: HostRuntime) -> Result<(), Fail> {
    let mut source = MemSource::new(&[1, 2, 3], &[1, 2]);
    let mut buf = [0; 2];
    assert_eq!(rt; source.read_at(&mut buf, 0), Ok(2));
    assert_eq!(rt; source.read_at(&mut buf, 1), Err(Failed));
    assert_eq!(rt; source.read_at(&mut buf, 1), Err(Failed));
    assert_eq!(rt; &buf, &[1, 2]);
    assert_eq!(rt; source.read_at(&mut buf, 1), Ok(2));
    assert_eq!(rt; &buf, &[2, 3]);
    Ok(())
}

#[test]
fn a_sink_takes_what_it_has_room_for(rt: HostRuntime) -> Result<(), Fail> {
    let mut sink = MemSink::new(rt.alloc(), &[1], 5)?;
    assert_eq!(rt; sink.write(&[1, 2, 3]), Ok(3));
    assert_eq!(rt; sink.write(&[4]), Err(Failed));
    assert_eq!(rt; sink.write(&[4, 5, 6]), Ok(2));
    assert_eq!(rt; sink.write(&[6]), Err(Failed));
    assert_eq!(rt; sink.write(&[]), Ok(0));
    assert_eq!(rt; sink.taken(), &[1, 2, 3, 4, 5][..]);
    assert_eq!(rt; PlainSink.write(&[1, 2]), Ok(2));
    Ok(())
}

#[test]
fn a_file_is_written_and_read_back(rt: HostRuntime) -> Result<(), Fail> {
    let path = "/tmp/objtool_stream_test";
    let mut sink = FileSink::create(&rt, path)?;
    assert_eq!(rt; sink.write(&[5, 6, 7, 8]), Ok(4));
    drop(sink);
    let mut source = FileSource::open(&rt, path)?;
    assert_eq!(rt; source.len(), 4);
    let mut buf = [0; 8];
    assert_eq!(rt; source.read_at(&mut buf, 1), Ok(3));
    assert_eq!(rt; &buf[..3], [6, 7, 8].as_slice());
    assert_eq!(rt; source.read_at(&mut buf, 4), Ok(0));
    drop(source);
    fs::remove_file(&rt, path)?;
    assert!(rt; FileSource::open(&rt, path).is_err());
    assert!(rt; FileSink::create(&rt, "/no such directory/file").is_err());
    Ok(())
}
