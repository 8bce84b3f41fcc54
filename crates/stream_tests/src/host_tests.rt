//! The files of hosts: which is opened, what is read, and which calls fail.

use byte_core::{Failed, FailingCalls, Host, MemHost, NamedFile, PlainHost, StreamHost};
use std::test::Fail;

const FILES: [NamedFile<'static>; 3] = [
    NamedFile {
        path: "a",
        bytes: &[1, 2, 3],
    },
    NamedFile {
        path: "b",
        bytes: &[4],
    },
    NamedFile {
        path: "a",
        bytes: &[9],
    },
];

#[test]
fn the_first_file_of_a_path_is_read(rt: HostRuntime) -> Result<(), Fail> {
    let mut host = MemHost::new(rt.alloc(), b"", &FILES, FailingCalls::NONE, 10)?;
    let mut plain = PlainHost::new(b"", &FILES);
    let mut buf = [0; 4];
    assert_eq!(rt; host.open_file("a"), Ok(3));
    assert_eq!(rt; host.read_file(&mut buf, 1), Ok(2));
    assert_eq!(rt; &buf[..2], [2, 3].as_slice());
    assert_eq!(rt; host.read_file(&mut buf, 3), Ok(0));
    assert_eq!(rt; host.open_file("b"), Ok(1));
    assert_eq!(rt; host.read_file(&mut buf, 0), Ok(1));
    assert_eq!(rt; buf[0], 4);
    assert_eq!(rt; plain.open_file("b"), Ok(1));
    assert_eq!(rt; plain.open_file("a"), Ok(3));
    assert_eq!(rt; plain.read_file(&mut buf, 0), Ok(3));
    assert_eq!(rt; &buf[..3], [1, 2, 3].as_slice());
    Ok(())
}

#[test]
fn a_path_that_is_not_held_fails_or_is_empty(rt: HostRuntime) -> Result<(), Fail> {
    let mut host = MemHost::new(rt.alloc(), b"", &FILES, FailingCalls::NONE, 10)?;
    assert_eq!(rt; host.open_file("c"), Err(Failed));
    let mut plain = PlainHost::new(b"", &FILES);
    assert_eq!(rt; plain.open_file("c"), Ok(0));
    assert_eq!(rt; plain.read_file(&mut [0], 0), Ok(0));
    Ok(())
}

#[test]
fn a_host_fails_at_the_openings_and_reads_that_it_was_given(rt: HostRuntime) -> Result<(), Fail> {
    let fails = FailingCalls {
        opens: &[0],
        file_reads: &[1],
        ..FailingCalls::NONE
    };
    let mut host = MemHost::new(rt.alloc(), b"", &FILES, fails, 10)?;
    let mut buf = [0; 4];
    assert_eq!(rt; host.open_file("a"), Err(Failed));
    assert_eq!(rt; host.open_file("a"), Ok(3));
    assert_eq!(rt; host.read_file(&mut buf, 0), Ok(3));
    assert_eq!(rt; host.read_file(&mut buf, 0), Err(Failed));
    assert_eq!(rt; host.read_file(&mut buf, 2), Ok(1));
    assert_eq!(rt; buf[0], 3);
    Ok(())
}

#[test]
fn files_of_the_system_are_opened(rt: HostRuntime) {
    let mut host = StreamHost::new(rt, rt.stdin(), rt.stdout(), rt.stderr());
    assert_eq!(rt; host.open_file("/no such directory/file"), Err(Failed));
    let length = host.open_file("/proc/self/cmdline");
    assert!(rt; length.is_ok());
    assert_eq!(rt; host.read_file(&mut [0], u64::MAX), Ok(0));
}
