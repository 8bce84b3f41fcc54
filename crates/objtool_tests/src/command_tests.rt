//! The commands over files and images: `join`, `extract`, `place` and `gen`.

use crate::build_tests::{NONE, words};
use byte_core::{FailingCalls, MemHost, NamedFile};
use objtool_run::run;
use std::alloc::{AllocError, Global};
use std::test::Fail;

/// A thin x86_64 image of 100 bytes, and a thin arm64 image of 50.
const X86_64_IMAGE: &[u8] = &[
    0xcf, 0xfa, 0xed, 0xfe, 0x07, 0, 0, 0x01, 0x03, 0, 0, 0, 0, 0, 0, 0, 0, 0, 0, 0, 0, 0, 0, 0, 0,
    0, 0, 0, 0, 0, 0, 0, 0, 0, 0, 0, 0, 0, 0, 0, 0, 0, 0, 0, 0, 0, 0, 0, 0, 0, 0, 0, 0, 0, 0, 0, 0,
    0, 0, 0, 0, 0, 0, 0, 0, 0, 0, 0, 0, 0, 0, 0, 0, 0, 0, 0, 0, 0, 0, 0, 0, 0, 0, 0, 0, 0, 0, 0, 0,
    0, 0, 0, 0, 0, 0, 0, 0, 0, 0, 0,
];

const ARM64_IMAGE: &[u8] = &[
    0xcf, 0xfa, 0xed, 0xfe, 0x0c, 0, 0, 0x01, 0, 0, 0, 0, 0, 0, 0, 0, 0, 0, 0, 0, 0, 0, 0, 0, 0, 0,
    0, 0, 0, 0, 0, 0, 0, 0, 0, 0, 0, 0, 0, 0, 0, 0, 0, 0, 0, 0, 0, 0, 0, 0,
];

/// The table of a fat file of both: the first at 16,384, the second at 32,768.
const TABLE: &[u8] = &[
    0xca, 0xfe, 0xba, 0xbe, 0, 0, 0, 0x02, 0x01, 0, 0, 0x07, 0, 0, 0, 0x03, 0, 0, 0x40, 0, 0, 0, 0,
    0x64, 0, 0, 0, 0x0e, 0x01, 0, 0, 0x0c, 0, 0, 0, 0, 0, 0, 0x80, 0, 0, 0, 0, 0x32, 0, 0, 0, 0x0e,
];

const FILES: [NamedFile<'static>; 3] = [
    NamedFile {
        path: "x86_64.o",
        bytes: X86_64_IMAGE,
    },
    NamedFile {
        path: "arm64.o",
        bytes: ARM64_IMAGE,
    },
    NamedFile {
        path: "text",
        bytes: b"hello",
    },
];

/// Two parts for placement: `main` calls `g`, which the other part has.
const CALLER: &str = r#"[{"name":"a.o","arch":"x86_64","format":"FORMAT","commands":[
    {"op":"declare_function","name":"main","linkage":"Export"},
    {"op":"declare_function","name":"g","linkage":"Import"},
    {"op":"define_function","id":0,"bytes":"e800000000","relocs":[
        {"offset":1,"kind":"X86PCRel4","target":{"function":1},"addend":-4}]}]}]"#;

const CALLED: &str = r#"[{"name":"b.o","arch":"x86_64","format":"FORMAT","commands":[
    {"op":"declare_function","name":"g","linkage":"LINKAGE"},
    {"op":"define_function","id":0,"bytes":"c3"}]}]"#;

/// The fat file of both images.
fn fat_file(alloc: Global) -> Result<Vec<u8>, AllocError> {
    let mut bytes = vec![in alloc; 0u8; 32818]?;
    put(&mut bytes, 0, TABLE);
    put(&mut bytes, 16384, X86_64_IMAGE);
    put(&mut bytes, 32768, ARM64_IMAGE);
    Ok(bytes)
}

/// Puts bytes at a place, as far as there is room.
fn put(bytes: &mut [u8], at: usize, part: &[u8]) {
    let start = at.min(bytes.len());
    let end = start + part.len().min(bytes.len() - start);
    let room = end - start;
    bytes[start..end].copy_from_slice(&part[..room]);
}

#[test]
fn files_are_joined_in_either_order(rt: HostRuntime) -> Result<(), Fail> {
    let alloc = rt.alloc();
    let want = fat_file(alloc)?;
    // No input is read: the first read would fail.
    let fails = FailingCalls {
        reads: &[0],
        ..NONE
    };
    for line in [
        ["join", "x86_64.o", "arm64.o"],
        ["join", "arm64.o", "x86_64.o"],
    ] {
        let line = words(alloc, &line)?;
        let mut host = MemHost::new(alloc, b"", &FILES, fails, 33000)?;
        assert_eq!(rt; run(alloc, &line, &mut host), 0);
        assert!(rt; host.output() == want.as_slice());
        assert_eq!(rt; host.errors().len(), 0);
    }
    Ok(())
}

#[test]
fn a_slice_is_taken_out_byte_for_byte(rt: HostRuntime) -> Result<(), Fail> {
    let alloc = rt.alloc();
    let fat = fat_file(alloc)?;
    for (name, want) in [("arm64", ARM64_IMAGE), ("x86_64", X86_64_IMAGE)] {
        let line = words(alloc, &["extract", name])?;
        let mut host = MemHost::new(alloc, &fat, &[], NONE, 200)?;
        assert_eq!(rt; run(alloc, &line, &mut host), 0, "{name}");
        assert!(rt; host.output() == want, "{name}");
    }
    Ok(())
}

#[test]
fn a_slice_that_is_not_there_is_named(rt: HostRuntime) -> Result<(), Fail> {
    let alloc = rt.alloc();
    let fat = fat_file(alloc)?;
    for (name, want) in [
        ("arm64e", "no such architecture: arm64e\n"),
        ("pentium", "no such architecture: pentium\n"),
        ("", "no such architecture: \n"),
    ] {
        let line = words(alloc, &["extract", name])?;
        let mut host = MemHost::new(alloc, &fat, &[], NONE, 200)?;
        assert_eq!(rt; run(alloc, &line, &mut host), 1, "{name}");
        assert_eq!(rt; host.output().len(), 0, "{name}");
        assert!(rt; host.errors() == want.as_bytes(), "{name}");
    }
    Ok(())
}

#[test]
fn nothing_is_taken_out_of_other_files(rt: HostRuntime) -> Result<(), Fail> {
    let alloc = rt.alloc();
    let line = words(alloc, &["extract", "x86_64"])?;
    let mut host = MemHost::new(alloc, X86_64_IMAGE, &[], NONE, 200)?;
    assert_eq!(rt; run(alloc, &line, &mut host), 1);
    assert!(rt; host.errors() == b"input is not a valid Mach-O fat binary\n".as_slice());
    let mut host = MemHost::new(alloc, b"hello", &[], NONE, 200)?;
    assert_eq!(rt; run(alloc, &line, &mut host), 1);
    assert_eq!(rt; host.output().len(), 0);
    assert!(rt; host.errors().len() > 1);
    Ok(())
}

#[test]
fn the_first_file_that_is_refused_is_named(rt: HostRuntime) -> Result<(), Fail> {
    let alloc = rt.alloc();
    let cases = [
        (
            ["join", "x86_64.o", "x86_64.o"],
            "path 1: duplicated architecture x86_64\n",
        ),
        (
            ["join", "text", "x86_64.o"],
            "path 0: input is not a macho file\n",
        ),
        (
            ["join", "arm64.o", "text"],
            "path 1: input is not a macho file\n",
        ),
    ];
    for (line, want) in cases {
        let line = words(alloc, &line)?;
        let mut host = MemHost::new(alloc, b"", &FILES, NONE, 200)?;
        assert_eq!(rt; run(alloc, &line, &mut host), 1, "{want}");
        assert_eq!(rt; host.output().len(), 0, "{want}");
        assert!(rt; host.errors() == want.as_bytes(), "{want}");
    }
    Ok(())
}

#[test]
fn files_that_cannot_be_read_are_not_joined(rt: HostRuntime) -> Result<(), Fail> {
    let alloc = rt.alloc();
    let line = words(alloc, &["join", "x86_64.o", "arm64.o"])?;
    let cases = [
        FailingCalls {
            opens: &[0],
            ..NONE
        },
        FailingCalls {
            opens: &[1],
            ..NONE
        },
        FailingCalls {
            file_reads: &[0],
            ..NONE
        },
        FailingCalls {
            file_reads: &[1],
            ..NONE
        },
    ];
    for fails in cases {
        let mut host = MemHost::new(alloc, b"", &FILES, fails, 33000)?;
        assert_eq!(rt; run(alloc, &line, &mut host), 3);
        assert_eq!(rt; host.output().len(), 0);
        assert!(rt; host.errors() == b"reading failed\n".as_slice());
    }
    let line = words(alloc, &["join", "x86_64.o", "no such file"])?;
    let mut host = MemHost::new(alloc, b"", &FILES, NONE, 33000)?;
    assert_eq!(rt; run(alloc, &line, &mut host), 3);
    assert_eq!(rt; host.output().len(), 0);
    Ok(())
}

#[test]
fn a_fat_file_that_cannot_be_written_ends_with_status_4(rt: HostRuntime) -> Result<(), Fail> {
    let alloc = rt.alloc();
    let line = words(alloc, &["join", "x86_64.o", "arm64.o"])?;
    let want = fat_file(alloc)?;
    let mut host = MemHost::new(alloc, b"", &FILES, NONE, 20000)?;
    assert_eq!(rt; run(alloc, &line, &mut host), 4);
    assert!(rt; want.starts_with(host.output()));
    Ok(())
}

#[test]
fn a_generated_part_has_the_stated_summary(rt: HostRuntime) -> Result<(), Fail> {
    let alloc = rt.alloc();
    let line = words(alloc, &["gen", "0", "1"])?;
    let mut host = MemHost::new(alloc, b"", &[], NONE, 200)?;
    assert_eq!(rt; run(alloc, &line, &mut host), 0);
    assert!(rt;
        host.output()
            == b"functions 1 data 1 sections 9 symbols 4 relocations 2 bytes 920\n".as_slice()
    );
    Ok(())
}

#[test]
fn words_out_of_form_name_no_command_over_files(rt: HostRuntime) -> Result<(), Fail> {
    let alloc = rt.alloc();
    let cases: [&[&str]; 10] = [
        &["join"],
        &["extract"],
        &["extract", "x86_64", "arm64"],
        &["place", "x"],
        &["gen", "0"],
        &["gen", "0", "0"],
        &["gen", "0", "100001"],
        &["gen", "00", "1"],
        &["gen", "2147483648", "1"],
        &["gen", "0", "1", "1"],
    ];
    for line in cases {
        let line = words(alloc, line)?;
        let mut host = MemHost::new(alloc, b"", &FILES, NONE, 200)?;
        assert_eq!(rt; run(alloc, &line, &mut host), 2);
        assert!(rt; host.errors() == b"words not understood\n".as_slice());
    }
    Ok(())
}

/// The line of what a part builds, in this format and with this linkage.
fn line_of(alloc: Global, part: &str, format: &str, linkage: &str) -> Result<Vec<u8>, AllocError> {
    let text = part.replace(alloc, "FORMAT", format)?;
    let text = text.replace(alloc, "LINKAGE", linkage)?;
    let build = words(alloc, &["build"])?;
    let mut host = MemHost::new(alloc, text.as_bytes(), &[], NONE, 2000)?;
    run(alloc, &build, &mut host);
    let len = host.output().len().saturating_sub(1);
    host.output()[..len].to_vec(alloc)
}

/// The input that places both parts, their definitions in these rows.
fn placement(alloc: Global, format: &str, linkage: &str, row: u32) -> Result<String, AllocError> {
    let caller = line_of(alloc, CALLER, format, linkage)?;
    let called = line_of(alloc, CALLED, format, linkage)?;
    let caller = String::from_utf8_lossy(alloc, &caller)?;
    let called = String::from_utf8_lossy(alloc, &called)?;
    format!(in alloc;
        "{{\"images\":[\"{caller}\",\"{called}\"],\"addresses\":[[0,{row},4096,5],[1,{row},8192,1]],\"externs\":[]}}"
    )
}

#[test]
fn definitions_are_placed_whatever_the_format(rt: HostRuntime) -> Result<(), Fail> {
    let alloc = rt.alloc();
    let place = words(alloc, &["place"])?;
    for (format, row, want) in [
        ("elf", 2, "0 2 4096 e8fb0f0000\n1 2 8192 c3\n"),
        ("macho", 0, "0 0 4096 e8fb0f0000\n1 0 8192 c3\n"),
    ] {
        let text = placement(alloc, format, "Export", row)?;
        let mut host = MemHost::new(alloc, text.as_bytes(), &[], NONE, 200)?;
        assert_eq!(rt; run(alloc, &place, &mut host), 0, "{format}");
        assert!(rt; host.output() == want.as_bytes(), "{format}");
    }
    Ok(())
}

#[test]
fn a_local_definition_binds_no_other_image(rt: HostRuntime) -> Result<(), Fail> {
    let alloc = rt.alloc();
    let place = words(alloc, &["place"])?;
    let text = placement(alloc, "elf", "Local", 2)?;
    let mut host = MemHost::new(alloc, text.as_bytes(), &[], NONE, 200)?;
    assert_eq!(rt; run(alloc, &place, &mut host), 1);
    assert_eq!(rt; host.output().len(), 0);
    assert!(rt; host.errors() == b"image 0 symbol 3: no address\n".as_slice());
    Ok(())
}

#[test]
fn a_placement_out_of_form_is_not_understood(rt: HostRuntime) -> Result<(), Fail> {
    let alloc = rt.alloc();
    let place = words(alloc, &["place"])?;
    for text in [
        "[]",
        r#"{"images":[],"addresses":[]}"#,
        r#"{"images":["0"],"addresses":[],"externs":[]}"#,
        r#"{"images":[],"addresses":[[0,0,0]],"externs":[]}"#,
    ] {
        let mut host = MemHost::new(alloc, text.as_bytes(), &[], NONE, 200)?;
        assert_eq!(rt; run(alloc, &place, &mut host), 6, "{text}");
        assert!(rt; host.errors() == b"input not understood\n".as_slice());
    }
    let none = r#"{"images":[],"addresses":[],"externs":[]}"#;
    let mut host = MemHost::new(alloc, none.as_bytes(), &[], NONE, 200)?;
    assert_eq!(rt; run(alloc, &place, &mut host), 0);
    assert_eq!(rt; host.output().len(), 0);
    Ok(())
}
