use crate::build_tests::{NONE, words};
use byte_core::{FailingCalls, MemHost};
use objtool_run::run;
use std::test::Fail;

#[test]
fn a_relocation_is_named_by_its_machine_and_its_number(rt: HostRuntime) -> Result<(), Fail> {
    let alloc = rt.alloc();
    let cases = [
        (["names", "62", "1"], "X86_64_64\n"),
        (["names", "62", "0"], "R_UNKNOWN_X86_64\n"),
        (["names", "21", "1"], "R_PPC64_ADDR32\n"),
        (["names", "65535", "4294967295"], "R_UNKNOWN\n"),
    ];
    // No input is read: the first read would fail.
    let fails = FailingCalls {
        reads: &[0],
        ..NONE
    };
    for (line, want) in cases {
        let line = words(alloc, &line)?;
        let mut host = MemHost::new(alloc, b"", &[], fails, 100)?;
        assert_eq!(rt; run(alloc, &line, &mut host), 0, "{want}");
        assert!(rt; host.output() == want.as_bytes(), "{want}");
    }
    Ok(())
}

#[test]
fn numbers_out_of_form_are_no_words_of_a_command(rt: HostRuntime) -> Result<(), Fail> {
    let alloc = rt.alloc();
    let cases = [
        ["names", "062", "1"],
        ["names", "62", "+1"],
        ["names", "62", ""],
        ["names", "65536", "1"],
        ["names", "62", "4294967296"],
        ["names", "62", "18446744073709551616"],
        ["names", "0x3e", "1"],
        ["name", "62", "1"],
    ];
    for line in cases {
        let line = words(alloc, &line)?;
        let mut host = MemHost::new(alloc, b"", &[], NONE, 100)?;
        assert_eq!(rt; run(alloc, &line, &mut host), 2);
        assert!(rt; host.errors() == b"words not understood\n".as_slice());
    }
    Ok(())
}

#[test]
fn declarations_are_read_and_written_again(rt: HostRuntime) -> Result<(), Fail> {
    let alloc = rt.alloc();
    let line = words(alloc, &["declarations"])?;
    let text =
        "{\"_version_marker\":\"0.137.1\",\"functions\":[],\"data_objects\":[{\"name\":\"x\",\"linkage\":\"Local\",\"writable\":false,\"tls\":false}]}";
    let want =
        "{\"_version_marker\":\"0.137.1\",\"data_objects\":[{\"linkage\":\"Local\",\"name\":\"x\",\"tls\":false,\"writable\":false}],\"functions\":[]}\n";
    let mut host = MemHost::new(alloc, text.as_bytes(), &[], NONE, 1000)?;
    assert_eq!(rt; run(alloc, &line, &mut host), 0);
    assert!(rt; host.output() == want.as_bytes());
    assert_eq!(rt; host.errors().len(), 0);
    Ok(())
}

#[test]
fn declarations_that_are_refused_have_their_cause(rt: HostRuntime) -> Result<(), Fail> {
    let alloc = rt.alloc();
    let line = words(alloc, &["declarations"])?;
    let cases = [
        (
            "{\"_version_marker\":\"0.137.1\",\"functions\":[],\"data_objects\":[{\"name\":\"x\",\"linkage\":\"Local\",\"writable\":false,\"tls\":false},{\"name\":\"x\",\"linkage\":\"Local\",\"writable\":false,\"tls\":false}]}",
            1,
            "duplicate name\n",
        ),
        ("[]", 1, "wrong shape\n"),
        ("{\"functions\":[],\"data_objects\":[]}", 1, "missing key\n"),
        (
            "{\"_version_marker\":\"0.137.2\",\"functions\":[],\"data_objects\":[]}",
            1,
            "other version\n",
        ),
        ("{", 6, "input not understood\n"),
    ];
    for (text, status, want) in cases {
        let mut host = MemHost::new(alloc, text.as_bytes(), &[], NONE, 1000)?;
        assert_eq!(rt; run(alloc, &line, &mut host), status, "{want}");
        assert!(rt; host.errors() == want.as_bytes(), "{want}");
        assert_eq!(rt; host.output().len(), 0, "{want}");
    }
    Ok(())
}
