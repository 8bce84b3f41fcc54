use crate::files::{
    ANONYMOUS_FILE, EMPTY_FILE, MAIN_FILE, THREE_FILE, WEAK_FILE, is_file, is_front,
};
use byte_core::{FailingCalls, MemHost};
use objtool_run::run;
use std::alloc::{AllocError, Global};
use std::test::Fail;

pub(crate) const NONE: FailingCalls<'static> = FailingCalls::NONE;

/// One exported function `main` of one byte.
pub(crate) const MAIN: &str =
    "[{\"name\":\"a.o\",\"arch\":\"x86_64\",\"format\":\"elf\",\"commands\":[{\"op\":\"declare_function\",\"name\":\"main\",\"linkage\":\"Export\"},{\"op\":\"define_function\",\"id\":0,\"bytes\":\"c3\"}]}]";

/// The words of the command line.
pub(crate) fn words(alloc: Global, words: &[&str]) -> Result<Vec<String>, AllocError> {
    let mut all = Vec::new(alloc);
    for word in words {
        all.push(String::from_str(alloc, word)?)?;
    }
    Ok(all)
}

/// A part of these commands, under the name `a.o`.
pub(crate) fn part_of(alloc: Global, commands: &str) -> Result<String, AllocError> {
    format!(in alloc;
        "[{{\"name\":\"a.o\",\"arch\":\"x86_64\",\"format\":\"elf\",\"commands\":[{commands}]}}]"
    )
}

#[test]
fn an_exported_main_has_592_bytes(rt: HostRuntime) -> Result<(), Fail> {
    let alloc = rt.alloc();
    let build = words(alloc, &["build"])?;
    let mut host = MemHost::new(alloc, MAIN.as_bytes(), &[], NONE, 2000)?;
    assert_eq!(rt; run(alloc, &build, &mut host), 0);
    assert_eq!(rt; host.output().len(), 2 * 592 + 1);
    assert!(rt; is_file(host.output(), MAIN_FILE));
    assert_eq!(rt; host.errors().len(), 0);
    Ok(())
}

#[test]
fn an_empty_part_has_480_bytes(rt: HostRuntime) -> Result<(), Fail> {
    let alloc = rt.alloc();
    let build = words(alloc, &["build"])?;
    let text = part_of(alloc, "")?;
    let mut host = MemHost::new(alloc, text.as_bytes(), &[], NONE, 2000)?;
    assert_eq!(rt; run(alloc, &build, &mut host), 0);
    assert_eq!(rt; host.output().len(), 2 * 480 + 1);
    assert!(rt; is_file(host.output(), EMPTY_FILE));
    Ok(())
}

#[test]
fn three_functions_stand_in_order_of_their_definitions(rt: HostRuntime) -> Result<(), Fail> {
    let alloc = rt.alloc();
    let build = words(alloc, &["build"])?;
    let text =
        "[{\"name\":\"three.o\",\"arch\":\"x86_64\",\"format\":\"elf\",\"commands\":[{\"op\":\"declare_function\",\"name\":\"helper\",\"linkage\":\"Local\"},{\"op\":\"declare_function\",\"name\":\"ext\",\"linkage\":\"Import\"},{\"op\":\"declare_function\",\"name\":\"first\",\"linkage\":\"Export\"},{\"op\":\"declare_function\",\"name\":\"second\",\"linkage\":\"Export\"},{\"op\":\"define_function\",\"id\":3,\"bytes\":\"31c0c3\"},{\"op\":\"define_function\",\"id\":0,\"bytes\":\"c3\"},{\"op\":\"define_function\",\"id\":2,\"bytes\":\"b82a000000c3\"}]}]";
    let mut host = MemHost::new(alloc, text.as_bytes(), &[], NONE, 2000)?;
    assert_eq!(rt; run(alloc, &build, &mut host), 0);
    assert!(rt; is_file(host.output(), THREE_FILE));
    Ok(())
}

#[test]
fn the_greatest_linkage_of_a_name_counts(rt: HostRuntime) -> Result<(), Fail> {
    let alloc = rt.alloc();
    let build = words(alloc, &["build"])?;
    let text = part_of(
        alloc,
        "{\"op\":\"declare_function\",\"name\":\"w\",\"linkage\":\"Import\"},{\"op\":\"declare_function\",\"name\":\"w\",\"linkage\":\"Hidden\"},{\"op\":\"declare_function\",\"name\":\"w\",\"linkage\":\"Local\"},{\"op\":\"declare_function\",\"name\":\"w\",\"linkage\":\"Preemptible\"},{\"op\":\"declare_function\",\"name\":\"w\",\"linkage\":\"Hidden\"}",
    )?;
    let mut host = MemHost::new(alloc, text.as_bytes(), &[], NONE, 2000)?;
    assert_eq!(rt; run(alloc, &build, &mut host), 0);
    assert_eq!(rt; host.output().len(), 2 * 512 + 1);
    assert!(rt; is_file(host.output(), WEAK_FILE));
    Ok(())
}

#[test]
fn a_function_without_a_name_has_a_local_symbol(rt: HostRuntime) -> Result<(), Fail> {
    let alloc = rt.alloc();
    let build = words(alloc, &["build"])?;
    let text = part_of(
        alloc,
        "{\"op\":\"declare_anonymous_function\",\"signature\":{}},{\"op\":\"define_function\",\"id\":0,\"bytes\":\"C3\"}",
    )?;
    let mut host = MemHost::new(alloc, text.as_bytes(), &[], NONE, 2000)?;
    assert_eq!(rt; run(alloc, &build, &mut host), 0);
    assert!(rt; is_file(host.output(), ANONYMOUS_FILE));
    Ok(())
}

#[test]
fn a_refused_part_has_status_1_and_names_its_place(rt: HostRuntime) -> Result<(), Fail> {
    let alloc = rt.alloc();
    let build = words(alloc, &["build"])?;
    let cases = [
        (
            "{\"op\":\"define_function\",\"id\":7,\"bytes\":\"c3\"}",
            "part 0 command 0: Undeclared identifier: u0:7\n",
        ),
        (
            "{\"op\":\"declare_function\",\"name\":\"f\",\"linkage\":\"Export\"},{\"op\":\"define_function\",\"id\":0,\"bytes\":\"c3\"},{\"op\":\"define_function\",\"id\":0,\"bytes\":\"c3\"}",
            "part 0 command 2: Duplicate definition of identifier: f\n",
        ),
        (
            "{\"op\":\"declare_function\",\"name\":\"f\",\"linkage\":\"Local\"},{\"op\":\"declare_function\",\"name\":\"g\",\"linkage\":\"Export\"},{\"op\":\"define_function\",\"id\":0,\"bytes\":\"\"}",
            "part 0 end: Missing definition of identifier: g\n",
        ),
        (
            "{\"op\":\"declare_function\",\"name\":\"p\",\"linkage\":\"Preemptible\"},{\"op\":\"declare_function\",\"name\":\"h\",\"linkage\":\"Hidden\"}",
            "part 0 end: Missing definition of identifier: h\n",
        ),
        (
            "{\"op\":\"declare_function\",\"name\":\"f\",\"linkage\":\"Import\"},{\"op\":\"define_function\",\"id\":0,\"bytes\":\"\"}",
            "part 0 command 1: Invalid to define identifier declared as an import: f\n",
        ),
        (
            "{\"op\":\"declare_function\",\"name\":\"a\\u0000\",\"linkage\":\"Import\"}",
            "part 0 command 0: Backend error: zero byte at 1\n",
        ),
        (
            "{\"op\":\"declare_anonymous_function\"}",
            "part 0 end: Missing definition of identifier: .Lfn0\n",
        ),
        (
            "{\"op\":\"declare_function\",\"name\":\"f\",\"linkage\":\"Local\",\"signature\":{\"params\":[\"I64\",{\"type\":\"I32\",\"extension\":\"Sext\",\"purpose\":\"StructReturn\"}]}},{\"op\":\"declare_function\",\"name\":\"f\",\"linkage\":\"Local\",\"signature\":{\"call_conv\":\"Fast\",\"returns\":[\"F64\"]}}",
            "part 0 command 1: Function f signature () -> f64 fast is incompatible with previous declaration (i64, i32 sext sret) system_v\n",
        ),
        (
            "{\"op\":\"declare_function\",\"name\":\"s\",\"linkage\":\"Import\",\"signature\":{\"params\":[\"I32\"]}},{\"op\":\"declare_function\",\"name\":\"s\",\"linkage\":\"Import\"}",
            "part 0 command 1: Function s signature () system_v is incompatible with previous declaration (i32) system_v\n",
        ),
    ];
    for (commands, want) in cases {
        let text = part_of(alloc, commands)?;
        let mut host = MemHost::new(alloc, text.as_bytes(), &[], NONE, 2000)?;
        assert_eq!(rt; run(alloc, &build, &mut host), 1, "{want}");
        assert!(rt; host.errors() == want.as_bytes(), "{want}");
        assert_eq!(rt; host.output().len(), 0);
    }
    Ok(())
}

#[test]
fn a_preemptible_function_needs_no_definition(rt: HostRuntime) -> Result<(), Fail> {
    let alloc = rt.alloc();
    let build = words(alloc, &["build"])?;
    let text = part_of(
        alloc,
        "{\"op\":\"declare_function\",\"name\":\"p\",\"linkage\":\"Preemptible\"}",
    )?;
    let mut host = MemHost::new(alloc, text.as_bytes(), &[], NONE, 2000)?;
    assert_eq!(rt; run(alloc, &build, &mut host), 0);
    assert_eq!(rt; host.errors().len(), 0);
    Ok(())
}

#[test]
fn a_zero_byte_of_the_files_name_has_its_place(rt: HostRuntime) -> Result<(), Fail> {
    let alloc = rt.alloc();
    let build = words(alloc, &["build"])?;
    let text = "[{\"name\":\"a.\\u0000o\",\"arch\":\"x86_64\",\"format\":\"elf\",\"commands\":[]}]";
    let mut host = MemHost::new(alloc, text.as_bytes(), &[], NONE, 2000)?;
    assert_eq!(rt; run(alloc, &build, &mut host), 1);
    assert!(rt; host.errors() == b"part 0 start: Backend error: zero byte at 2\n".as_slice());
    Ok(())
}

/// Whether the program can't read an input: status 6 with its fault text, and no output.
fn is_not_understood(alloc: Global, line: &[String], input: &[u8]) -> Result<bool, AllocError> {
    let input = input.to_vec(alloc)?;
    let mut host = MemHost::new(alloc, &input, &[], NONE, 2000)?;
    let status = run(alloc, line, &mut host);
    Ok(
        status == 6
            && host.output().is_empty()
            && host.errors() == b"input not understood\n".as_slice(),
    )
}

/// Whether words name no command: status 2 with its fault text.
fn are_no_command(alloc: Global, line: &[String]) -> Result<bool, AllocError> {
    let mut host = MemHost::new(alloc, MAIN.as_bytes(), &[], NONE, 2000)?;
    let status = run(alloc, line, &mut host);
    Ok(status == 2 && host.errors() == b"words not understood\n".as_slice())
}

#[test]
fn bad_inputs_have_their_status(rt: HostRuntime) -> Result<(), Fail> {
    let alloc = rt.alloc();
    let build = words(alloc, &["build"])?;
    let mut deep = String::new(alloc);
    let mut deeper = String::new(alloc);
    for _ in 0..127 {
        deep.push('[')?;
        deeper.push('[')?;
    }
    deeper.push_str("[]")?;
    for _ in 0..127 {
        deep.push(']')?;
        deeper.push(']')?;
    }
    let unknown_op = part_of(alloc, "{\"op\":\"define\",\"id\":0}")?;
    let unknown_key = part_of(
        alloc,
        "{\"op\":\"define_function\",\"id\":0,\"bytes\":\"\",\"x\":0}",
    )?;
    let missing_key = part_of(alloc, "{\"op\":\"define_function\",\"id\":0}")?;
    let number_as_text = part_of(
        alloc,
        "{\"op\":\"define_function\",\"id\":\"0\",\"bytes\":\"\"}",
    )?;
    let odd_digits = part_of(
        alloc,
        "{\"op\":\"define_function\",\"id\":0,\"bytes\":\"c\"}",
    )?;
    let cases = [
        "",
        "[][]",
        deeper.as_str(),
        deep.as_str(),
        "{}",
        "1",
        "[1]",
        "[{}]",
        unknown_op.as_str(),
        unknown_key.as_str(),
        missing_key.as_str(),
        number_as_text.as_str(),
        odd_digits.as_str(),
        "[{\"image\":\"0\"}]",
        "[{\"image\":0}]",
        "[{\"image\":\"00\",\"name\":\"a.o\"}]",
    ];
    for text in cases {
        assert!(rt;
            is_not_understood(alloc, &build, text.as_bytes())?,
            "{text}"
        );
    }
    assert!(rt; is_not_understood(alloc, &build, b"\xff[]")?);
    let nothing = words(alloc, &[])?;
    assert!(rt; are_no_command(alloc, &nothing)?);
    let too_many = words(alloc, &["build", "x"])?;
    assert!(rt; are_no_command(alloc, &too_many)?);
    Ok(())
}

#[test]
fn an_input_past_the_limit_is_too_long(rt: HostRuntime) -> Result<(), Fail> {
    let alloc = rt.alloc();
    let build = words(alloc, &["build"])?;
    let input = vec![in alloc; b' '; 67_108_865]?;
    let mut host = MemHost::new(alloc, &input, &[], NONE, 100)?;
    assert_eq!(rt; run(alloc, &build, &mut host), 7);
    assert!(rt; host.errors() == b"input too long\n".as_slice());
    let within = input.len() - 1;
    let mut host = MemHost::new(alloc, &input[..within], &[], NONE, 100)?;
    assert_eq!(rt; run(alloc, &build, &mut host), 6);
    Ok(())
}

#[test]
fn failing_streams_have_their_status(rt: HostRuntime) -> Result<(), Fail> {
    let alloc = rt.alloc();
    let build = words(alloc, &["build"])?;
    // The input is read in two calls, the second of which finds its end.
    for call in [0, 1] {
        let reads = [call];
        let fails = FailingCalls {
            reads: &reads,
            ..NONE
        };
        let mut host = MemHost::new(alloc, MAIN.as_bytes(), &[], fails, 2000)?;
        assert_eq!(rt; run(alloc, &build, &mut host), 3);
        assert_eq!(rt; host.output().len(), 0);
        assert!(rt; host.errors() == b"reading failed\n".as_slice());
    }
    let fails = FailingCalls {
        writes: &[0],
        ..NONE
    };
    let mut host = MemHost::new(alloc, MAIN.as_bytes(), &[], fails, 2000)?;
    assert_eq!(rt; run(alloc, &build, &mut host), 4);
    assert_eq!(rt; host.output().len(), 0);
    assert!(rt; host.errors() == b"writing failed\n".as_slice());
    // Where the room ends, a front of the line was written.
    let mut host = MemHost::new(alloc, MAIN.as_bytes(), &[], NONE, 700)?;
    assert_eq!(rt; run(alloc, &build, &mut host), 4);
    assert_eq!(rt; host.output().len(), 700);
    assert!(rt; is_front(host.output(), MAIN_FILE));
    // A fault text that can't be written changes no status.
    let fails = FailingCalls {
        err_writes: &[0],
        ..NONE
    };
    let mut host = MemHost::new(alloc, b"", &[], fails, 2000)?;
    assert_eq!(rt; run(alloc, &build, &mut host), 6);
    assert_eq!(rt; host.errors().len(), 0);
    Ok(())
}
