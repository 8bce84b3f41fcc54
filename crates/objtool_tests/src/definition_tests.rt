use crate::build_tests::{NONE, part_of, words};
use crate::data_files::{CUSTOM_FILE, LATER_MARK_FILE, OWN_FILE, SECTIONS_FILE, USED_FILE};
use crate::files::is_file;
use byte_core::MemHost;
use objtool_run::run;
use std::test::Fail;

/// Definitions that use every kind of section.
const SECTIONS: &str =
    "{\"op\":\"declare_function\",\"name\":\"ext\",\"linkage\":\"Import\"},{\"op\":\"declare_function\",\"name\":\"main\",\"linkage\":\"Export\"},{\"op\":\"declare_data\",\"name\":\"ro\",\"linkage\":\"Local\"},{\"op\":\"declare_data\",\"name\":\"rel\",\"linkage\":\"Export\"},{\"op\":\"declare_data\",\"name\":\"rw\",\"linkage\":\"Hidden\",\"writable\":true},{\"op\":\"declare_data\",\"name\":\"z\",\"linkage\":\"Local\",\"writable\":true},{\"op\":\"declare_data\",\"name\":\"t\",\"linkage\":\"Local\",\"writable\":true,\"tls\":true},{\"op\":\"declare_data\",\"name\":\"tz\",\"linkage\":\"Local\",\"writable\":true,\"tls\":true},{\"op\":\"declare_data\",\"name\":\"kept\",\"linkage\":\"Local\"},{\"op\":\"declare_data\",\"name\":\"own\",\"linkage\":\"Local\"},{\"op\":\"declare_data\",\"name\":\"cfg\",\"linkage\":\"Local\",\"writable\":true},{\"op\":\"declare_anonymous_data\"},{\"op\":\"define_function\",\"id\":1,\"align\":16,\"bytes\":\"488d3d00000000e800000000c3\",\"relocs\":[{\"offset\":3,\"kind\":\"X86PCRel4\",\"target\":{\"data\":0},\"addend\":-4},{\"offset\":8,\"kind\":\"X86PCRel4\",\"target\":{\"function\":0},\"addend\":-4}]},{\"op\":\"define_data\",\"id\":0,\"bytes\":\"68690a00\"},{\"op\":\"define_data\",\"id\":1,\"align\":8,\"bytes\":\"00000000000000000000000000000000\",\"functions\":[{\"function\":1}],\"data\":[{\"data\":0},{\"data\":2}],\"function_addresses\":[[0,0]],\"data_addresses\":[[8,1,-3]]},{\"op\":\"define_data\",\"id\":2,\"bytes\":\"0102\",\"align\":2},{\"op\":\"define_data\",\"id\":3,\"zeros\":5,\"align\":4},{\"op\":\"define_data\",\"id\":4,\"bytes\":\"ff\"},{\"op\":\"define_data\",\"id\":5,\"zeros\":8,\"align\":8},{\"op\":\"define_data\",\"id\":6,\"bytes\":\"aa\",\"used\":true},{\"op\":\"define_data\",\"id\":7,\"zeros\":3,\"section\":\".own\"},{\"op\":\"define_data\",\"id\":8,\"bytes\":\"bb\",\"section\":\".cfg\",\"used\":true},{\"op\":\"define_data\",\"id\":9,\"bytes\":\"cc\",\"align\":4}";

/// A part with both section options on.
const OWN: &str =
    "[{\"name\":\"a.o\",\"arch\":\"x86_64\",\"format\":\"elf\",\"commands\":[{\"op\":\"declare_function\",\"name\":\"f\",\"linkage\":\"Export\"},{\"op\":\"declare_data\",\"name\":\"d\",\"linkage\":\"Local\"},{\"op\":\"declare_data\",\"name\":\"e\",\"linkage\":\"Local\",\"writable\":true},{\"op\":\"define_function\",\"id\":0,\"bytes\":\"c3\",\"align\":32},{\"op\":\"define_data\",\"id\":0,\"bytes\":\"01\"},{\"op\":\"define_data\",\"id\":1,\"zeros\":4}],\"function_sections\":true,\"data_sections\":true}]";

#[test]
fn each_definition_stands_in_the_section_of_its_kind(rt: HostRuntime) -> Result<(), Fail> {
    let alloc = rt.alloc();
    let build = words(alloc, &["build"])?;
    let cases = [
        (SECTIONS, SECTIONS_FILE),
        (
            "{\"op\":\"declare_data\",\"name\":\"d\",\"linkage\":\"Local\"},{\"op\":\"define_data\",\"id\":0,\"bytes\":\"01020304\"},{\"op\":\"declare_data\",\"name\":\"d\",\"linkage\":\"Local\",\"writable\":true}",
            LATER_MARK_FILE,
        ),
        (
            "{\"op\":\"declare_data\",\"name\":\"u\",\"linkage\":\"Local\"},{\"op\":\"declare_data\",\"name\":\"v\",\"linkage\":\"Local\"},{\"op\":\"define_data\",\"id\":0,\"bytes\":\"01\",\"used\":true},{\"op\":\"define_data\",\"id\":1,\"bytes\":\"02\",\"used\":true}",
            USED_FILE,
        ),
        (
            "{\"op\":\"declare_data\",\"name\":\"a\",\"linkage\":\"Local\"},{\"op\":\"declare_data\",\"name\":\"b\",\"linkage\":\"Local\"},{\"op\":\"define_data\",\"id\":0,\"zeros\":16,\"section\":\"cfg\"},{\"op\":\"define_data\",\"id\":1,\"zeros\":16,\"section\":\"cfg\"}",
            CUSTOM_FILE,
        ),
    ];
    for (commands, file) in cases {
        let text = part_of(alloc, commands)?;
        let mut host = MemHost::new(alloc, text.as_bytes(), &[], NONE, 8000)?;
        assert_eq!(rt; run(alloc, &build, &mut host), 0, "{commands}");
        assert!(rt; is_file(host.output(), file), "{commands}");
    }
    Ok(())
}

#[test]
fn the_options_of_a_part_give_sections_of_their_own(rt: HostRuntime) -> Result<(), Fail> {
    let alloc = rt.alloc();
    let build = words(alloc, &["build"])?;
    let mut host = MemHost::new(alloc, OWN.as_bytes(), &[], NONE, 8000)?;
    assert_eq!(rt; run(alloc, &build, &mut host), 0);
    assert!(rt; is_file(host.output(), OWN_FILE));
    Ok(())
}

#[test]
fn a_refused_definition_has_status_1_and_names_its_place(rt: HostRuntime) -> Result<(), Fail> {
    let alloc = rt.alloc();
    let build = words(alloc, &["build"])?;
    let cases = [
        (
            "{\"op\":\"declare_data\",\"name\":\"d\",\"linkage\":\"Local\"},{\"op\":\"define_data\",\"id\":0}",
            "part 0 command 1: Backend error: no contents\n",
        ),
        (
            "{\"op\":\"define_data\",\"id\":7,\"bytes\":\"\"}",
            "part 0 command 0: Undeclared identifier: u1:7\n",
        ),
        (
            "{\"op\":\"declare_data\",\"name\":\"d\",\"linkage\":\"Import\"},{\"op\":\"define_data\",\"id\":0,\"bytes\":\"\"}",
            "part 0 command 1: Invalid to define identifier declared as an import: d\n",
        ),
        (
            "{\"op\":\"declare_data\",\"name\":\"d\",\"linkage\":\"Local\"},{\"op\":\"define_data\",\"id\":0,\"bytes\":\"\"},{\"op\":\"define_data\",\"id\":0,\"bytes\":\"\"}",
            "part 0 command 2: Duplicate definition of identifier: d\n",
        ),
        (
            "{\"op\":\"declare_data\",\"name\":\"d\",\"linkage\":\"Local\"},{\"op\":\"define_data\",\"id\":0,\"bytes\":\"00\",\"align\":3}",
            "part 0 command 1: Backend error: bad alignment 3\n",
        ),
        (
            "{\"op\":\"declare_function\",\"name\":\"f\",\"linkage\":\"Export\"},{\"op\":\"define_function\",\"id\":0,\"bytes\":\"c3\",\"align\":131072}",
            "part 0 command 1: Backend error: bad alignment 131072\n",
        ),
        (
            "{\"op\":\"declare_data\",\"name\":\"d\",\"linkage\":\"Local\"},{\"op\":\"define_data\",\"id\":0,\"bytes\":\"0000000000000000\",\"function_addresses\":[[0,0]]}",
            "part 0 command 1: Undeclared identifier: fn0\n",
        ),
        (
            "{\"op\":\"declare_data\",\"name\":\"d\",\"linkage\":\"Local\"},{\"op\":\"define_data\",\"id\":0,\"bytes\":\"0000000000000000\",\"data\":[{\"data\":0}],\"data_addresses\":[[0,1,0]]}",
            "part 0 command 1: Undeclared identifier: gv1\n",
        ),
        (
            "{\"op\":\"declare_data\",\"name\":\"d\",\"linkage\":\"Local\",\"tls\":true},{\"op\":\"define_data\",\"id\":0,\"bytes\":\"00\",\"section\":\"s\"}",
            "part 0 command 1: Backend error: thread-local data not allowed here\n",
        ),
        (
            "{\"op\":\"declare_data\",\"name\":\"d\",\"linkage\":\"Local\"},{\"op\":\"define_data\",\"id\":0,\"bytes\":\"00\",\"section\":\"ab\\u0000c\"}",
            "part 0 command 1: Backend error: zero byte at 2\n",
        ),
        (
            "{\"op\":\"declare_function\",\"name\":\"f\",\"linkage\":\"Import\"},{\"op\":\"declare_data\",\"name\":\"d\",\"linkage\":\"Local\"},{\"op\":\"define_data\",\"id\":0,\"bytes\":\"0000000000000000\",\"functions\":[{\"function\":0}],\"function_addresses\":[[1,0]]}",
            "part 0 command 2: Backend error: relocation 0: bad field at 1\n",
        ),
        (
            "{\"op\":\"declare_function\",\"name\":\"f\",\"linkage\":\"Import\"},{\"op\":\"declare_data\",\"name\":\"d\",\"linkage\":\"Local\"},{\"op\":\"define_data\",\"id\":0,\"zeros\":8,\"functions\":[{\"function\":0}],\"function_addresses\":[[0,0]]}",
            "part 0 command 2: Backend error: relocation 0: bad field at 0\n",
        ),
        (
            "{\"op\":\"declare_function\",\"name\":\"f\",\"linkage\":\"Export\"},{\"op\":\"define_function\",\"id\":0,\"bytes\":\"e800000000\",\"relocs\":[{\"offset\":1,\"kind\":\"X86PCRel4\",\"target\":{\"function\":0}},{\"offset\":2,\"kind\":\"X86PCRel4\",\"target\":{\"function\":0}}]}",
            "part 0 command 1: Backend error: relocation 1: bad field at 2\n",
        ),
        (
            "{\"op\":\"declare_function\",\"name\":\"f\",\"linkage\":\"Export\"},{\"op\":\"define_function\",\"id\":0,\"bytes\":\"e800000000\",\"relocs\":[{\"offset\":1,\"kind\":\"X86PCRel4\",\"target\":{\"function\":5}}]}",
            "part 0 end: Undeclared identifier: u0:5\n",
        ),
        (
            "{\"op\":\"declare_function\",\"name\":\"f\",\"linkage\":\"Export\"},{\"op\":\"define_function\",\"id\":0,\"bytes\":\"0000000000000000\",\"relocs\":[{\"offset\":0,\"kind\":\"Abs8\",\"target\":{\"data\":5}}]}",
            "part 0 end: Undeclared identifier: u1:5\n",
        ),
        (
            "{\"op\":\"declare_data\",\"name\":\"d\",\"linkage\":\"Export\"}",
            "part 0 end: Missing definition of identifier: d\n",
        ),
        (
            "{\"op\":\"declare_data\",\"name\":\"d\",\"linkage\":\"Local\"},{\"op\":\"define_data\",\"id\":0,\"zeros\":9223372036854775807}",
            "part 0 end: too large contents: 9223372036854775808\n",
        ),
        (
            "{\"op\":\"declare_data\",\"name\":\"d\",\"linkage\":\"Local\"},{\"op\":\"define_data\",\"id\":0,\"zeros\":9223372036854775808}",
            "part 0 end: too large contents: 9223372036854775809\n",
        ),
    ];
    for (commands, want) in cases {
        let text = part_of(alloc, commands)?;
        let mut host = MemHost::new(alloc, text.as_bytes(), &[], NONE, 2000)?;
        assert_eq!(rt; run(alloc, &build, &mut host), 1, "{want}");
        assert!(rt; host.errors() == want.as_bytes(), "{want}");
        assert_eq!(rt; host.output().len(), 0);
    }
    Ok(())
}

#[test]
fn zeros_of_a_zero_fill_section_are_a_number(rt: HostRuntime) -> Result<(), Fail> {
    let alloc = rt.alloc();
    let build = words(alloc, &["build"])?;
    let text = part_of(
        alloc,
        "{\"op\":\"declare_data\",\"name\":\"d\",\"linkage\":\"Local\"},{\"op\":\"define_data\",\"id\":0,\"zeros\":9223372036854775806}",
    )?;
    let mut host = MemHost::new(alloc, text.as_bytes(), &[], NONE, 2000)?;
    assert_eq!(rt; run(alloc, &build, &mut host), 0);
    Ok(())
}

#[test]
fn definitions_out_of_form_are_not_understood(rt: HostRuntime) -> Result<(), Fail> {
    let alloc = rt.alloc();
    let build = words(alloc, &["build"])?;
    let cases = [
        "{\"op\":\"define_data\",\"id\":0,\"zeros\":1.5}",
        "{\"op\":\"define_data\",\"id\":0,\"zeros\":1,\"bytes\":\"00\"}",
        "{\"op\":\"define_data\",\"id\":0,\"bytes\":\"0\"}",
        "{\"op\":\"define_data\",\"bytes\":\"00\"}",
        "{\"op\":\"define_data\",\"id\":0,\"bytes\":\"00\",\"x\":0}",
        "{\"op\":\"define_data\",\"id\":0,\"bytes\":\"00\",\"used\":1}",
        "{\"op\":\"define_data\",\"id\":0,\"bytes\":\"00\",\"section\":1}",
        "{\"op\":\"define_data\",\"id\":0,\"bytes\":\"00\",\"align\":-1}",
        "{\"op\":\"define_data\",\"id\":0,\"bytes\":\"00\",\"functions\":[{}]}",
        "{\"op\":\"define_data\",\"id\":0,\"bytes\":\"00\",\"data\":[{\"data\":0,\"function\":0}]}",
        "{\"op\":\"define_data\",\"id\":0,\"bytes\":\"00\",\"function_addresses\":[[0,0,0]]}",
        "{\"op\":\"define_data\",\"id\":0,\"bytes\":\"00\",\"data_addresses\":[[0,0]]}",
        "{\"op\":\"define_function\",\"id\":0,\"bytes\":\"00\",\"relocs\":[{\"offset\":0,\"kind\":\"Abs9\",\"target\":{\"data\":0}}]}",
        "{\"op\":\"define_function\",\"id\":0,\"bytes\":\"00\",\"relocs\":[{\"offset\":4294967296,\"kind\":\"Abs8\",\"target\":{\"data\":0}}]}",
        "{\"op\":\"define_function\",\"id\":0,\"bytes\":\"00\",\"relocs\":[{\"offset\":0,\"kind\":\"Abs8\",\"target\":{\"data\":0},\"addend\":9223372036854775808}]}",
        "{\"op\":\"define_function\",\"id\":0,\"bytes\":\"00\",\"align\":\"1\"}",
    ];
    for commands in cases {
        let text = part_of(alloc, commands)?;
        let mut host = MemHost::new(alloc, text.as_bytes(), &[], NONE, 2000)?;
        assert_eq!(rt; run(alloc, &build, &mut host), 6, "{commands}");
        assert!(rt;
            host.errors() == b"input not understood\n".as_slice(),
            "{commands}"
        );
    }
    Ok(())
}
