use crate::build_tests::{NONE, part_of, words};
use crate::files::{MIXED_FILE, is_file};
use byte_core::MemHost;
use objtool_run::run;
use std::test::Fail;

/// Ten functions and ten data objects by turns, of all linkages that need no definition of data.
const MIXED: &str =
    "{\"op\":\"declare_function\",\"name\":\"f0\",\"linkage\":\"Local\"},{\"op\":\"declare_data\",\"name\":\"d0\",\"linkage\":\"Import\",\"tls\":false},{\"op\":\"declare_function\",\"name\":\"f1\",\"linkage\":\"Export\"},{\"op\":\"declare_data\",\"name\":\"d1\",\"linkage\":\"Preemptible\",\"writable\":true},{\"op\":\"declare_function\",\"name\":\"f2\",\"linkage\":\"Import\"},{\"op\":\"declare_data\",\"name\":\"d2\",\"linkage\":\"Import\",\"tls\":true},{\"op\":\"declare_function\",\"name\":\"f3\",\"linkage\":\"Preemptible\"},{\"op\":\"declare_data\",\"name\":\"d3\",\"linkage\":\"Preemptible\",\"writable\":true},{\"op\":\"declare_function\",\"name\":\"f4\",\"linkage\":\"Hidden\"},{\"op\":\"declare_data\",\"name\":\"d4\",\"linkage\":\"Import\"},{\"op\":\"declare_function\",\"name\":\"f5\",\"linkage\":\"Local\"},{\"op\":\"declare_data\",\"name\":\"d5\",\"linkage\":\"Preemptible\",\"writable\":true,\"tls\":true},{\"op\":\"declare_function\",\"name\":\"f6\",\"linkage\":\"Export\"},{\"op\":\"declare_data\",\"name\":\"d6\",\"linkage\":\"Import\"},{\"op\":\"declare_function\",\"name\":\"f7\",\"linkage\":\"Import\"},{\"op\":\"declare_data\",\"name\":\"d7\",\"linkage\":\"Preemptible\",\"writable\":true},{\"op\":\"declare_function\",\"name\":\"f8\",\"linkage\":\"Preemptible\"},{\"op\":\"declare_data\",\"name\":\"d8\",\"linkage\":\"Import\",\"tls\":true},{\"op\":\"declare_function\",\"name\":\"f9\",\"linkage\":\"Hidden\"},{\"op\":\"declare_data\",\"name\":\"d9\",\"linkage\":\"Preemptible\",\"writable\":true},{\"op\":\"define_function\",\"id\":0,\"bytes\":\"c3\"},{\"op\":\"define_function\",\"id\":1,\"bytes\":\"90c3\"},{\"op\":\"define_function\",\"id\":4,\"bytes\":\"90c3\"},{\"op\":\"define_function\",\"id\":5,\"bytes\":\"9090c3\"},{\"op\":\"define_function\",\"id\":6,\"bytes\":\"c3\"},{\"op\":\"define_function\",\"id\":9,\"bytes\":\"c3\"}";

#[test]
fn ten_functions_and_ten_data_objects_have_symbols_in_order_of_creation(
    rt: HostRuntime,
) -> Result<(), Fail> {
    let alloc = rt.alloc();
    let build = words(alloc, &["build"])?;
    let text = part_of(alloc, MIXED)?;
    let mut host = MemHost::new(alloc, text.as_bytes(), &[], NONE, 4000)?;
    assert_eq!(rt; run(alloc, &build, &mut host), 0);
    assert!(rt; is_file(host.output(), MIXED_FILE));
    Ok(())
}

#[test]
fn a_refused_declaration_of_data_is_named(rt: HostRuntime) -> Result<(), Fail> {
    let alloc = rt.alloc();
    let build = words(alloc, &["build"])?;
    let cases = [
        (
            "{\"op\":\"declare_data\",\"name\":\"x\",\"linkage\":\"Local\"},{\"op\":\"declare_function\",\"name\":\"x\",\"linkage\":\"Export\"}",
            "part 0 command 1: Incompatible declaration of identifier: x\n",
        ),
        (
            "{\"op\":\"declare_function\",\"name\":\"x\",\"linkage\":\"Import\"},{\"op\":\"declare_data\",\"name\":\"x\",\"linkage\":\"Import\"}",
            "part 0 command 1: Incompatible declaration of identifier: x\n",
        ),
        (
            "{\"op\":\"declare_data\",\"name\":\"t\",\"linkage\":\"Import\",\"tls\":true},{\"op\":\"declare_data\",\"name\":\"t\",\"linkage\":\"Import\",\"writable\":true}",
            "part 0 command 1: Data object t TLS false is incompatible with previous declaration TLS true\n",
        ),
        (
            "{\"op\":\"declare_data\",\"name\":\"a\\u0000\",\"linkage\":\"Import\"}",
            "part 0 command 0: Backend error: zero byte at 1\n",
        ),
        (
            "{\"op\":\"declare_anonymous_data\",\"writable\":true,\"tls\":false}",
            "part 0 end: Missing definition of identifier: .Ldata0\n",
        ),
        (
            "{\"op\":\"declare_data\",\"name\":\"d\",\"linkage\":\"Hidden\"},{\"op\":\"declare_function\",\"name\":\"f\",\"linkage\":\"Local\"}",
            "part 0 end: Missing definition of identifier: f\n",
        ),
        (
            "{\"op\":\"declare_data\",\"name\":\"i\",\"linkage\":\"Import\"},{\"op\":\"declare_data\",\"name\":\"d\",\"linkage\":\"Export\"}",
            "part 0 end: Missing definition of identifier: d\n",
        ),
    ];
    for (commands, want) in cases {
        let text = part_of(alloc, commands)?;
        let mut host = MemHost::new(alloc, text.as_bytes(), &[], NONE, 2000)?;
        assert_eq!(rt; run(alloc, &build, &mut host), 1, "{want}");
        assert!(rt; host.errors() == want.as_bytes(), "{want}");
        assert_eq!(rt; host.output().len(), 0);
    }
    Ok(())
}

#[test]
fn a_mark_of_data_is_a_truth_value(rt: HostRuntime) -> Result<(), Fail> {
    let alloc = rt.alloc();
    let build = words(alloc, &["build"])?;
    let cases = [
        "{\"op\":\"declare_anonymous_data\",\"writable\":1}",
        "{\"op\":\"declare_data\",\"name\":\"d\",\"linkage\":\"Import\",\"tls\":null}",
        "{\"op\":\"declare_anonymous_data\",\"name\":\"d\"}",
    ];
    for commands in cases {
        let text = part_of(alloc, commands)?;
        let mut host = MemHost::new(alloc, text.as_bytes(), &[], NONE, 2000)?;
        assert_eq!(rt; run(alloc, &build, &mut host), 6, "{commands}");
    }
    Ok(())
}
