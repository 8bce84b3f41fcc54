//! The targets of a part and of its relocations: processors and their kinds, library calls, known symbols, labels, user
//! names, and the options of a target.

use crate::build_tests::{NONE, words};
use crate::files::{EMPTY_FILE, is_file};
use crate::target_files::{
    AARCH64_FILE, CALL_AS_DATA_FILE, CALL_FILE, CALL_FIRST_FILE, HELLO_FILE, KNOWN_FILE,
    LABEL_FILE, LABELS_FILE, OWN_TEXTS_FILE, RISCV64_EMPTY_FILE, RISCV64_FILE, RISCV64_PLAIN_FILE,
    USER_FILE, X86_64_FILE,
};
use byte_core::MemHost;
use objtool_run::run;
use std::alloc::{AllocError, Global};
use std::process::Abort;
use std::test::Fail;

/// A call of the library to a name that isn't declared.
const CALL: &str = r#"[{"name":"a.o","arch":"x86_64","format":"elf","commands":[
    {"op":"declare_function","name":"f","linkage":"Export"},
    {"op":"define_function","id":0,"bytes":"e800000000",
        "relocs":[{"offset":1,"kind":"X86CallPLTRel4","target":{"libcall":"Memcpy"},"addend":-4}]}]}]"#;

/// The same, and a declaration of the name as the last command.
const CALL_LAST: &str = r#"[{"name":"a.o","arch":"x86_64","format":"elf","commands":[
    {"op":"declare_function","name":"f","linkage":"Export"},
    {"op":"define_function","id":0,"bytes":"e800000000",
        "relocs":[{"offset":1,"kind":"X86CallPLTRel4","target":{"libcall":"Memcpy"},"addend":-4}]},
    {"op":"declare_function","name":"memcpy","linkage":"Import"}]}]"#;

/// The same, with the declaration as the first command.
const CALL_FIRST: &str = r#"[{"name":"a.o","arch":"x86_64","format":"elf","commands":[
    {"op":"declare_function","name":"memcpy","linkage":"Import"},
    {"op":"declare_function","name":"f","linkage":"Export"},
    {"op":"define_function","id":1,"bytes":"e800000000",
        "relocs":[{"offset":1,"kind":"X86CallPLTRel4","target":{"libcall":"Memcpy"},"addend":-4}]}]}]"#;

/// The same, where the name is that of a data object.
const CALL_AS_DATA: &str = r#"[{"name":"a.o","arch":"x86_64","format":"elf","commands":[
    {"op":"declare_function","name":"f","linkage":"Export"},
    {"op":"declare_data","name":"memcpy","linkage":"Hidden"},
    {"op":"define_function","id":0,"bytes":"e800000000",
        "relocs":[{"offset":1,"kind":"X86CallPLTRel4","target":{"libcall":"Memcpy"},"addend":-4}]},
    {"op":"define_data","id":0,"bytes":"c3"}]}]"#;

/// Library calls under texts of the part's own: two under one text, one under the text of an anonymous function, one empty.
const OWN_TEXTS: &str = r#"[{"name":"a.o","arch":"x86_64","format":"elf",
    "libcalls":{"Memset":"memcpy","FloorF64":".Lfn0","CeilF32":"","TruncF32":"f"},"commands":[
    {"op":"declare_anonymous_function"},
    {"op":"declare_function","name":"f","linkage":"Export"},
    {"op":"define_function","id":0,"bytes":"e800000000e800000000","relocs":[
        {"offset":1,"kind":"X86CallPLTRel4","target":{"libcall":"Memset"},"addend":-4},
        {"offset":6,"kind":"X86CallPLTRel4","target":{"libcall":"Memcpy"},"addend":-4}]},
    {"op":"define_function","id":1,"bytes":"e800000000e800000000e800000000e800000000e800000000","relocs":[
        {"offset":1,"kind":"X86CallPLTRel4","target":{"libcall":"FloorF64"},"addend":-4},
        {"offset":6,"kind":"X86CallPLTRel4","target":{"libcall":"CeilF32"},"addend":-4},
        {"offset":11,"kind":"X86CallPCRel4","target":{"libcall":"TruncF32"},"addend":-4},
        {"offset":16,"kind":"X86CallPLTRel4","target":{"libcall":"Memset"},"addend":-4},
        {"offset":21,"kind":"X86CallPLTRel4","target":{"libcall":"ElfTlsGetAddr"},"addend":-4}]}]}]"#;

/// One label that is used twice, past the end of its function.
const LABEL: &str = r#"[{"name":"a.o","arch":"x86_64","format":"elf","commands":[
    {"op":"declare_function","name":"f","linkage":"Local"},
    {"op":"declare_function","name":"g","linkage":"Local"},
    {"op":"define_function","id":0,"bytes":"c3"},
    {"op":"define_function","id":1,"bytes":"00000000000000000000000000000000","relocs":[
        {"offset":0,"kind":"Abs8","target":{"label":[0,100]}},
        {"offset":8,"kind":"Abs8","target":{"label":[0,100]}}]}]}]"#;

/// Labels of one function at two offsets and of two functions at one offset, before their functions are defined, from a
/// function and from data, in an order of first uses that isn't that of their places.
const LABELS: &str =
    r#"[{"name":"a.o","arch":"x86_64","format":"elf","function_sections":true,"commands":[
    {"op":"declare_data","name":"t","linkage":"Export"},
    {"op":"declare_function","name":"f","linkage":"Export"},
    {"op":"declare_function","name":"g","linkage":"Hidden"},
    {"op":"define_data","id":0,"align":8,"bytes":"000000000000000000000000000000000000000000000000",
        "functions":[{"label":[1,2]}],"data":[{"label":[0,2]}],
        "function_addresses":[[8,0]],"data_addresses":[[0,0,1],[16,0,-1]]},
    {"op":"define_function","id":1,"bytes":"9090c3"},
    {"op":"define_function","id":0,"align":16,"bytes":"488d05000000009090c3","relocs":[
        {"offset":3,"kind":"X86PCRel4","target":{"label":[0,0]},"addend":-4}]}]}]"#;

/// Known symbols, each beside a data object of the same name.
const KNOWN: &str = r#"[{"name":"a.o","arch":"x86_64","format":"elf","commands":[
    {"op":"declare_data","name":"_GLOBAL_OFFSET_TABLE_","linkage":"Export"},
    {"op":"declare_data","name":"_tls_index","linkage":"Import"},
    {"op":"declare_function","name":"f","linkage":"Export"},
    {"op":"define_data","id":0,"bytes":"07"},
    {"op":"define_function","id":0,"align":16,"bytes":"00000000000000000000000000000000000000000000000000000000","relocs":[
        {"offset":0,"kind":"X86PCRel4","target":{"known":"ElfGlobalOffsetTable"},"addend":-4},
        {"offset":4,"kind":"X86PCRel4","target":{"data":0},"addend":-4},
        {"offset":8,"kind":"Abs4","target":{"known":"CoffTlsIndex"}},
        {"offset":12,"kind":"X86PCRel4","target":{"known":"ElfGlobalOffsetTable"}},
        {"offset":16,"kind":"Abs8","target":{"data":1},"addend":9223372036854775807},
        {"offset":24,"kind":"Abs4","target":{"known":"CoffTlsIndex"},"addend":-9223372036854775808}]}]}]"#;

/// Functions and data objects by the numbers of their namespaces, one of them declared behind its use.
const USER: &str = r#"[{"name":"a.o","arch":"x86_64","format":"elf","commands":[
    {"op":"declare_function","name":"f","linkage":"Export"},
    {"op":"declare_data","name":"d","linkage":"Local"},
    {"op":"define_function","id":0,"bytes":"e800000000e800000000","relocs":[
        {"offset":1,"kind":"X86CallPCRel4","target":{"user":[0,1]},"addend":-4},
        {"offset":6,"kind":"X86PCRel4","target":{"user":[1,0]},"addend":-4}]},
    {"op":"define_data","id":0,"align":8,"bytes":"00000000000000000000000000000000",
        "functions":[{"user":[0,0]}],"data":[{"data":0},{"user":[1,0]}],
        "function_addresses":[[0,0]],"data_addresses":[[8,1,8]]},
    {"op":"declare_function","name":"g","linkage":"Import"}]}]"#;

/// A program that prints, each definition in a section of its own.
const HELLO: &str =
    r#"[{"name":"hello.o","arch":"x86_64","format":"elf","function_sections":true,"data_sections":true,"commands":[
    {"op":"declare_function","name":"printf","linkage":"Import"},
    {"op":"declare_function","name":"main","linkage":"Export"},
    {"op":"declare_data","name":"msg","linkage":"Local"},
    {"op":"declare_data","name":"tab","linkage":"Local"},
    {"op":"define_function","id":1,"bytes":"488d3d00000000e800000000c3","relocs":[
        {"offset":3,"kind":"X86PCRel4","target":{"data":0},"addend":-4},
        {"offset":8,"kind":"X86CallPLTRel4","target":{"function":0},"addend":-4}]},
    {"op":"define_data","id":0,"bytes":"68690a00"},
    {"op":"define_data","id":1,"align":8,"bytes":"00000000000000000000000000000000",
        "functions":[{"function":1}],"data":[{"data":0}],"function_addresses":[[0,0]],"data_addresses":[[8,0,0]]}]}]"#;

/// Every kind of x86_64, behind a function of one byte.
const X86_64: &str = r#"[{"name":"a.o","arch":"x86_64","format":"elf","commands":[
    {"op":"declare_function","name":"ext","linkage":"Import"},
    {"op":"declare_function","name":"first","linkage":"Local"},
    {"op":"declare_function","name":"f","linkage":"Export"},
    {"op":"declare_data","name":"d","linkage":"Local"},
    {"op":"declare_data","name":"t","linkage":"Import","tls":true},
    {"op":"define_function","id":1,"bytes":"c3"},
    {"op":"define_function","id":2,"bytes":"0000000000000000000000000000000000000000000000000000000000000000","relocs":[
        {"offset":0,"kind":"Abs4","target":{"data":0},"addend":1},
        {"offset":4,"kind":"Abs8","target":{"data":0},"addend":2},
        {"offset":12,"kind":"X86PCRel4","target":{"function":1},"addend":-4},
        {"offset":16,"kind":"X86CallPCRel4","target":{"function":0},"addend":-4},
        {"offset":20,"kind":"X86CallPLTRel4","target":{"libcall":"Memcpy"},"addend":-4},
        {"offset":24,"kind":"X86GOTPCRel4","target":{"function":0},"addend":-4},
        {"offset":28,"kind":"ElfX86_64TlsGd","target":{"data":1},"addend":-4}]},
    {"op":"define_data","id":0,"bytes":"01"}]}]"#;

/// Every kind of aarch64, behind a function of one byte; symbols there stand at multiples of 4.
const AARCH64: &str = r#"[{"name":"a.o","arch":"aarch64","format":"elf","commands":[
    {"op":"declare_function","name":"ext","linkage":"Import"},
    {"op":"declare_function","name":"first","linkage":"Local"},
    {"op":"declare_function","name":"f","linkage":"Export"},
    {"op":"declare_data","name":"d","linkage":"Local"},
    {"op":"declare_data","name":"e","linkage":"Local"},
    {"op":"declare_data","name":"t","linkage":"Import","tls":true},
    {"op":"define_function","id":1,"align":2,"bytes":"c3"},
    {"op":"define_function","id":2,
        "bytes":"000000000000000000000000000000000000000000000000000000000000000000000000000000000000000000000000","relocs":[
        {"offset":0,"kind":"Abs4","target":{"data":0},"addend":1},
        {"offset":4,"kind":"Abs8","target":{"data":1},"addend":2},
        {"offset":12,"kind":"Arm64Call","target":{"function":1}},
        {"offset":16,"kind":"Aarch64AdrGotPage21","target":{"function":0}},
        {"offset":20,"kind":"Aarch64Ld64GotLo12Nc","target":{"function":0}},
        {"offset":24,"kind":"Aarch64AdrPrelPgHi21","target":{"data":0},"addend":4096},
        {"offset":28,"kind":"Aarch64AddAbsLo12Nc","target":{"data":0},"addend":4096},
        {"offset":32,"kind":"Aarch64TlsDescAdrPage21","target":{"data":2}},
        {"offset":36,"kind":"Aarch64TlsDescLd64Lo12","target":{"data":2}},
        {"offset":40,"kind":"Aarch64TlsDescAddLo12","target":{"data":2}},
        {"offset":44,"kind":"Aarch64TlsDescCall","target":{"data":2}}]},
    {"op":"define_data","id":0,"bytes":"01"},
    {"op":"define_data","id":1,"bytes":"02","align":1}]}]"#;

/// Every kind of riscv64, behind a function of one byte; symbols there stand at multiples of 4.
const RISCV64: &str =
    r#"[{"name":"a.o","arch":"riscv64","format":"elf","flags":[["has_zca",true],["has_zcd",null]],"commands":[
    {"op":"declare_function","name":"ext","linkage":"Import"},
    {"op":"declare_function","name":"first","linkage":"Local"},
    {"op":"declare_function","name":"f","linkage":"Export"},
    {"op":"declare_data","name":"d","linkage":"Local","writable":true},
    {"op":"declare_data","name":"e","linkage":"Local","writable":true},
    {"op":"declare_data","name":"t","linkage":"Import","tls":true},
    {"op":"define_function","id":1,"bytes":"c3"},
    {"op":"define_function","id":2,"bytes":"0000000000000000000000000000000000000000000000000000000000000000000000000000","relocs":[
        {"offset":0,"kind":"Abs4","target":{"data":0},"addend":1},
        {"offset":4,"kind":"Abs8","target":{"data":1},"addend":2},
        {"offset":12,"kind":"RiscvCallPlt","target":{"libcall":"Memmove"}},
        {"offset":20,"kind":"RiscvGotHi20","target":{"function":0}},
        {"offset":24,"kind":"RiscvTlsGdHi20","target":{"data":2}},
        {"offset":28,"kind":"RiscvPCRelHi20","target":{"data":0}},
        {"offset":32,"kind":"RiscvPCRelLo12I","target":{"label":[2,28]}}]},
    {"op":"define_data","id":0,"zeros":5},
    {"op":"define_data","id":1,"zeros":2,"align":8}]}]"#;

/// A part without commands for riscv64.
const RISCV64_EMPTY: &str = r#"[{"name":"a.o","arch":"riscv64","format":"elf","commands":[]}]"#;

/// The same without the instructions of 2 bytes.
const RISCV64_PLAIN: &str =
    r#"[{"name":"a.o","arch":"riscv64","format":"elf","flags":[["has_zca",false]],"commands":[]}]"#;

/// A part of these keys and commands, under the name `a.o`.
fn part_for(alloc: Global, keys: &str, commands: &str) -> Result<String, AllocError> {
    format!(in alloc; "[{{\"name\":\"a.o\",{keys},\"commands\":[{commands}]}}]")
}

/// Shows that a part is built, and as which bytes.
fn builds(rt: &impl Abort, alloc: Global, part: &str, file: &[&str]) -> Result<(), Fail> {
    let build = words(alloc, &["build"])?;
    let mut host = MemHost::new(alloc, part.as_bytes(), &[], NONE, 8000)?;
    assert_eq!(rt; run(alloc, &build, &mut host), 0, "{part}");
    assert!(rt; is_file(host.output(), file), "{part}");
    assert_eq!(rt; host.errors().len(), 0);
    Ok(())
}

/// Shows that a part is built.
fn takes(rt: &impl Abort, alloc: Global, part: &str) -> Result<(), Fail> {
    let build = words(alloc, &["build"])?;
    let mut host = MemHost::new(alloc, part.as_bytes(), &[], NONE, 8000)?;
    assert_eq!(rt; run(alloc, &build, &mut host), 0, "{part}");
    Ok(())
}

/// Shows that a part is answered with this status and this fault text alone.
fn refuses(rt: &impl Abort, alloc: Global, part: &str, status: u8, want: &str) -> Result<(), Fail> {
    let build = words(alloc, &["build"])?;
    let mut host = MemHost::new(alloc, part.as_bytes(), &[], NONE, 8000)?;
    assert_eq!(rt; run(alloc, &build, &mut host), status, "{part}");
    assert!(rt; host.errors() == want.as_bytes(), "{part}: {want}");
    assert_eq!(rt; host.output().len(), 0);
    Ok(())
}

#[test]
fn a_library_call_goes_to_the_name_declared_before_it_after_it_or_to_a_new_symbol(
    rt: HostRuntime,
) -> Result<(), Fail> {
    let alloc = rt.alloc();
    let cases = [
        (CALL, CALL_FILE),
        (CALL_LAST, CALL_FILE),
        (CALL_FIRST, CALL_FIRST_FILE),
        (CALL_AS_DATA, CALL_AS_DATA_FILE),
    ];
    for (part, file) in cases {
        builds(&rt, alloc, part, file)?;
    }
    Ok(())
}

#[test]
fn library_calls_of_one_text_have_one_symbol(rt: HostRuntime) -> Result<(), Fail> {
    builds(&rt, rt.alloc(), OWN_TEXTS, OWN_TEXTS_FILE)
}

#[test]
fn a_label_stands_at_its_offset_of_its_function_and_has_one_symbol(
    rt: HostRuntime,
) -> Result<(), Fail> {
    builds(&rt, rt.alloc(), LABEL, LABEL_FILE)?;
    builds(&rt, rt.alloc(), LABELS, LABELS_FILE)
}

#[test]
fn a_known_symbol_is_one_of_its_own_beside_an_identifier_of_its_name(
    rt: HostRuntime,
) -> Result<(), Fail> {
    builds(&rt, rt.alloc(), KNOWN, KNOWN_FILE)
}

#[test]
fn a_user_name_of_namespace_0_is_a_function_and_of_1_a_data_object(
    rt: HostRuntime,
) -> Result<(), Fail> {
    builds(&rt, rt.alloc(), USER, USER_FILE)
}

#[test]
fn a_program_that_prints_has_1168_bytes(rt: HostRuntime) -> Result<(), Fail> {
    builds(&rt, rt.alloc(), HELLO, HELLO_FILE)
}

#[test]
fn every_kind_of_each_processor_has_its_number(rt: HostRuntime) -> Result<(), Fail> {
    let alloc = rt.alloc();
    for (part, file) in [
        (X86_64, X86_64_FILE),
        (AARCH64, AARCH64_FILE),
        (RISCV64, RISCV64_FILE),
    ] {
        builds(&rt, alloc, part, file)?;
    }
    Ok(())
}

/// The kinds of relocations, each with the processors that have it.
const KINDS: [(&str, (bool, bool, bool)); 29] = [
    ("Abs4", (true, true, true)),
    ("Abs8", (true, true, true)),
    ("X86PCRel4", (true, false, false)),
    ("X86CallPCRel4", (true, false, false)),
    ("X86CallPLTRel4", (true, false, false)),
    ("X86GOTPCRel4", (true, false, false)),
    ("X86SecRel", (false, false, false)),
    ("Arm64Call", (false, true, false)),
    ("S390xPCRel32Dbl", (false, false, false)),
    ("S390xPLTRel32Dbl", (false, false, false)),
    ("ElfX86_64TlsGd", (true, false, false)),
    ("MachOX86_64Tlv", (false, false, false)),
    ("MachOAarch64TlsAdrPage21", (false, false, false)),
    ("MachOAarch64TlsAdrPageOff12", (false, false, false)),
    ("Aarch64TlsDescAdrPage21", (false, true, false)),
    ("Aarch64TlsDescLd64Lo12", (false, true, false)),
    ("Aarch64TlsDescAddLo12", (false, true, false)),
    ("Aarch64TlsDescCall", (false, true, false)),
    ("Aarch64AdrGotPage21", (false, true, false)),
    ("Aarch64Ld64GotLo12Nc", (false, true, false)),
    ("Aarch64AdrPrelPgHi21", (false, true, false)),
    ("Aarch64AddAbsLo12Nc", (false, true, false)),
    ("RiscvCallPlt", (false, false, true)),
    ("RiscvTlsGdHi20", (false, false, true)),
    ("RiscvPCRelHi20", (false, false, true)),
    ("RiscvPCRelLo12I", (false, false, true)),
    ("RiscvGotHi20", (false, false, true)),
    ("S390xTlsGd64", (false, false, false)),
    ("S390xTlsGdCall", (false, false, false)),
];

/// Commands that define a function of so many bytes with a relocation of this kind at the start.
fn one_relocation(alloc: Global, bytes: &str, kind: &str) -> Result<String, AllocError> {
    format!(in alloc;
        "{{\"op\":\"declare_function\",\"name\":\"f\",\"linkage\":\"Export\"}},{{\"op\":\"define_function\",\"id\":0,\"bytes\":\"{bytes}\",\"relocs\":[{{\"offset\":0,\"kind\":\"{kind}\",\"target\":{{\"function\":0}}}}]}}"
    )
}

#[test]
fn a_processor_refuses_the_kinds_that_it_lacks(rt: HostRuntime) -> Result<(), Fail> {
    let alloc = rt.alloc();
    for (kind, (on_x86_64, on_aarch64, on_riscv64)) in KINDS {
        let commands = one_relocation(alloc, "0000000000000000", kind)?;
        let processors = [
            ("x86_64", on_x86_64),
            ("aarch64", on_aarch64),
            ("riscv64", on_riscv64),
        ];
        for (processor, is_there) in processors {
            let keys = format!(in alloc; "\"arch\":\"{processor}\",\"format\":\"elf\"")?;
            let part = part_for(alloc, &keys, &commands)?;
            if is_there {
                takes(&rt, alloc, &part)?;
            } else {
                let want = format!(in alloc;
                    "part 0 command 1: Backend error: relocation 0: kind {kind} not supported\n"
                )?;
                refuses(&rt, alloc, &part, 1, &want)?;
            }
        }
    }
    Ok(())
}

#[test]
fn a_field_of_8_bytes_needs_8_bytes(rt: HostRuntime) -> Result<(), Fail> {
    let alloc = rt.alloc();
    let cases = [
        ("x86_64", "Abs8", "00000000000000"),
        ("aarch64", "Abs8", "00000000000000"),
        ("riscv64", "Abs8", "00000000000000"),
        ("riscv64", "RiscvCallPlt", "00000000000000"),
        ("riscv64", "RiscvGotHi20", "000000"),
        ("aarch64", "Arm64Call", "000000"),
        ("x86_64", "X86GOTPCRel4", "000000"),
    ];
    for (processor, kind, bytes) in cases {
        let keys = format!(in alloc; "\"arch\":\"{processor}\",\"format\":\"elf\"")?;
        let short = part_for(alloc, &keys, &one_relocation(alloc, bytes, kind)?)?;
        refuses(
            &rt,
            alloc,
            &short,
            1,
            "part 0 command 1: Backend error: relocation 0: bad field at 0\n",
        )?;
        let long = format!(in alloc; "{bytes}00")?;
        let enough = part_for(alloc, &keys, &one_relocation(alloc, &long, kind)?)?;
        takes(&rt, alloc, &enough)?;
    }
    Ok(())
}

#[test]
fn a_target_that_is_not_there_is_refused_at_the_end_in_order_of_relocations(
    rt: HostRuntime,
) -> Result<(), Fail> {
    let alloc = rt.alloc();
    let keys = "\"arch\":\"x86_64\",\"format\":\"elf\"";
    let cases = [
        (
            r#"{"offset":0,"kind":"Abs8","target":{"user":[2,0]}}"#,
            "part 0 end: Undeclared identifier: u2:0\n",
        ),
        (
            r#"{"offset":0,"kind":"Abs8","target":{"user":[4294967295,4294967295]}}"#,
            "part 0 end: Undeclared identifier: u4294967295:4294967295\n",
        ),
        (
            r#"{"offset":0,"kind":"Abs8","target":{"user":[0,2]}}"#,
            "part 0 end: Undeclared identifier: u0:2\n",
        ),
        (
            r#"{"offset":0,"kind":"Abs8","target":{"user":[1,0]}}"#,
            "part 0 end: Undeclared identifier: u1:0\n",
        ),
        (
            r#"{"offset":0,"kind":"Abs8","target":{"label":[1,0]}}"#,
            "part 0 end: Missing definition of identifier: g\n",
        ),
        (
            r#"{"offset":0,"kind":"Abs8","target":{"label":[7,4]}}"#,
            "part 0 end: Undeclared identifier: funcid7+4\n",
        ),
        (
            r#"{"offset":0,"kind":"Abs8","target":{"label":[1,0]}},{"offset":0,"kind":"Abs8","target":{"user":[2,0]}}"#,
            "part 0 end: Missing definition of identifier: g\n",
        ),
        (
            r#"{"offset":0,"kind":"Abs8","target":{"user":[3,1]}},{"offset":0,"kind":"Abs8","target":{"label":[1,0]}}"#,
            "part 0 end: Undeclared identifier: u3:1\n",
        ),
        (
            r#"{"offset":0,"kind":"Abs8","target":{"user":[2,0]}},{"offset":1,"kind":"Abs8","target":{"function":0}}"#,
            "part 0 command 2: Backend error: relocation 1: bad field at 1\n",
        ),
    ];
    for (relocations, want) in cases {
        let commands = format!(in alloc;
            "{{\"op\":\"declare_function\",\"name\":\"f\",\"linkage\":\"Export\"}},{{\"op\":\"declare_function\",\"name\":\"g\",\"linkage\":\"Import\"}},{{\"op\":\"define_function\",\"id\":0,\"bytes\":\"0000000000000000\",\"relocs\":[{relocations}]}}"
        )?;
        let part = part_for(alloc, keys, &commands)?;
        refuses(&rt, alloc, &part, 1, want)?;
    }
    Ok(())
}

#[test]
fn a_missing_definition_comes_before_a_target_that_is_not_there(
    rt: HostRuntime,
) -> Result<(), Fail> {
    let part = r#"[{"name":"a.o","arch":"aarch64","format":"elf","commands":[
        {"op":"declare_function","name":"f","linkage":"Export"},
        {"op":"declare_data","name":"d","linkage":"Local"},
        {"op":"define_function","id":0,"bytes":"00000000","relocs":[{"offset":0,"kind":"Arm64Call","target":{"label":[9,0]}}]}]}]"#;
    let want = "part 0 end: Missing definition of identifier: d\n";
    refuses(&rt, rt.alloc(), part, 1, want)
}

#[test]
fn a_file_for_riscv64_tells_compression_where_no_flag_denies_it(
    rt: HostRuntime,
) -> Result<(), Fail> {
    let alloc = rt.alloc();
    builds(&rt, alloc, RISCV64_EMPTY, RISCV64_EMPTY_FILE)?;
    builds(&rt, alloc, RISCV64_PLAIN, RISCV64_PLAIN_FILE)?;
    let cases = [
        ("[]", RISCV64_EMPTY_FILE),
        (r#"[["has_zca",true]]"#, RISCV64_EMPTY_FILE),
        (r#"[["has_zcd",true],["has_zca",true]]"#, RISCV64_EMPTY_FILE),
        (r#"[["has_v",false],["zca",null]]"#, RISCV64_EMPTY_FILE),
        (r#"[["has_zcd",false]]"#, RISCV64_PLAIN_FILE),
        (r#"[["has_zca",null]]"#, RISCV64_PLAIN_FILE),
        (
            r#"[["has_zca",true],["has_zcd",false]]"#,
            RISCV64_PLAIN_FILE,
        ),
        (
            r#"[["has_zca",true],["has_zca",false]]"#,
            RISCV64_PLAIN_FILE,
        ),
        (
            r#"[["has_zca",false],["has_zca",true]]"#,
            RISCV64_PLAIN_FILE,
        ),
    ];
    for (flags, file) in cases {
        let keys = format!(in alloc; "\"arch\":\"riscv64\",\"format\":\"elf\",\"flags\":{flags}")?;
        let part = part_for(alloc, &keys, "")?;
        builds(&rt, alloc, &part, file)?;
    }
    Ok(())
}

#[test]
fn a_target_that_is_not_built_is_refused_at_the_start(rt: HostRuntime) -> Result<(), Fail> {
    let alloc = rt.alloc();
    let cases = [
        ("arm", "elf"),
        ("x86_32", "elf"),
        ("s390x", "elf"),
        ("riscv64", "macho"),
        ("arm", "macho"),
        ("x86_64", "coff"),
        ("aarch64", "coff"),
        ("x86_64", "wasm"),
        ("riscv64", "wasm"),
        ("x86_64", "unknown"),
        ("s390x", "unknown"),
    ];
    let undeclared = r#"{"op":"define_function","id":7,"bytes":""}"#;
    for (processor, format) in cases {
        let keys = format!(in alloc; "\"arch\":\"{processor}\",\"format\":\"{format}\"")?;
        for commands in ["", undeclared] {
            let part = part_for(alloc, &keys, commands)?;
            let want = "part 0 start: Backend error: unsupported target\n";
            refuses(&rt, alloc, &part, 1, want)?;
        }
    }
    Ok(())
}

#[test]
fn zero_bytes_are_refused_in_the_files_name_first_and_then_in_library_texts_by_their_order(
    rt: HostRuntime,
) -> Result<(), Fail> {
    let cases = [
        (
            r#"[{"name":"a.o","arch":"x86_64","format":"elf","libcalls":{"Memcpy":"a\u0000"},"commands":[]}]"#,
            "part 0 start: Backend error: zero byte at 1\n",
        ),
        (
            r#"[{"name":"abc\u0000","arch":"x86_64","format":"elf","libcalls":{"Memcpy":"a\u0000"},"commands":[]}]"#,
            "part 0 start: Backend error: zero byte at 3\n",
        ),
        (
            r#"[{"name":"a.o","arch":"aarch64","format":"elf","libcalls":{"Memcpy":"a\u0000","CeilF32":"ab\u0000\u0000"},"commands":[]}]"#,
            "part 0 start: Backend error: zero byte at 2\n",
        ),
        (
            r#"[{"name":"a.o","arch":"riscv64","format":"elf","libcalls":{"X86Pshufb":"\u0000","Memcmp":"abcd\u0000"},"commands":[]}]"#,
            "part 0 start: Backend error: zero byte at 4\n",
        ),
        (
            r#"[{"name":"\u0000","arch":"arm","format":"elf","libcalls":{"Memcpy":"\u0000"},"commands":[]}]"#,
            "part 0 start: Backend error: unsupported target\n",
        ),
        (
            r#"[{"name":"a.o","arch":"x86_64","format":"elf","libcalls":{"Probestack":"abcde\u0000"},"commands":[{"op":"define_function","id":7,"bytes":""}]}]"#,
            "part 0 start: Backend error: zero byte at 5\n",
        ),
    ];
    let alloc = rt.alloc();
    for (part, want) in cases {
        refuses(&rt, alloc, part, 1, want)?;
    }
    Ok(())
}

#[test]
fn the_options_of_a_target_leave_an_elf_file_as_it_is(rt: HostRuntime) -> Result<(), Fail> {
    let alloc = rt.alloc();
    let cases = [
        r#""system":"unknown""#,
        r#""system":"linux""#,
        r#""system":"darwin""#,
        r#""system":"macosx""#,
        r#""system":"ios""#,
        r#""system":"tvos""#,
        r#""system":"visionos""#,
        r#""system":"watchos""#,
        r#""system":"xros""#,
        r#""environment":"unknown""#,
        r#""environment":"macabi""#,
        r#""environment":"sim""#,
        r#""version":[0,0,0]"#,
        r#""version":[65535,255,255]"#,
        r#""flags":[]"#,
        r#""flags":[["has_zca",false],["has_avx",true],["",null]]"#,
        r#""libcalls":{}"#,
        r#""libcalls":{"Memcpy":"copy","X86Pshufb":""}"#,
        r#""system":"ios","version":[17,2,1],"environment":"sim","flags":[["a",true]],"libcalls":{"Memset":"m"},"function_sections":true"#,
    ];
    for options in cases {
        let keys = format!(in alloc; "\"arch\":\"x86_64\",\"format\":\"elf\",{options}")?;
        let part = part_for(alloc, &keys, "")?;
        builds(&rt, alloc, &part, EMPTY_FILE)?;
    }
    Ok(())
}

#[test]
fn the_default_convention_is_that_of_the_parts_own_target(rt: HostRuntime) -> Result<(), Fail> {
    let alloc = rt.alloc();
    for processor in ["x86_64", "aarch64", "riscv64"] {
        let keys = format!(in alloc;
            "\"arch\":\"{processor}\",\"format\":\"elf\",\"system\":\"darwin\""
        )?;
        let part = part_for(
            alloc,
            &keys,
            r#"{"op":"declare_function","name":"f","linkage":"Import"},{"op":"declare_function","name":"f","linkage":"Import","signature":{"call_conv":"AppleAarch64"}}"#,
        )?;
        refuses(
            &rt,
            alloc,
            &part,
            1,
            "part 0 command 1: Function f signature () apple_aarch64 is incompatible with previous declaration () system_v\n",
        )?;
    }
    Ok(())
}

#[test]
fn keys_of_a_target_out_of_form_are_not_understood(rt: HostRuntime) -> Result<(), Fail> {
    let alloc = rt.alloc();
    let cases = [
        r#""arch":"mips","format":"elf""#,
        r#""arch":"X86_64","format":"elf""#,
        r#""arch":"x86_64","format":"ELF""#,
        r#""arch":"x86_64","format":"pe""#,
        r#""arch":62,"format":"elf""#,
        r#""arch":"x86_64""#,
        r#""format":"elf""#,
        r#""arch":"x86_64","format":"elf","system":"Linux""#,
        r#""arch":"x86_64","format":"elf","system":"windows""#,
        r#""arch":"x86_64","format":"elf","system":null"#,
        r#""arch":"x86_64","format":"elf","environment":"Sim""#,
        r#""arch":"x86_64","format":"elf","environment":0"#,
        r#""arch":"x86_64","format":"elf","version":[1,2]"#,
        r#""arch":"x86_64","format":"elf","version":[1,2,3,4]"#,
        r#""arch":"x86_64","format":"elf","version":[]"#,
        r#""arch":"x86_64","format":"elf","version":[65536,0,0]"#,
        r#""arch":"x86_64","format":"elf","version":[0,256,0]"#,
        r#""arch":"x86_64","format":"elf","version":[0,0,256]"#,
        r#""arch":"x86_64","format":"elf","version":[-1,0,0]"#,
        r#""arch":"x86_64","format":"elf","version":[1.0,0,0]"#,
        r#""arch":"x86_64","format":"elf","version":["1",0,0]"#,
        r#""arch":"x86_64","format":"elf","version":"1.0.0""#,
        r#""arch":"x86_64","format":"elf","version":null"#,
        r#""arch":"x86_64","format":"elf","flags":{}"#,
        r#""arch":"x86_64","format":"elf","flags":["a"]"#,
        r#""arch":"x86_64","format":"elf","flags":[[]]"#,
        r#""arch":"x86_64","format":"elf","flags":[["a"]]"#,
        r#""arch":"x86_64","format":"elf","flags":[["a",true,false]]"#,
        r#""arch":"x86_64","format":"elf","flags":[["a",1]]"#,
        r#""arch":"x86_64","format":"elf","flags":[["a","true"]]"#,
        r#""arch":"x86_64","format":"elf","flags":[[true,true]]"#,
        r#""arch":"x86_64","format":"elf","flags":null"#,
        r#""arch":"x86_64","format":"elf","libcalls":{"memcpy":"a"}"#,
        r#""arch":"x86_64","format":"elf","libcalls":{"Memcpy":null}"#,
        r#""arch":"x86_64","format":"elf","libcalls":{"Memcpy":"a","Other":"b"}"#,
        r#""arch":"x86_64","format":"elf","libcalls":[]"#,
        r#""arch":"x86_64","format":"elf","data_sections":1"#,
        r#""arch":"x86_64","format":"elf","cpu":"x""#,
    ];
    for keys in cases {
        let part = part_for(alloc, keys, "")?;
        refuses(&rt, alloc, &part, 6, "input not understood\n")?;
    }
    Ok(())
}

#[test]
fn targets_of_relocations_out_of_form_are_not_understood(rt: HostRuntime) -> Result<(), Fail> {
    let alloc = rt.alloc();
    let cases = [
        r#"{"offset":0,"kind":"Abs8","target":{"user":[0]}}"#,
        r#"{"offset":0,"kind":"Abs8","target":{"user":[0,0,0]}}"#,
        r#"{"offset":0,"kind":"Abs8","target":{"user":[0,4294967296]}}"#,
        r#"{"offset":0,"kind":"Abs8","target":{"user":[4294967296,0]}}"#,
        r#"{"offset":0,"kind":"Abs8","target":{"user":[0,-1]}}"#,
        r#"{"offset":0,"kind":"Abs8","target":{"user":0}}"#,
        r#"{"offset":0,"kind":"Abs8","target":{"libcall":"memcpy"}}"#,
        r#"{"offset":0,"kind":"Abs8","target":{"libcall":0}}"#,
        r#"{"offset":0,"kind":"Abs8","target":{"known":"_tls_index"}}"#,
        r#"{"offset":0,"kind":"Abs8","target":{"known":["CoffTlsIndex"]}}"#,
        r#"{"offset":0,"kind":"Abs8","target":{"label":[0]}}"#,
        r#"{"offset":0,"kind":"Abs8","target":{"label":[0,0,0]}}"#,
        r#"{"offset":0,"kind":"Abs8","target":{"label":[0,4294967296]}}"#,
        r#"{"offset":0,"kind":"Abs8","target":{"label":{"function":0,"offset":0}}}"#,
        r#"{"offset":0,"kind":"Abs8","target":{"label":[0,0],"user":[0,0]}}"#,
        r#"{"offset":0,"kind":"Abs8","target":{"function":0,"libcall":"Memcpy"}}"#,
        r#"{"offset":0,"kind":"Abs8","target":{"name":"f"}}"#,
        r#"{"offset":0,"kind":"Abs8","target":{}}"#,
        r#"{"offset":0,"kind":"abs8","target":{"function":0}}"#,
        r#"{"offset":0,"kind":1,"target":{"function":0}}"#,
    ];
    for relocation in cases {
        let commands = format!(in alloc;
            "{{\"op\":\"declare_function\",\"name\":\"f\",\"linkage\":\"Export\"}},{{\"op\":\"define_function\",\"id\":0,\"bytes\":\"0000000000000000\",\"relocs\":[{relocation}]}}"
        )?;
        let part = part_for(alloc, "\"arch\":\"x86_64\",\"format\":\"elf\"", &commands)?;
        refuses(&rt, alloc, &part, 6, "input not understood\n")?;
    }
    Ok(())
}
