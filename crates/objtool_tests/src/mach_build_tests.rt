//! Parts that are built as Mach-O files: their bytes, what Mach-O alone refuses, and what it shares with ELF.

use crate::build_tests::{NONE, words};
use crate::files::is_file;
use crate::limit_tests::data_objects;
use crate::mach_part_files::{AARCH64_FILE, CALL_FILE, EMPTY_FILE, VERSIONED_FILE, X86_64_FILE};
use byte_core::MemHost;
use objtool_run::run;
use std::alloc::{AllocError, Global};
use std::test::Fail;

const EMPTY: &str = r#"[{"name":"a.o","arch":"x86_64","format":"macho","commands":[]}]"#;

const VERSIONED: &str =
    r#"[{"name":"a.o","arch":"x86_64","format":"macho","system":"macosx","version":[11,0,0],"commands":[]}]"#;

/// A call whose field holds other bytes than it stores.
const CALL: &str = r#"[{"name":"a.o","arch":"x86_64","format":"macho","commands":[
    {"op":"declare_function","name":"f","linkage":"Export"},
    {"op":"declare_function","name":"g","linkage":"Import"},
    {"op":"define_function","id":0,"bytes":"e811223344","relocs":[
        {"offset":1,"kind":"X86PCRel4","target":{"function":1},"addend":-4}]}]}]"#;

/// Every kind of x86_64: pointers, addresses that count from the end of their field, a call of the library, a label. Its data
/// is kept, weak, hidden, of zeros, in sections under texts of its own; one function is empty.
const X86_64: &str =
    r#"[{"name":"a.o","arch":"x86_64","format":"macho","system":"ios","version":[14,5,1],"environment":"sim",
    "function_sections":true,"commands":[
    {"op":"declare_function","name":"main","linkage":"Export"},
    {"op":"declare_function","name":"weak","linkage":"Preemptible"},
    {"op":"declare_function","name":"maybe","linkage":"Preemptible"},
    {"op":"declare_function","name":"hidden","linkage":"Hidden"},
    {"op":"declare_data","name":"kept","linkage":"Local","writable":true},
    {"op":"declare_data","name":"table","linkage":"Export"},
    {"op":"declare_data","name":"bytes","linkage":"Local"},
    {"op":"declare_data","name":"zeros","linkage":"Hidden","writable":true},
    {"op":"declare_data","name":"thread","linkage":"Import","tls":true},
    {"op":"declare_anonymous_data"},
    {"op":"declare_data","name":"filled","linkage":"Local"},
    {"op":"define_data","id":3,"zeros":24,"align":16},
    {"op":"define_function","id":0,"align":16,"bytes":"111111112222222222222222333333334444444455555555666666667777777788888888",
        "relocs":[
        {"offset":0,"kind":"Abs4","target":{"data":1},"addend":5},
        {"offset":4,"kind":"Abs8","target":{"function":3},"addend":-9223372036854775808},
        {"offset":12,"kind":"X86PCRel4","target":{"data":0},"addend":2147483643},
        {"offset":16,"kind":"X86CallPCRel4","target":{"function":1},"addend":-4},
        {"offset":20,"kind":"X86CallPLTRel4","target":{"libcall":"Memcpy"},"addend":-4},
        {"offset":24,"kind":"X86GOTPCRel4","target":{"function":2},"addend":-2147483648},
        {"offset":28,"kind":"MachOX86_64Tlv","target":{"data":4},"addend":0},
        {"offset":32,"kind":"X86PCRel4","target":{"label":[3,2]},"addend":-4}]},
    {"op":"define_function","id":1,"bytes":""},
    {"op":"define_function","id":3,"align":8,"bytes":"9090c3"},
    {"op":"define_data","id":0,"bytes":"01020304","used":true},
    {"op":"define_data","id":1,"align":8,"bytes":"00000000000000000000000000000000","functions":[{"function":0}],"data":[{"data":3}],
        "function_addresses":[[8,0]],"data_addresses":[[0,0,-1]]},
    {"op":"define_data","id":2,"bytes":"0a0b0c"},
    {"op":"define_data","id":5,"zeros":3,"section":"__DATA,__own,regular,no_dead_strip+live_support"},
    {"op":"define_data","id":6,"zeros":5,"align":4,"section":"__DATA,__filled,zerofill"}]}]"#;

/// Every kind of aarch64, with the greatest and the least addends.
const AARCH64: &str =
    r#"[{"name":"a.o","arch":"aarch64","format":"macho","system":"darwin","commands":[
    {"op":"declare_function","name":"main","linkage":"Export"},
    {"op":"declare_function","name":"other","linkage":"Import"},
    {"op":"declare_data","name":"table","linkage":"Local","writable":true},
    {"op":"declare_data","name":"thread","linkage":"Import","tls":true},
    {"op":"declare_data","name":"none","linkage":"Local"},
    {"op":"define_function","id":0,"bytes":"0000009400000090000000910000009000004039000000900000403911111111222222222222222200000094000000900000009100000094",
        "relocs":[
        {"offset":0,"kind":"Arm64Call","target":{"function":1},"addend":0},
        {"offset":4,"kind":"Aarch64AdrPrelPgHi21","target":{"data":0},"addend":8388607},
        {"offset":8,"kind":"Aarch64AddAbsLo12Nc","target":{"data":0},"addend":-8388608},
        {"offset":12,"kind":"Aarch64AdrGotPage21","target":{"function":1}},
        {"offset":16,"kind":"Aarch64Ld64GotLo12Nc","target":{"function":1}},
        {"offset":20,"kind":"MachOAarch64TlsAdrPage21","target":{"data":1}},
        {"offset":24,"kind":"MachOAarch64TlsAdrPageOff12","target":{"data":1}},
        {"offset":28,"kind":"Abs4","target":{"data":0},"addend":-2147483648},
        {"offset":32,"kind":"Abs8","target":{"libcall":"Memset"},"addend":9223372036854775807},
        {"offset":40,"kind":"Arm64Call","target":{"label":[0,4]},"addend":-4},
        {"offset":44,"kind":"Aarch64AdrPrelPgHi21","target":{"data":0}},
        {"offset":48,"kind":"Aarch64AddAbsLo12Nc","target":{"data":0},"addend":16},
        {"offset":52,"kind":"Arm64Call","target":{"function":0},"addend":8}]},
    {"op":"define_data","id":0,"bytes":"0102030405","align":16},
    {"op":"define_data","id":2,"bytes":""}]}]"#;

#[test]
fn each_mach_o_part_has_its_file(rt: HostRuntime) -> Result<(), Fail> {
    let alloc = rt.alloc();
    let build = words(alloc, &["build"])?;
    let cases = [
        (EMPTY, EMPTY_FILE),
        (VERSIONED, VERSIONED_FILE),
        (CALL, CALL_FILE),
        (X86_64, X86_64_FILE),
        (AARCH64, AARCH64_FILE),
    ];
    for (text, file) in cases {
        let mut host = MemHost::new(alloc, text.as_bytes(), &[], NONE, 4000)?;
        assert_eq!(rt; run(alloc, &build, &mut host), 0, "{text}");
        assert!(rt; is_file(host.output(), file), "{text}");
        assert_eq!(rt; host.errors().len(), 0, "{text}");
    }
    Ok(())
}

/// A part of these commands for a processor and a format.
fn part_for(alloc: Global, arch: &str, format: &str, commands: &str) -> Result<String, AllocError> {
    format!(in alloc;
        "[{{\"name\":\"a.o\",\"arch\":\"{arch}\",\"format\":\"{format}\",\"commands\":[{commands}]}}]"
    )
}

/// What Mach-O refuses and ELF builds, with the refusal.
const REFUSED: &[(&str, &str, &str)] = &[
    (
        "x86_64",
        r#"{"op":"declare_function","name":"f","linkage":"Export"},{"op":"declare_function","name":"g","linkage":"Import"},
            {"op":"define_function","id":0,"bytes":"e811223344","relocs":[{"offset":1,"kind":"X86PCRel4","target":{"function":1},"addend":2147483647}]}"#,
        "part 0 command 2: Backend error: relocation 0: bad field at 1\n",
    ),
    (
        "aarch64",
        r#"{"op":"declare_function","name":"f","linkage":"Export"},{"op":"declare_function","name":"g","linkage":"Import"},
            {"op":"define_function","id":0,"bytes":"00000094","relocs":[{"offset":0,"kind":"Arm64Call","target":{"function":1},"addend":8388608}]}"#,
        "part 0 command 2: Backend error: relocation 0: bad field at 0\n",
    ),
    (
        "x86_64",
        r#"{"op":"declare_data","name":"d","linkage":"Export"},
            {"op":"define_data","id":0,"bytes":"000000000000000000000000","functions":[],"data":[{"data":0}],"data_addresses":[[0,0,0],[4,0,0]]}"#,
        "part 0 command 1: Backend error: relocation 1: bad field at 4\n",
    ),
    (
        "x86_64",
        r#"{"op":"declare_data","name":"d","linkage":"Export","tls":true},{"op":"define_data","id":0,"bytes":"00"}"#,
        "part 0 command 1: Backend error: thread-local data not allowed here\n",
    ),
    (
        "x86_64",
        r#"{"op":"declare_data","name":"d","linkage":"Export"},{"op":"define_data","id":0,"bytes":"00","section":"__own"}"#,
        "part 0 command 1: Backend error: bad section: no comma\n",
    ),
    (
        "x86_64",
        r#"{"op":"declare_data","name":"d","linkage":"Local"},{"op":"define_data","id":0,"bytes":"00","section":"__DATA,__z,zerofill"}"#,
        "part 0 command 1: Backend error: bytes in a zero-fill section\n",
    ),
];

/// The status of a build, and its fault text.
fn built(alloc: Global, text: &str) -> Result<(u8, Vec<u8>), AllocError> {
    let build = words(alloc, &["build"])?;
    let mut host = MemHost::new(alloc, text.as_bytes(), &[], NONE, 4000)?;
    let status = run(alloc, &build, &mut host);
    Ok((status, host.errors().to_vec(alloc)?))
}

#[test]
fn what_mach_o_alone_refuses_is_built_for_elf(rt: HostRuntime) -> Result<(), Fail> {
    let alloc = rt.alloc();
    for (arch, commands, refusal) in REFUSED {
        let text = part_for(alloc, arch, "macho", commands)?;
        let (status, errors) = built(alloc, &text)?;
        assert_eq!(rt; status, 1, "{commands}");
        assert!(rt; errors.as_slice() == refusal.as_bytes(), "{commands}");
        let text = part_for(alloc, arch, "elf", commands)?;
        let (status, _) = built(alloc, &text)?;
        assert_eq!(rt; status, 0, "{commands}");
    }
    Ok(())
}

/// A Mach-O part of so many bytes of zeros, which its file doesn't have.
fn zeros(alloc: Global, size: u64) -> Result<String, AllocError> {
    let commands = format!(in alloc;
        "{{\"op\":\"declare_data\",\"name\":\"d\",\"linkage\":\"Local\"}},{{\"op\":\"define_data\",\"id\":0,\"zeros\":{size}}}"
    )?;
    part_for(alloc, "x86_64", "macho", &commands)
}

#[test]
fn a_part_that_reaches_a_limit_of_mach_o_names_it(rt: HostRuntime) -> Result<(), Fail> {
    let alloc = rt.alloc();
    let sections = data_objects(alloc, "macho", 256, "__DATA,__own")?;
    let (status, errors) = built(alloc, &sections)?;
    assert_eq!(rt; status, 1);
    assert!(rt; errors.as_slice() == b"part 0 end: too many sections: 256\n".as_slice());
    // Contents count with their alignment, 1 byte here.
    let most = zeros(alloc, 2_147_483_646)?;
    let (status, _) = built(alloc, &most)?;
    assert_eq!(rt; status, 0);
    let more = zeros(alloc, 2_147_483_647)?;
    let (status, errors) = built(alloc, &more)?;
    assert_eq!(rt; status, 1);
    assert!(rt; errors.as_slice() == b"part 0 end: too large contents: 2147483648\n".as_slice());
    Ok(())
}
