use cranelift_module::{
    BackendCause, DataId, FuncId, FuncOrDataId, ModuleError, ModuleRelocTarget, SectionFault,
    VERSION, default_libcall_names,
};
use ir_core::{KnownSymbol, LibCall, Reloc};
use std::alloc::Global;
use std::process::Abort;
use std::test::Fail;

pub(crate) fn prints(
    rt: &impl Abort,
    alloc: Global,
    error: &ModuleError,
    expected: &str,
) -> Result<(), Fail> {
    assert_eq!(rt; error.to_string(alloc)?.as_str(), expected);
    Ok(())
}

#[test]
fn an_error_prints_its_name_and_both_marks(rt: HostRuntime) -> Result<(), Fail> {
    let alloc = rt.alloc();
    let undeclared = ModuleError::Undeclared(String::from_str(alloc, "u0:7")?);
    prints(&rt, alloc, &undeclared, "Undeclared identifier: u0:7")?;
    let marks = ModuleError::IncompatibleDataTls(String::from_str(alloc, "d")?, false, true);
    prints(
        &rt,
        alloc,
        &marks,
        "Data object d TLS true is incompatible with previous declaration TLS false",
    )?;
    prints(
        &rt,
        alloc,
        &ModuleError::Allocation,
        "Allocation error: out of memory",
    )
}

#[test]
fn a_cause_of_a_back_end_prints_its_numbers(rt: HostRuntime) -> Result<(), Fail> {
    let alloc = rt.alloc();
    let cases = [
        (
            BackendCause::NulByte { position: 3 },
            "Backend error: zero byte at 3",
        ),
        (
            BackendCause::BadSection(SectionFault::SegmentLong),
            "Backend error: bad section: segment name longer than 16 bytes",
        ),
        (
            BackendCause::BadAlign { align: 3 },
            "Backend error: bad alignment 3",
        ),
        (
            BackendCause::UnsupportedReloc {
                index: 2,
                kind: Reloc::X86SecRel,
            },
            "Backend error: relocation 2: kind X86SecRel not supported",
        ),
        (
            BackendCause::BadReloc {
                index: 0,
                offset: 1,
            },
            "Backend error: relocation 0: bad field at 1",
        ),
        (
            BackendCause::ZerofillBytes,
            "Backend error: bytes in a zero-fill section",
        ),
    ];
    for (cause, expected) in &cases {
        prints(&rt, alloc, &ModuleError::Backend(*cause), expected)?;
    }
    Ok(())
}

#[test]
fn identifiers_and_targets_print_as_the_linker_log_shows_them(rt: HostRuntime) -> Result<(), Fail> {
    let alloc = rt.alloc();
    let function = FuncId::from_u32(7);
    assert_eq!(rt; function.to_string(alloc)?.as_str(), "funcid7");
    assert_eq!(rt; DataId::from_u32(0).to_string(alloc)?.as_str(), "dataid0");
    let cases = [
        (ModuleRelocTarget::from(function), "u0:7"),
        (ModuleRelocTarget::from(DataId::from_u32(3)), "u1:3"),
        (
            ModuleRelocTarget::from(FuncOrDataId::Data(DataId::from_u32(4294967295))),
            "u1:4294967295",
        ),
        (ModuleRelocTarget::LibCall(LibCall::Memcpy), "%Memcpy"),
        (
            ModuleRelocTarget::KnownSymbol(KnownSymbol::CoffTlsIndex),
            "CoffTlsIndex",
        ),
        (ModuleRelocTarget::FunctionOffset(function, 4), "funcid7+4"),
    ];
    for (target, expected) in &cases {
        assert_eq!(rt; target.to_string(alloc)?.as_str(), *expected);
    }
    Ok(())
}

#[test]
fn library_calls_have_the_names_of_the_c_library(rt: HostRuntime) -> Result<(), Fail> {
    let names = default_libcall_names(rt.alloc())?;
    let rows = [
        (LibCall::Probestack, "__cranelift_probestack"),
        (LibCall::CeilF32, "ceilf"),
        (LibCall::CeilF64, "ceil"),
        (LibCall::FloorF32, "floorf"),
        (LibCall::FloorF64, "floor"),
        (LibCall::TruncF32, "truncf"),
        (LibCall::TruncF64, "trunc"),
        (LibCall::NearestF32, "nearbyintf"),
        (LibCall::NearestF64, "nearbyint"),
        (LibCall::FmaF32, "fmaf"),
        (LibCall::FmaF64, "fma"),
        (LibCall::Memcpy, "memcpy"),
        (LibCall::Memset, "memset"),
        (LibCall::Memmove, "memmove"),
        (LibCall::Memcmp, "memcmp"),
        (LibCall::ElfTlsGetAddr, "__tls_get_addr"),
        (LibCall::ElfTlsGetOffset, "__tls_get_offset"),
        (LibCall::X86Pshufb, "__cranelift_x86_pshufb"),
    ];
    for (call, text) in &rows {
        assert_eq!(rt; names.get(*call), *text);
    }
    assert_eq!(rt; names.texts().len(), rows.len());
    Ok(())
}

#[test]
fn a_library_call_gets_another_text_and_the_others_keep_theirs(
    rt: HostRuntime,
) -> Result<(), Fail> {
    let mut names = default_libcall_names(rt.alloc())?;
    names.set(LibCall::Memcpy, "my_copy")?;
    names.set(LibCall::Probestack, "")?;
    let copy = names.copy()?;
    names.set(LibCall::X86Pshufb, "shuffle")?;
    assert_eq!(rt; names.get(LibCall::X86Pshufb), "shuffle");
    assert_eq!(rt; copy.get(LibCall::X86Pshufb), "__cranelift_x86_pshufb");
    for told in [&names, &copy] {
        assert_eq!(rt; told.get(LibCall::Probestack), "");
        assert_eq!(rt; told.get(LibCall::CeilF32), "ceilf");
        assert_eq!(rt; told.get(LibCall::FmaF64), "fma");
        assert_eq!(rt; told.get(LibCall::Memcpy), "my_copy");
        assert_eq!(rt; told.get(LibCall::Memset), "memset");
        assert_eq!(rt; told.get(LibCall::ElfTlsGetOffset), "__tls_get_offset");
    }
    Ok(())
}

#[test]
fn the_version_is_that_of_the_carried_crate(rt: HostRuntime) -> Result<(), Fail> {
    assert_eq!(rt; VERSION, "0.137.1");
    Ok(())
}
