//! Two parts, where one calls a function of the other.

use crate::parts::{file_of, function, function_bytes, placed, to_function};
use cranelift_module::Linkage;
use ir_core::{BinaryFormat, Reloc};
use std::alloc::Global;
use std::test::Fail;

/// `main` calls `g`, which another part has.
fn caller(alloc: Global, format: BinaryFormat) -> Result<Vec<u8>, Fail> {
    let call = to_function(1, Reloc::X86PCRel4, 1, -4);
    let commands = vec![in alloc;
        function(alloc, "main", Linkage::Export)?,
        function(alloc, "g", Linkage::Import)?,
        function_bytes(alloc, 0, b"\xe8\0\0\0\0", &[call])?,
    ]?;
    file_of(alloc, format, commands)
}

/// One function of one byte.
fn callee(
    alloc: Global,
    format: BinaryFormat,
    name: &str,
    linkage: Linkage,
) -> Result<Vec<u8>, Fail> {
    let commands = vec![in alloc;
        function(alloc, name, linkage)?,
        function_bytes(alloc, 0, b"\xc3", &[])?,
    ]?;
    file_of(alloc, format, commands)
}

fn pair(
    alloc: Global,
    format: BinaryFormat,
    name: &str,
    linkage: Linkage,
) -> Result<Vec<Vec<u8>>, Fail> {
    let first = caller(alloc, format)?;
    let second = callee(alloc, format, name, linkage)?;
    Ok(vec![in alloc; first, second]?)
}

#[test]
fn a_call_into_another_image_is_bound(rt: HostRuntime) -> Result<(), Fail> {
    let alloc = rt.alloc();
    let elf = pair(alloc, BinaryFormat::Elf, "g", Linkage::Export)?;
    let text = placed(alloc, &elf, &[(0, 2, 4096, 5), (1, 2, 8192, 1)], &[])?;
    assert_eq!(rt; text.as_str(), "0 2 4096 e8fb0f0000\n1 2 8192 c3\n");
    let mach = pair(alloc, BinaryFormat::Macho, "g", Linkage::Export)?;
    let text = placed(alloc, &mach, &[(0, 0, 4096, 5), (1, 0, 8192, 1)], &[])?;
    assert_eq!(rt; text.as_str(), "0 0 4096 e8fb0f0000\n1 0 8192 c3\n");
    Ok(())
}

#[test]
fn a_local_definition_binds_nothing(rt: HostRuntime) -> Result<(), Fail> {
    let alloc = rt.alloc();
    let rows = [(0, 2, 4096, 5), (1, 2, 8192, 1)];
    let elf = pair(alloc, BinaryFormat::Elf, "g", Linkage::Local)?;
    let text = placed(alloc, &elf, &rows, &[])?;
    assert_eq!(rt; text.as_str(), "image 0 symbol 3: no address");
    let text = placed(alloc, &elf, &rows, &[("f", 1), ("g", 8192), ("g", 0)])?;
    assert_eq!(rt; text.as_str(), "0 2 4096 e8fb0f0000\n1 2 8192 c3\n");
    Ok(())
}

#[test]
fn an_address_that_is_missing_and_a_name_twice_are_told(rt: HostRuntime) -> Result<(), Fail> {
    let alloc = rt.alloc();
    let elf = pair(alloc, BinaryFormat::Elf, "g", Linkage::Export)?;
    let text = placed(alloc, &elf, &[(0, 2, 4096, 5)], &[])?;
    assert_eq!(rt; text.as_str(), "image 1 symbol 2: no address");
    let twice = pair(alloc, BinaryFormat::Elf, "main", Linkage::Export)?;
    let text = placed(alloc, &twice, &[(0, 2, 4096, 5), (1, 2, 8192, 1)], &[])?;
    assert_eq!(rt; text.as_str(), "image 1 symbol 2: defined twice");
    Ok(())
}

#[test]
fn a_distance_past_31_bits_does_not_fit(rt: HostRuntime) -> Result<(), Fail> {
    let alloc = rt.alloc();
    let elf = pair(alloc, BinaryFormat::Elf, "g", Linkage::Export)?;
    let far = 4096 + 5 + 0x7fff_ffff;
    let text = placed(alloc, &elf, &[(0, 2, 4096, 5), (1, 2, far, 1)], &[])?;
    assert_eq!(rt; text.as_str(), "0 2 4096 e8ffffff7f\n1 2 2147487748 c3\n");
    let text = placed(alloc, &elf, &[(0, 2, 4096, 5), (1, 2, far + 1, 1)], &[])?;
    assert_eq!(rt; text.as_str(), "image 0 offset 1: does not fit");
    let text = placed(
        alloc,
        &elf,
        &[(0, 2, 4096, 5), (1, 2, 4_294_967_296, 1)],
        &[],
    )?;
    assert_eq!(rt; text.as_str(), "image 0 offset 1: does not fit");
    Ok(())
}
