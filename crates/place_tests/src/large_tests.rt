//! Many definitions and relocations.

use crate::parts::{
    entries_of, externs_of, file_of, function, function_bytes, rows_of, to_function,
};
use cranelift_module::Linkage;
use ir_core::{BinaryFormat, Reloc};
use std::alloc::Global;
use std::test::Fail;

/// How many functions there are.
const COUNT: u32 = 20_000;

/// So many functions of 5 bytes, each with one call; the calls go in turn to 20 names from outside.
fn file(alloc: Global) -> Result<Vec<u8>, Fail> {
    let mut commands = Vec::new(alloc);
    for number in 0..20u32 {
        let name = format!(in alloc; "external{number}")?;
        commands.push(function(alloc, &name, Linkage::Import)?)?;
    }
    for number in 0..COUNT {
        let name = format!(in alloc; "f{number}")?;
        commands.push(function(alloc, &name, Linkage::Export)?)?;
    }
    for number in 0..COUNT {
        let call = to_function(1, Reloc::X86PCRel4, number % 20, -4);
        let id = number.saturating_add(20);
        commands.push(function_bytes(alloc, id, b"\xe8\0\0\0\0", &[call])?)?;
    }
    file_of(alloc, BinaryFormat::Elf, commands)
}

#[test]
fn twenty_thousand_definitions_are_placed(rt: HostRuntime) -> Result<(), Fail> {
    let alloc = rt.alloc();
    let files = vec![in alloc; file(alloc)?]?;
    let mut rows = Vec::new(alloc);
    for number in 0..COUNT {
        let address = u64::from(number).saturating_mul(8);
        rows.push((0, number.saturating_add(22), address, 5))?;
    }
    let mut externs = Vec::new(alloc);
    for name in [
        "external0",
        "external1",
        "external2",
        "external3",
        "external4",
        "external5",
        "external6",
        "external7",
        "external8",
        "external9",
        "external10",
        "external11",
        "external12",
        "external13",
        "external14",
        "external15",
        "external16",
        "external17",
        "external18",
        "external19",
    ] {
        externs.push((name, 0x10_0000))?;
    }
    let addresses = rows_of(alloc, &rows)?;
    let externs = externs_of(alloc, &externs)?;
    let entries = entries_of(alloc, &files, &addresses, &externs)?;
    assert_eq!(rt; entries.len(), 20_000);
    for (entry, distance) in [
        (0, b"\xe8\xfb\xff\x0f\x00"),
        (19_999, b"\xe8\x03\x8f\x0d\x00"),
    ] {
        match entries.get(entry) {
            Some(entry) => assert_eq!(rt; entry.bytes.as_slice(), distance.as_slice()),
            None => return Err(Fail::new("too few entries")),
        }
    }
    Ok(())
}
