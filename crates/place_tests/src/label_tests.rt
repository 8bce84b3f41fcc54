//! Labels: places in functions.

use crate::parts::{file_of, function, function_bytes, placed, row_named, to_label};
use cranelift_module::Linkage;
use ir_core::{BinaryFormat, Reloc};
use std::alloc::Global;
use std::test::Fail;

/// `f` and `g` of 8 bytes each, one behind the other; `f` has the address of the place in `f` that is told.
fn file(alloc: Global, format: BinaryFormat, place: u32) -> Result<Vec<u8>, Fail> {
    let commands = vec![in alloc;
        function(alloc, "f", Linkage::Export)?,
        function(alloc, "g", Linkage::Export)?,
        function_bytes(
            alloc,
            0,
            b"\0\0\0\0\0\0\0\0",
            &[to_label(0, Reloc::Abs8, 0, place)]
        )?,
        function_bytes(alloc, 1, b"\x90\x90\x90\x90\x90\x90\x90\xc3", &[])?,
    ]?;
    file_of(alloc, format, commands)
}

/// What is placed with `f` at 0x1000 and `g` at 0x9000.
fn shown(alloc: Global, format: BinaryFormat, place: u32) -> Result<String, Fail> {
    let file = file(alloc, format, place)?;
    let f = row_named(alloc, &file, "f")?;
    let g = row_named(alloc, &file, "g")?;
    let files = vec![in alloc; file]?;
    Ok(placed(alloc, &files, &[(0, g, 0x9000, 8), (0, f, 0x1000, 8)], &[])?)
}

#[test]
fn a_label_is_bound_to_the_definition_that_holds_it(rt: HostRuntime) -> Result<(), Fail> {
    let alloc = rt.alloc();
    for (place, bytes) in [
        (0, "0010000000000000"),
        (7, "0710000000000000"),
        (8, "0090000000000000"),
        (15, "0790000000000000"),
    ] {
        let text = format!(in alloc; "0 3 4096 {bytes}\n0 4 36864 90909090909090c3\n")?;
        assert_eq!(rt;
            shown(alloc, BinaryFormat::Elf, place)?.as_str(),
            text.as_str()
        );
        let text = format!(in alloc; "0 1 4096 {bytes}\n0 2 36864 90909090909090c3\n")?;
        assert_eq!(rt;
            shown(alloc, BinaryFormat::Macho, place)?.as_str(),
            text.as_str()
        );
    }
    Ok(())
}

#[test]
fn a_label_past_all_definitions_is_loose(rt: HostRuntime) -> Result<(), Fail> {
    let alloc = rt.alloc();
    let elf = shown(alloc, BinaryFormat::Elf, 16)?;
    assert_eq!(rt; elf.as_str(), "image 0 symbol 2: loose label");
    let mach = shown(alloc, BinaryFormat::Macho, 100)?;
    assert_eq!(rt; mach.as_str(), "image 0 symbol 0: loose label");
    Ok(())
}
