//! Refusals in their order.

use crate::parts::{
    Row, file_of, function, function_bytes, placed, row_named, to_function, to_label,
};
use cranelift_module::{Linkage, ModuleReloc};
use ir_core::{BinaryFormat, Reloc};
use std::alloc::{AllocError, Global};
use std::test::Fail;

/// `f` of 24 bytes with some of four relocations: of a kind that is not applied, to `g`, to a label, and to `h`.
fn faulty(alloc: Global, from: usize) -> Result<Vec<u8>, Fail> {
    let relocs = [
        to_function(0, Reloc::X86CallPLTRel4, 1, -4),
        to_function(4, Reloc::X86PCRel4, 1, -4),
        to_label(8, Reloc::Abs8, 0, 100),
        to_function(16, Reloc::Abs4, 2, 0),
    ];
    let mut kept: Vec<ModuleReloc> = Vec::new(alloc);
    for (number, reloc) in relocs.iter().enumerate() {
        if number >= from {
            kept.push(*reloc)?;
        }
    }
    let commands = vec![in alloc;
        function(alloc, "f", Linkage::Export)?,
        function(alloc, "g", Linkage::Import)?,
        function(alloc, "h", Linkage::Import)?,
        function_bytes(
            alloc,
            0,
            b"\0\0\0\0\0\0\0\0\0\0\0\0\0\0\0\0\0\0\0\0\0\0\0\0",
            &kept
        )?,
    ]?;
    file_of(alloc, BinaryFormat::Elf, commands)
}

/// One function of one byte.
fn plain(alloc: Global, format: BinaryFormat, name: &str) -> Result<Vec<u8>, Fail> {
    let commands = vec![in alloc;
        function(alloc, name, Linkage::Export)?,
        function_bytes(alloc, 0, b"\xc3", &[])?,
    ]?;
    file_of(alloc, format, commands)
}

fn told(alloc: Global, files: &[&[u8]], rows: &[Row]) -> Result<String, AllocError> {
    let mut images = Vec::new(alloc);
    for file in files {
        images.push(file.to_vec(alloc)?)?;
    }
    placed(alloc, &images, rows, &[("h", 0x1_0000_0000)])
}

#[test]
fn each_fault_comes_in_its_turn(rt: HostRuntime) -> Result<(), Fail> {
    let alloc = rt.alloc();
    let first = faulty(alloc, 0)?;
    let same = plain(alloc, BinaryFormat::Elf, "f")?;
    let other = plain(alloc, BinaryFormat::Elf, "k")?;
    let mach = plain(alloc, BinaryFormat::Macho, "k")?;
    let text = told(alloc, &[&first, &same, &mach, b""], &[])?;
    assert_eq!(rt; text.as_str(), "image 2: no reading");
    let text = told(alloc, &[b"\x7fELF", &mach], &[])?;
    assert_eq!(rt; text.as_str(), "image 0: no reading");
    let text = told(alloc, &[&first, &other, &same], &[])?;
    assert_eq!(rt; text.as_str(), "image 2 symbol 2: defined twice");
    let f = row_named(alloc, &first, "f")?;
    let text = told(alloc, &[&first, &other], &[(1, 2, 1, 1)])?;
    let wanted = format!(in alloc; "image 0 symbol {f}: no address")?;
    assert_eq!(rt; text.as_str(), wanted.as_str());
    let text = told(alloc, &[&first, &other], &[(0, f, 4096, 24)])?;
    assert_eq!(rt; text.as_str(), "image 1 symbol 2: no address");
    let text = told(alloc, &[&first, &other], &[(0, f, 4096, 24), (1, 2, 1, 1)])?;
    assert_eq!(rt; text.as_str(), "image 0 kind 4: not applied");
    Ok(())
}

/// What is told of the relocations from a number on, behind an image without any.
fn told_from(alloc: Global, from: usize, size: u64, address: u64) -> Result<String, Fail> {
    let file = faulty(alloc, from)?;
    let before = plain(alloc, BinaryFormat::Elf, "k")?;
    let f = row_named(alloc, &file, "f")?;
    Ok(told(
        alloc,
        &[&before, &file],
        &[(0, 2, 8, 1), (1, f, address, size)],
    )?)
}

/// A refusal that keeps the row of a symbol.
fn of_symbol(alloc: Global, from: usize, name: &str, why: &str) -> Result<String, Fail> {
    let file = faulty(alloc, from)?;
    let row = row_named(alloc, &file, name)?;
    Ok(format!(in alloc; "image 1 symbol {row}: {why}")?)
}

#[test]
fn relocations_are_judged_in_their_order(rt: HostRuntime) -> Result<(), Fail> {
    let alloc = rt.alloc();
    let text = told_from(alloc, 0, 24, 4096)?;
    assert_eq!(rt; text.as_str(), "image 1 kind 4: not applied");
    let text = told_from(alloc, 1, 24, 4096)?;
    let wanted = of_symbol(alloc, 1, "g", "no address")?;
    assert_eq!(rt; text.as_str(), wanted.as_str());
    let text = told_from(alloc, 2, 24, 4096)?;
    let wanted = of_symbol(alloc, 2, ".L0_100", "loose label")?;
    assert_eq!(rt; text.as_str(), wanted.as_str());
    let text = told_from(alloc, 3, 24, 4096)?;
    assert_eq!(rt; text.as_str(), "image 1 offset 16: does not fit");
    let text = told_from(alloc, 4, 24, 4096)?;
    assert_eq!(rt;
        text.as_str(),
        "0 2 8 c3\n1 2 4096 000000000000000000000000000000000000000000000000\n"
    );
    Ok(())
}

#[test]
fn a_range_that_leaves_its_section_or_the_memory_has_no_address(
    rt: HostRuntime,
) -> Result<(), Fail> {
    let alloc = rt.alloc();
    let wanted = of_symbol(alloc, 4, "f", "no address")?;
    let text = told_from(alloc, 4, 25, 4096)?;
    assert_eq!(rt; text.as_str(), wanted.as_str());
    let text = told_from(alloc, 4, 24, 0xffff_ffff_ffff_ffe8)?;
    assert_eq!(rt; text.as_str(), wanted.as_str());
    let text = told_from(alloc, 4, 24, 0xffff_ffff_ffff_ffe7)?;
    assert_eq!(rt;
        text.as_str(),
        "0 2 8 c3\n1 2 18446744073709551591 000000000000000000000000000000000000000000000000\n"
    );
    let text = told_from(alloc, 3, 19, 4096)?;
    let wanted = of_symbol(alloc, 3, "h", "no address")?;
    assert_eq!(rt; text.as_str(), wanted.as_str());
    Ok(())
}
