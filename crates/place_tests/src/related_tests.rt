//! One part in both formats, with each choice of sections, and split over two images.

use crate::parts::{
    data, data_bytes, entries_of, externs_of, file_of, file_with, function, function_bytes,
    row_named, to_data, to_function,
};
use cranelift_module::{DataDescription, DataId, FuncId, Linkage, ModuleRelocTarget};
use cranelift_object::Command;
use image_place::DefAddress;
use ir_core::{BinaryFormat, Reloc};
use std::alloc::{AllocError, Global};
use std::test::Fail;

/// `leaq msg(%rip), %rdi`, `callq helper`, `callq ext` and `retq`.
const MAIN: &[u8] = b"\x48\x8d\x3d\0\0\0\0\xe8\0\0\0\0\xe8\0\0\0\0\xc3";

/// `nop` and `retq`.
const HELPER: &[u8] = b"\x90\xc3";

/// What stands in memory where `main` is at 0x1000, `helper` at 0x2000, `tab` at 0x3000, `msg` at 0x4000 and `ext` at
/// 0x5000: each relative field has the distance from its end, 0x4000 - 0x1007 for the first.
const MEMORY: &str =
    "main 488d3df92f0000e8f40f0000e8ef3f0000c3\nhelper 90c3\ntab 00100000000000000240000000000000\nmsg 686900\n";

/// A definition: its name, the number of its image, its address and its size.
type Defined<'a> = (&'a str, usize, u64, u64);

/// A table with the address of a function and that of a data object and 2.
fn table(alloc: Global, id: u32, function: u32, object: u32) -> Result<Command, AllocError> {
    let mut desc = DataDescription::new(alloc);
    desc.define(vec![in alloc; 0u8; 16]?);
    let function = desc.import_function(ModuleRelocTarget::from(FuncId::from_u32(function)))?;
    desc.write_function_addr(0, function)?;
    let object = desc.import_global_value(ModuleRelocTarget::from(DataId::from_u32(object)))?;
    desc.write_data_addr(8, object, 2)?;
    Ok(Command::DefineData {
        id: DataId::from_u32(id),
        desc,
    })
}

/// All definitions in one part.
fn whole(alloc: Global) -> Result<Vec<Command>, AllocError> {
    let relocs = [
        to_data(3, Reloc::X86PCRel4, 1, -4),
        to_function(8, Reloc::X86PCRel4, 1, -4),
        to_function(13, Reloc::X86PCRel4, 2, -4),
    ];
    Ok(vec![in alloc;
        function(alloc, "main", Linkage::Export)?,
        function(alloc, "helper", Linkage::Local)?,
        function(alloc, "ext", Linkage::Import)?,
        data(alloc, "tab", Linkage::Export)?,
        data(alloc, "msg", Linkage::Local)?,
        function_bytes(alloc, 0, MAIN, &relocs)?,
        function_bytes(alloc, 1, HELPER, &[])?,
        table(alloc, 0, 0, 1)?,
        data_bytes(alloc, 1, b"hi\0")?,
    ]?)
}

/// `main` alone.
fn front(alloc: Global) -> Result<Vec<Command>, AllocError> {
    let relocs = [
        to_data(3, Reloc::X86PCRel4, 0, -4),
        to_function(8, Reloc::X86PCRel4, 1, -4),
        to_function(13, Reloc::X86PCRel4, 2, -4),
    ];
    Ok(vec![in alloc;
        function(alloc, "main", Linkage::Export)?,
        function(alloc, "helper", Linkage::Import)?,
        function(alloc, "ext", Linkage::Import)?,
        data(alloc, "msg", Linkage::Import)?,
        function_bytes(alloc, 0, MAIN, &relocs)?,
    ]?)
}

/// The others.
fn back(alloc: Global) -> Result<Vec<Command>, AllocError> {
    Ok(vec![in alloc;
        function(alloc, "helper", Linkage::Export)?,
        function(alloc, "main", Linkage::Import)?,
        data(alloc, "tab", Linkage::Export)?,
        data(alloc, "msg", Linkage::Export)?,
        function_bytes(alloc, 0, HELPER, &[])?,
        table(alloc, 0, 1, 1)?,
        data_bytes(alloc, 1, b"hi\0")?,
    ]?)
}

/// A line for each name with its bytes in memory.
fn memory(alloc: Global, files: &[Vec<u8>], names: &[Defined<'_>]) -> Result<String, Fail> {
    let mut rows = Vec::new(alloc);
    for (name, image, address, size) in names {
        let Some(file) = files.get(*image) else {
            return Err(Fail::new("no such image"));
        };
        rows.push(DefAddress {
            image: *image,
            symbol: row_named(alloc, file, name)?,
            address: *address,
            size: *size,
        })?;
    }
    let externs = externs_of(alloc, &[("ext", 0x5000)])?;
    let entries = entries_of(alloc, files, &rows, &externs)?;
    let mut text = String::new(alloc);
    for ((name, _, _, _), row) in names.iter().zip(rows.iter()) {
        for entry in &entries {
            if entry.image == row.image && entry.symbol == row.symbol {
                let bytes = hex::encode(alloc, &entry.bytes)?;
                let line = format!(in alloc; "{name} {bytes}\n")?;
                text.push_str(&line)?;
            }
        }
    }
    Ok(text)
}

/// Where the definitions stand, in images of these numbers.
fn names(of_main: usize, of_others: usize) -> [Defined<'static>; 4] {
    [
        ("main", of_main, 0x1000, 18),
        ("helper", of_others, 0x2000, 2),
        ("tab", of_others, 0x3000, 16),
        ("msg", of_others, 0x4000, 3),
    ]
}

fn each_choice(alloc: Global, format: BinaryFormat) -> Result<usize, Fail> {
    let mut equal: usize = 0;
    for (functions, objects) in [(false, false), (false, true), (true, false), (true, true)] {
        let file = file_with(alloc, format, functions, objects, whole(alloc)?)?;
        let text = memory(alloc, &vec![in alloc; file]?, &names(0, 0))?;
        if text.as_str() == MEMORY {
            equal = equal.saturating_add(1);
        }
    }
    Ok(equal)
}

#[test]
fn each_choice_of_sections_in_each_format_gives_the_same_memory(
    rt: HostRuntime,
) -> Result<(), Fail> {
    let alloc = rt.alloc();
    assert_eq!(rt; each_choice(alloc, BinaryFormat::Elf)?, 4);
    assert_eq!(rt; each_choice(alloc, BinaryFormat::Macho)?, 4);
    Ok(())
}

#[test]
fn a_split_over_two_images_gives_the_same_memory(rt: HostRuntime) -> Result<(), Fail> {
    let alloc = rt.alloc();
    for format in [BinaryFormat::Elf, BinaryFormat::Macho] {
        let first = file_of(alloc, format, front(alloc)?)?;
        let second = file_of(alloc, format, back(alloc)?)?;
        let text = memory(alloc, &vec![in alloc; first, second]?, &names(0, 1))?;
        assert_eq!(rt; text.as_str(), MEMORY);
    }
    Ok(())
}
