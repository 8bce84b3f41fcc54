//! Parts, their files, and what placement gives of them as text.

use cranelift_module::{
    DataDescription, DataId, FuncId, Linkage, ModuleReloc, ModuleRelocTarget, default_libcall_names,
};
use cranelift_object::{Command, CommandPart};
use image_build::{Part, build_image};
use image_place::{DefAddress, Extern, PlacedBytes, place};
use image_view::object_view;
use ir_core::{
    Architecture, BinaryFormat, CallConv, Environment, Reloc, Signature, System, TargetIsa, Triple,
};
use std::alloc::{AllocError, Global};
use std::test::Fail;

/// Declares a function.
pub(crate) fn function(alloc: Global, name: &str, linkage: Linkage) -> Result<Command, AllocError> {
    Ok(Command::DeclareFunction {
        name: String::from_str(alloc, name)?,
        linkage,
        signature: Signature::new(alloc, CallConv::SystemV),
    })
}

/// Declares a data object.
pub(crate) fn data(alloc: Global, name: &str, linkage: Linkage) -> Result<Command, AllocError> {
    Ok(Command::DeclareData {
        name: String::from_str(alloc, name)?,
        linkage,
        writable: true,
        tls: false,
    })
}

/// Defines the function of a number.
pub(crate) fn function_bytes(
    alloc: Global,
    id: u32,
    bytes: &[u8],
    relocs: &[ModuleReloc],
) -> Result<Command, AllocError> {
    Ok(Command::DefineFunction {
        id: FuncId::from_u32(id),
        align: 1,
        bytes: bytes.to_vec(alloc)?,
        relocs: relocs.to_vec(alloc)?,
    })
}

/// Defines the data object of a number, without relocations.
pub(crate) fn data_bytes(alloc: Global, id: u32, bytes: &[u8]) -> Result<Command, AllocError> {
    let mut desc = DataDescription::new(alloc);
    desc.define(bytes.to_vec(alloc)?);
    Ok(Command::DefineData {
        id: DataId::from_u32(id),
        desc,
    })
}

/// A relocation to the function of a number.
pub(crate) fn to_function(offset: u32, kind: Reloc, id: u32, addend: i64) -> ModuleReloc {
    ModuleReloc {
        offset,
        kind,
        name: ModuleRelocTarget::from(FuncId::from_u32(id)),
        addend,
    }
}

/// A relocation to the data object of a number.
pub(crate) fn to_data(offset: u32, kind: Reloc, id: u32, addend: i64) -> ModuleReloc {
    ModuleReloc {
        offset,
        kind,
        name: ModuleRelocTarget::from(DataId::from_u32(id)),
        addend,
    }
}

/// A relocation to a place in the function of a number.
pub(crate) fn to_label(offset: u32, kind: Reloc, id: u32, place: u32) -> ModuleReloc {
    ModuleReloc {
        offset,
        kind,
        name: ModuleRelocTarget::FunctionOffset(FuncId::from_u32(id), place),
        addend: 0,
    }
}

fn isa_of(alloc: Global, binary_format: BinaryFormat) -> TargetIsa {
    let triple = Triple {
        architecture: Architecture::X86_64,
        binary_format,
        system: System::Unknown,
        version: None,
        environment: Environment::Unknown,
    };
    TargetIsa::new(alloc, triple)
}

/// The file of a part with these commands, with sections of their own for functions and data objects or not.
pub(crate) fn file_with(
    alloc: Global,
    format: BinaryFormat,
    function_sections: bool,
    data_sections: bool,
    commands: Vec<Command>,
) -> Result<Vec<u8>, Fail> {
    if commands.len() > 100_000 {
        return Err(Fail::new("too many commands"));
    }
    let names = default_libcall_names(alloc)?;
    let mut part = CommandPart::new(alloc, b"a.o", isa_of(alloc, format), names)?;
    part.set_function_sections(function_sections);
    part.set_data_sections(data_sections);
    part.set_commands(commands);
    Ok(build_image(alloc, &[Part::Commands(part)])?)
}

/// The file of a part with these commands, with both options off.
pub(crate) fn file_of(
    alloc: Global,
    format: BinaryFormat,
    commands: Vec<Command>,
) -> Result<Vec<u8>, Fail> {
    file_with(alloc, format, false, false, commands)
}

/// An address row: image, symbol, address and size.
pub(crate) type Row = (usize, u32, u64, u64);

/// Address rows.
pub(crate) fn rows_of(alloc: Global, rows: &[Row]) -> Result<Vec<DefAddress>, AllocError> {
    let mut all = Vec::new(alloc);
    for (image, symbol, address, size) in rows {
        all.push(DefAddress {
            image: *image,
            symbol: *symbol,
            address: *address,
            size: *size,
        })?;
    }
    Ok(all)
}

/// Names from outside with their addresses.
pub(crate) fn externs_of(
    alloc: Global,
    externs: &[(&str, u64)],
) -> Result<Vec<Extern>, AllocError> {
    let mut all = Vec::new(alloc);
    for (name, address) in externs {
        all.push(Extern {
            name: name.as_bytes().to_vec(alloc)?,
            address: *address,
        })?;
    }
    Ok(all)
}

/// A line for each entry: image, symbol, address and bytes.
pub(crate) fn lines_of(alloc: Global, entries: &[PlacedBytes]) -> Result<String, AllocError> {
    let mut text = String::new(alloc);
    for entry in entries {
        let bytes = hex::encode(alloc, &entry.bytes)?;
        let line = format!(in alloc;
            "{} {} {} {}\n",
            entry.image, entry.symbol, entry.address, bytes
        )?;
        text.push_str(&line)?;
    }
    Ok(text)
}

/// What is placed, where nothing refuses it.
pub(crate) fn entries_of(
    alloc: Global,
    files: &[Vec<u8>],
    addresses: &[DefAddress],
    externs: &[Extern],
) -> Result<Vec<PlacedBytes>, Fail> {
    match place(alloc, files, addresses, externs) {
        Ok(entries) => Ok(entries),
        Err(_) => Err(Fail::new("refused")),
    }
}

/// The lines of what is placed, or the error's text.
pub(crate) fn placed(
    alloc: Global,
    files: &[Vec<u8>],
    rows: &[Row],
    externs: &[(&str, u64)],
) -> Result<String, AllocError> {
    let addresses = rows_of(alloc, rows)?;
    let externs = externs_of(alloc, externs)?;
    match place(alloc, files, &addresses, &externs) {
        Ok(entries) => lines_of(alloc, &entries),
        Err(error) => error.to_string(alloc),
    }
}

/// The row of the symbol of a name in a file.
pub(crate) fn row_named(alloc: Global, file: &[u8], name: &str) -> Result<u32, Fail> {
    let view = object_view(alloc, file)?;
    let mut row: u32 = 0;
    for symbol in view.symbols() {
        if symbol.name == name.as_bytes() {
            return Ok(row);
        }
        row = row.saturating_add(1);
    }
    Err(Fail::new("no symbol of this name"))
}
