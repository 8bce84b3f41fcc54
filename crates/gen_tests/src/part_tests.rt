//! The commands of generated parts, by the draws that ISO C's example of `rand` gives for a seed.

use cranelift_module::{DataDescription, Init, ModuleReloc};
use cranelift_object::{Command, CommandPart};
use ir_core::{Architecture, BinaryFormat, LibCall, System};
use part_gen::gen_part;
use std::alloc::{AllocError, Global};
use std::process::Abort;
use std::test::Fail;

/// How many bytes there are, and the one that all of them are.
fn shown_bytes(alloc: Global, bytes: &[u8]) -> Result<String, AllocError> {
    let count = bytes.len();
    match bytes.first() {
        Some(first) if bytes.iter().all(|byte| *byte == *first) => {
            format!(in alloc; "{count} bytes {first}")
        }
        _ => format!(in alloc; "{count} other bytes"),
    }
}

fn shown_relocs(alloc: Global, relocs: &[ModuleReloc]) -> Result<String, AllocError> {
    match relocs {
        [reloc] => {
            let ModuleReloc {
                offset,
                kind,
                name,
                addend,
            } = *reloc;
            format!(in alloc; "{kind} at {offset} to {name} {addend}")
        }
        _ => String::from_str(alloc, "other relocations"),
    }
}

fn shown_init(alloc: Global, init: &Init) -> Result<String, AllocError> {
    match init {
        Init::Bytes { contents } => shown_bytes(alloc, contents),
        _ => String::from_str(alloc, "no bytes"),
    }
}

fn shown_data(alloc: Global, desc: &DataDescription) -> Result<String, AllocError> {
    let init = shown_init(alloc, desc.init())?;
    let align = desc.align().unwrap_or(0);
    let plain = desc.custom_section().is_none() && !desc.used() && desc.data_relocs().is_empty();
    match (desc.function_decls(), desc.function_relocs()) {
        ([name], [(offset, _)]) => {
            format!(in alloc; "align {align} {init} address at {offset} of {name} plain {plain}")
        }
        _ => String::from_str(alloc, "other addresses"),
    }
}

fn shown(alloc: Global, command: &Command) -> Result<String, AllocError> {
    match command {
        Command::DeclareFunction {
            name,
            linkage,
            signature,
        } => format!(in alloc; "{name} {linkage:?} {signature}"),
        Command::DeclareData {
            name,
            linkage,
            writable,
            tls,
        } => format!(in alloc; "{name} {linkage:?} {writable} {tls}"),
        Command::DefineFunction {
            id,
            align,
            bytes,
            relocs,
        } => {
            let contents = shown_bytes(alloc, bytes)?;
            let target = shown_relocs(alloc, relocs)?;
            format!(in alloc; "{id} align {align} {contents} {target}")
        }
        Command::DefineData { id, desc } => {
            let data = shown_data(alloc, desc)?;
            format!(in alloc; "{id} {data}")
        }
        _ => String::from_str(alloc, "an anonymous declaration"),
    }
}

fn has_commands(
    rt: &impl Abort,
    alloc: Global,
    part: &CommandPart,
    expected: &[&str],
) -> Result<(), Fail> {
    assert_eq!(rt; part.commands().len(), expected.len());
    for (command, text) in part.commands().iter().zip(expected) {
        assert_eq!(rt; shown(alloc, command)?.as_str(), *text);
    }
    Ok(())
}

#[test]
fn seed_1_gives_two_functions_and_two_data_objects_by_eight_draws(
    rt: HostRuntime,
) -> Result<(), Fail> {
    let alloc = rt.alloc();
    let part = gen_part(alloc, 1, 2)?;
    has_commands(
        &rt,
        alloc,
        &part,
        &[
            "f0 Export () system_v",
            "d0 Local false false",
            "f1 Export () system_v",
            "d1 Local false false",
            "funcid0 align 16 22 bytes 144 X86PCRel4 at 1 to u1:0 -4",
            "dataid0 align 8 16 bytes 129 address at 0 of u0:1 plain true",
            "funcid1 align 16 27 bytes 144 X86PCRel4 at 1 to u1:1 -4",
            "dataid1 align 8 16 bytes 226 address at 0 of u0:1 plain true",
        ],
    )
}

#[test]
fn a_part_is_an_elf_object_of_the_file_gen_o(rt: HostRuntime) -> Result<(), Fail> {
    let part = gen_part(rt.alloc(), 4_294_967_295, 1)?;
    let triple = *part.isa().triple();
    assert!(rt; triple.architecture == Architecture::X86_64);
    assert!(rt; triple.binary_format == BinaryFormat::Elf);
    assert!(rt; triple.system == System::Unknown && triple.version.is_none());
    assert!(rt; part.isa().flags().is_empty());
    assert!(rt; part.name() == b"gen.o".as_slice());
    assert!(rt; part.libcall_names().get(LibCall::Memcpy) == "memcpy");
    assert!(rt; !part.function_sections() && !part.data_sections());
    Ok(())
}
