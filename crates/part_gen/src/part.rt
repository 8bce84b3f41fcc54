//! The part that a seed and a count stand for. This project's choice: as many functions as data objects, which refer to
//! one another by draws.

ghost use Rattle.std.specs.Prelude.{◌≡◌, ◌<◌, ◌≤◌, ◌+◌, ◌*◌, ◌++◌, ℕ, length, map, flat_map, IfOk, OnOk};
ghost use Rattle.std.specs.List.{range_with_len};
ghost use Rattle.cranelift_object.specs.Command.{command_view};
ghost use Rattle.part_gen.specs.Draws.{number_after};
ghost use Rattle.part_gen.specs.Generated.{generated, target_triple, function_declared, data_declared, declarations_at, function_defined, data_defined, definitions_at};

use crate::draws::Draws;
use cranelift_module::{
    DataDescription, DataId, FuncId, Linkage, ModuleReloc, ModuleRelocTarget, default_libcall_names,
};
use cranelift_object::{Command, CommandPart};
use ir_core::{
    Architecture, BinaryFormat, CallConv, Environment, Reloc, Signature, System, TargetIsa, Triple,
};
use std::alloc::{AllocError, Global};

/// The part of `n` functions and as many data objects that a seed gives. It needs at least one and at most 100,000 of
/// each; any seed is taken.
pub fn gen_part(alloc: Global, seed: u32, n: u32) -> Result<CommandPart, AllocError>
    requires least { 0 < n }
    requires most { n ≤ 100000 }
    ensures stated { IfOk result (λ part. part ≡ generated seed n) }
    ensures count { IfOk result (λ part. length part.calls ≡ 4 * n) }
{
    let mut commands = Vec::with_capacity(alloc, n as usize * 4)?;
    push_declarations(&mut commands, n)?;
    push_definitions(&mut commands, seed, n)?;
    let names = default_libcall_names(alloc)?;
    let isa = TargetIsa::new(alloc, target_triple());
    let mut part = CommandPart::new(alloc, b"gen.o", isa, names)?;
    part.set_commands(commands);
    Ok(part)
}

fn target_triple() -> Triple
    ensures { result ≡ target_triple }
{
    Triple {
        architecture: Architecture::X86_64,
        binary_format: BinaryFormat::Elf,
        system: System::Unknown,
        version: None,
        environment: Environment::Unknown,
    }
}

// The declarations of all functions and data objects.
fn push_declarations(commands: &mut Vec<Command>, n: u32) -> Result<(), AllocError>
    ensures { OnOk result (map command_view commands.new.items ≡ map command_view commands.old.items ++ flat_map declarations_at (range_with_len 0 n)) }
{
    for k in 0..n {
        push_declarations_of(commands, k)?;
    }
    Ok(())
}

// The declarations of number `k`.
fn push_declarations_of(commands: &mut Vec<Command>, k: u32) -> Result<(), AllocError>
    ensures { OnOk result (map command_view commands.new.items ≡ map command_view commands.old.items ++ declarations_at k) }
{
    let alloc = *commands.allocator();
    commands.push(function_declaration(alloc, k)?)?;
    commands.push(data_declaration(alloc, k)?)?;
    Ok(())
}

fn function_declaration(alloc: Global, k: u32) -> Result<Command, AllocError>
    ensures { IfOk result (λ command. command_view command ≡ function_declared k) }
{
    let name = format!(in alloc; "f{k}")?;
    Ok(Command::DeclareFunction {
        name,
        linkage: Linkage::Export,
        signature: Signature::new(alloc, CallConv::SystemV),
    })
}

fn data_declaration(alloc: Global, k: u32) -> Result<Command, AllocError>
    ensures { IfOk result (λ command. command_view command ≡ data_declared k) }
{
    let name = format!(in alloc; "d{k}")?;
    Ok(Command::DeclareData {
        name,
        linkage: Linkage::Local,
        writable: false,
        tls: false,
    })
}

// The definitions of all functions and data objects.
fn push_definitions(commands: &mut Vec<Command>, seed: u32, n: u32) -> Result<(), AllocError>
    requires { 0 < n }
    ensures { OnOk result (map command_view commands.new.items ≡ map command_view commands.old.items ++ flat_map (definitions_at seed n) (range_with_len 0 n)) }
{
    let mut draws = Draws::new(seed);
    for k in 0..n {
        push_definitions_of(commands, &mut draws, n, k)?;
    }
    Ok(())
}

// The definitions of number `k` among `n`, by the next four draws.
fn push_definitions_of(
    commands: &mut Vec<Command>,
    draws: &mut Draws,
    n: u32,
    k: u32,
) -> Result<(), AllocError>
    requires { 0 < n }
    ensures pushed { (seed : ℕ) → draws.old ≡ number_after seed (4 * k) → OnOk result (map command_view commands.new.items ≡ map command_view commands.old.items ++ definitions_at seed n k) }
    ensures drawn { (seed : ℕ) → draws.old ≡ number_after seed (4 * k) → OnOk result (draws.new ≡ number_after seed (4 * k + 4)) }
{
    let alloc = *commands.allocator();
    let size = 16 + draws.draw() % 16;
    let object = draws.draw() % n;
    commands.push(function_definition(alloc, k, size, object)?)?;
    let byte = draws.draw() % 256;
    let function = draws.draw() % n;
    commands.push(data_definition(alloc, k, byte as u8, function)?)?;
    Ok(())
}

fn function_definition(alloc: Global, k: u32, size: u32, object: u32) -> Result<Command, AllocError>
    ensures { IfOk result (λ command. command_view command ≡ function_defined k size object) }
{
    let target = ModuleRelocTarget::from(DataId::from_u32(object));
    let distance = ModuleReloc {
        offset: 1,
        kind: Reloc::X86PCRel4,
        name: target,
        addend: -4,
    };
    Ok(Command::DefineFunction {
        id: FuncId::from_u32(k),
        align: 16,
        bytes: vec![in alloc; 0x90; size as usize]?,
        relocs: vec![in alloc; distance]?,
    })
}

fn data_definition(alloc: Global, k: u32, byte: u8, function: u32) -> Result<Command, AllocError>
    ensures { IfOk result (λ command. command_view command ≡ data_defined k byte function) }
{
    let mut desc = DataDescription::new(alloc);
    desc.define(vec![in alloc; byte; 16]?);
    desc.set_align(8);
    let target = ModuleRelocTarget::from(FuncId::from_u32(function));
    let reference = desc.import_function(target)?;
    desc.write_function_addr(0, reference)?;
    Ok(Command::DefineData {
        id: DataId::from_u32(k),
        desc,
    })
}
