ghost use Rattle.std.specs.Prelude.{◌≡◌, ◌≤◌, ◌<◌, ◌+◌, [], false, length, IfOk};

use cranelift_module::{
    DataDescription, DataId, FuncId, FuncOrDataId, Linkage, Module, ModuleError, ModuleReloc,
    ModuleRelocTarget, ModuleResult, default_libcall_names,
};
use cranelift_object::{Command, CommandPart, ObjectBuilder, ObjectModule, VERSION, apply};
use ir_core::{
    Architecture, BinaryFormat, CallConv, Environment, FuncRef, Function, LibCall, Reloc,
    Signature, System, TargetIsa, Triple,
};
use std::alloc::{AllocError, Global};
use std::process::Abort;
use std::test::Fail;

fn target(alloc: Global, architecture: Architecture) -> TargetIsa {
    let triple = Triple {
        architecture,
        binary_format: BinaryFormat::Elf,
        system: System::Linux,
        version: None,
        environment: Environment::Unknown,
    };
    TargetIsa::new(alloc, triple)
}

fn begun(
    alloc: Global,
    name: &[u8],
    architecture: Architecture,
) -> Result<ObjectBuilder, ModuleError> {
    let names = default_libcall_names(alloc)?;
    ObjectBuilder::new(alloc, target(alloc, architecture), name, names)
}

#[tactic(auto, unfolding(cranelift_module::specs::LinkState::state_of, cranelift_module::specs::Rows::functions_of, cranelift_module::specs::Rows::objects_of, ir_core::specs::Moments::moments))]
fn opened(alloc: Global) -> Result<ObjectModule, ModuleError>
    ensures functions { IfOk result (λ m. m.state.functions ≡ []) }
    ensures objects { IfOk result (λ m. m.state.objects ≡ []) }
{
    let builder = begun(alloc, b"a.o", Architecture::X86_64)?;
    ObjectModule::new(builder)
}

#[tactic(auto, using(cranelift_object::proofs::ApplyLaws::call_functions, cranelift_object::proofs::ApplyLaws::call_objects, cranelift_object::proofs::ApplyLaws::place_below))]
fn declare(
    module: &mut ObjectModule,
    alloc: Global,
    name: &str,
    linkage: Linkage,
) -> ModuleResult<FuncId>
    requires { length (module.old).state.functions < 100 }
    ensures functions { length (module.new).state.functions ≤ length (module.old).state.functions + 1 }
    ensures objects { length (module.new).state.objects ≤ length (module.old).state.objects + 1 }
    ensures declared { IfOk result (λ id. id < length (module.new).state.functions) }
{
    let signature = module.make_signature(alloc);
    module.declare_function(name, linkage, &signature)
}

#[tactic(auto, using(cranelift_object::proofs::ApplyLaws::call_functions, cranelift_object::proofs::ApplyLaws::call_objects, cranelift_object::proofs::ApplyLaws::place_below))]
fn declare_data(module: &mut ObjectModule, name: &str, tls: bool) -> ModuleResult<DataId>
    requires { length (module.old).state.objects < 100 }
    ensures functions { length (module.new).state.functions ≤ length (module.old).state.functions + 1 }
    ensures objects { length (module.new).state.objects ≤ length (module.old).state.objects + 1 }
    ensures declared { IfOk result (λ id. id < length (module.new).state.objects) }
{
    module.declare_data(name, Linkage::Import, true, tls)
}

#[tactic(auto, using(cranelift_object::proofs::ApplyLaws::call_functions, cranelift_object::proofs::ApplyLaws::call_objects))]
fn define(
    module: &mut ObjectModule,
    id: FuncId,
    bytes: &[u8],
    relocs: &[ModuleReloc],
) -> ModuleResult<()>
    ensures functions { length (module.new).state.functions ≤ length (module.old).state.functions + 1 }
    ensures objects { length (module.new).state.objects ≤ length (module.old).state.objects + 1 }
{
    module.define_function_bytes(id, 1, bytes, relocs)
}

fn prints(rt: &impl Abort, alloc: Global, error: &ModuleError, expected: &str) -> Result<(), Fail> {
    assert_eq!(rt; error.to_string(alloc)?.as_str(), expected);
    Ok(())
}

#[test]
fn an_exported_function_has_a_file_of_592_bytes(rt: HostRuntime) -> Result<(), Fail> {
    let alloc = rt.alloc();
    let mut module = opened(alloc)?;
    let main = declare(&mut module, alloc, "main", Linkage::Export)?;
    define(&mut module, main, b"\xc3", &[])?;
    let product = module.finish()?;
    assert_eq!(rt; product.functions().len(), 1);
    assert_eq!(rt; product.emit(alloc)?.len(), 592);
    Ok(())
}

#[test]
fn a_library_call_adds_an_undefined_symbol(rt: HostRuntime) -> Result<(), Fail> {
    let alloc = rt.alloc();
    let mut module = opened(alloc)?;
    let caller = declare(&mut module, alloc, "f", Linkage::Export)?;
    let call = ModuleReloc {
        offset: 1,
        kind: Reloc::X86CallPLTRel4,
        name: ModuleRelocTarget::LibCall(LibCall::Memcpy),
        addend: -4,
    };
    define(&mut module, caller, b"\xe8\0\0\0\0", &[call])?;
    let product = module.finish()?;
    assert_eq!(rt; product.functions().len(), 1);
    assert_eq!(rt; product.object().symbols().len(), 3);
    assert_eq!(rt; product.emit(alloc)?.len(), 720);
    Ok(())
}

#[test]
fn a_processor_that_is_not_built_is_unsupported(rt: HostRuntime) -> Result<(), Fail> {
    let alloc = rt.alloc();
    match begun(alloc, b"a.o", Architecture::S390x) {
        Ok(_) => Err(Fail::from("a processor was taken")),
        Err(error) => prints(&rt, alloc, &error, "Backend error: unsupported target"),
    }
}

fn declaration(alloc: Global, name: &str) -> Result<Command, AllocError> {
    Ok(Command::DeclareFunction {
        name: String::from_str(alloc, name)?,
        linkage: Linkage::Import,
        signature: Signature::new(alloc, CallConv::SystemV),
    })
}

fn apply_two(
    module: &mut ObjectModule,
    first: Command,
    second: Command,
) -> Result<(), (usize, ModuleError)>
    requires functions { length (module.old).state.functions < 100 }
    requires objects { length (module.old).state.objects < 100 }
{
    apply(module, &[first, second])
}

#[test]
fn apply_names_the_first_refused_command(rt: HostRuntime) -> Result<(), Fail> {
    let alloc = rt.alloc();
    let mut module = opened(alloc)?;
    let taken = declaration(alloc, "f")?;
    let refused = declaration(alloc, "a\0b")?;
    match apply_two(&mut module, taken, refused) {
        Ok(()) => return Err(Fail::from("a command was taken")),
        Err((number, error)) => {
            assert_eq!(rt; number, 1);
            prints(&rt, alloc, &error, "Backend error: zero byte at 1")?;
        }
    }
    let f = FuncOrDataId::Func(FuncId::from_u32(0));
    assert_eq!(rt; module.get_name("f"), Some(f));
    Ok(())
}

#[test]
fn apply_makes_all_calls(rt: HostRuntime) -> Result<(), Fail> {
    let alloc = rt.alloc();
    let mut module = opened(alloc)?;
    let first = declaration(alloc, "f")?;
    let second = declaration(alloc, "g")?;
    assert!(rt; apply_two(&mut module, first, second).is_ok());
    let g = FuncOrDataId::Func(FuncId::from_u32(1));
    assert_eq!(rt; module.get_name("g"), Some(g));
    Ok(())
}

// Imports a declared function into another one.
fn import(module: &mut ObjectModule, id: FuncId, function: &mut Function) -> ModuleResult<FuncRef>
    requires declared { id < length (module.old).state.functions }
    requires names { length (function.old).lists.user_named_funcs < 100 }
    requires signatures { length (function.old).lists.signatures < 100 }
    requires functions { length (function.old).lists.ext_funcs < 100 }
    ensures state { (module.new).state ≡ (module.old).state }
    ensures names { length (function.new).lists.user_named_funcs ≤ length (function.old).lists.user_named_funcs + 1 }
    ensures signatures { length (function.new).lists.signatures ≤ length (function.old).lists.signatures + 1 }
    ensures functions { length (function.new).lists.ext_funcs ≤ length (function.old).lists.ext_funcs + 1 }
{
    module.declare_func_in_func(id, function)
}

#[test]
fn two_imports_of_a_function_have_one_user_name(rt: HostRuntime) -> Result<(), Fail> {
    let alloc = rt.alloc();
    let mut module = opened(alloc)?;
    let f = declare(&mut module, alloc, "f", Linkage::Export)?;
    let mut function = Function::new(alloc);
    let first = import(&mut module, f, &mut function)?;
    let second = import(&mut module, f, &mut function)?;
    assert_eq!(rt; first.to_string(alloc)?.as_str(), "fn0");
    assert_eq!(rt; second.to_string(alloc)?.as_str(), "fn1");
    assert_eq!(rt; function.user_named_funcs().len(), 1);
    assert_eq!(rt; function.signatures().len(), 2);
    for callee in function.ext_funcs() {
        assert!(rt; callee.colocated && !callee.patchable);
    }
    Ok(())
}

#[test]
fn an_import_of_data_has_the_marks_of_its_declaration(rt: HostRuntime) -> Result<(), Fail> {
    let alloc = rt.alloc();
    let mut module = opened(alloc)?;
    let errno = declare_data(&mut module, "errno", true)?;
    let mut function = Function::new(alloc);
    let value = module.declare_data_in_func(errno, &mut function)?;
    assert_eq!(rt; value.to_string(alloc)?.as_str(), "gv0");
    for value in function.global_values() {
        assert!(rt; !value.colocated && value.tls && value.offset == 0);
    }
    for name in function.user_named_funcs() {
        assert_eq!(rt; name.namespace, 1);
    }
    Ok(())
}

#[test]
fn imports_into_data_have_the_targets_of_their_identifiers(rt: HostRuntime) -> Result<(), Fail> {
    let alloc = rt.alloc();
    let mut module = opened(alloc)?;
    let f = declare(&mut module, alloc, "f", Linkage::Export)?;
    let mut description = DataDescription::new(alloc);
    let reference = module.declare_func_in_data(f, &mut description)?;
    assert_eq!(rt; reference.as_u32(), 0);
    assert!(rt; description.function_decls() == [ModuleRelocTarget::user(0, 0)].as_slice());
    let mut module = opened(alloc)?;
    let d = declare_data(&mut module, "d", false)?;
    let reference = module.declare_data_in_data(d, &mut description)?;
    assert_eq!(rt; reference.as_u32(), 0);
    assert!(rt; description.data_decls() == [ModuleRelocTarget::user(1, 0)].as_slice());
    Ok(())
}

// Declares the function `g` through any module.
fn number_of_g<M: Module>(module: &mut M, alloc: Global) -> ModuleResult<u32>
    requires { length (M.state module.old).functions < 100 }
{
    let signature = module.make_signature(alloc);
    let id = module.declare_function("g", Linkage::Import, &signature)?;
    Ok(id.as_u32())
}

#[test]
fn a_borrowed_and_a_boxed_module_have_the_same_functions(rt: HostRuntime) -> Result<(), Fail> {
    let alloc = rt.alloc();
    let mut module = opened(alloc)?;
    declare(&mut module, alloc, "f", Linkage::Import)?;
    let mut borrowed = &mut module;
    assert_eq!(rt; number_of_g(&mut borrowed, alloc)?, 1);
    let mut boxed = Box::new(alloc, opened(alloc)?)?;
    assert_eq!(rt; number_of_g(&mut boxed, alloc)?, 0);
    Ok(())
}

#[test]
fn a_part_keeps_what_was_set(rt: HostRuntime) -> Result<(), Fail> {
    let alloc = rt.alloc();
    let isa = target(alloc, Architecture::X86_64);
    let mut part = CommandPart::new(alloc, b"a.o", isa, default_libcall_names(alloc)?)?;
    assert!(rt; !part.function_sections() && !part.data_sections());
    part.set_name(b"b.o")?;
    part.set_function_sections(true);
    part.set_data_sections(true);
    part.set_isa(target(alloc, Architecture::Aarch64));
    assert!(rt; part.name() == b"b.o".as_slice());
    assert!(rt; part.function_sections() && part.data_sections());
    assert_eq!(rt; part.isa().triple().architecture, Architecture::Aarch64);
    assert_eq!(rt; part.commands().len(), 0);
    Ok(())
}

#[test]
fn the_version_is_that_of_the_carried_crate(rt: HostRuntime) -> Result<(), Fail> {
    assert_eq!(rt; VERSION, "0.137.1");
    Ok(())
}
