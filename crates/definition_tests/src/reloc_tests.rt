//! Relocations of a function's code, and of data descriptions, as those of definitions.

ghost use Rattle.cranelift_module.specs.CodeRelocs.{HasName};

use cranelift_module::{DataDescription, FuncId, ModuleReloc, ModuleRelocTarget};
use ir_core::{
    ExternalName, FuncRef, Function, GlobalValue, KnownSymbol, LibCall, MachLabel, MachReloc,
    Reloc, RelocTarget, UserExternalName,
};
use std::test::Fail;

/// A call at 12 in the code of function 5, as a relocation of its definition.
fn call_from_five(func: &Function, target: RelocTarget) -> ModuleReloc
    requires { HasName (func.now).lists.user_named_funcs target }
{
    let call = MachReloc {
        offset: 12,
        kind: Reloc::X86CallPLTRel4,
        target,
        addend: -4,
    };
    ModuleReloc::from_mach_reloc(&call, func, FuncId::from_u32(5))
}

/// The same call to a target of a definition.
fn call_to(name: ModuleRelocTarget) -> ModuleReloc {
    ModuleReloc {
        offset: 12,
        kind: Reloc::X86CallPLTRel4,
        name,
        addend: -4,
    }
}

#[test]
fn a_user_name_in_code_is_the_target_of_its_namespace_and_index(
    rt: HostRuntime,
) -> Result<(), Fail> {
    let mut function = Function::new(rt.alloc());
    let seventh = UserExternalName {
        namespace: 0,
        index: 7,
    };
    let last = UserExternalName {
        namespace: 1,
        index: 4_294_967_295,
    };
    let first_place = function.declare_imported_user_function(seventh)?;
    let second_place = function.declare_imported_user_function(last)?;
    let first = call_from_five(
        &function,
        RelocTarget::ExternalName(ExternalName::User(first_place)),
    );
    let second = call_from_five(
        &function,
        RelocTarget::ExternalName(ExternalName::User(second_place)),
    );
    assert_eq!(rt; first, call_to(ModuleRelocTarget::user(0, 7)));
    assert_eq!(rt; second, call_to(ModuleRelocTarget::user(1, 4_294_967_295)));
    Ok(())
}

#[test]
fn a_label_in_code_is_a_place_in_the_function_and_other_names_stay_as_they_are(rt: HostRuntime) {
    let function = Function::new(rt.alloc());
    let start = call_from_five(&function, RelocTarget::Label(MachLabel::from_offset(0)));
    let inside = call_from_five(&function, RelocTarget::Label(MachLabel::from_offset(100)));
    let five = FuncId::from_u32(5);
    assert_eq!(rt; start, call_to(ModuleRelocTarget::FunctionOffset(five, 0)));
    assert_eq!(rt;
        inside,
        call_to(ModuleRelocTarget::FunctionOffset(five, 100))
    );
    let library = RelocTarget::ExternalName(ExternalName::LibCall(LibCall::Memcpy));
    let known = RelocTarget::ExternalName(ExternalName::KnownSymbol(
        KnownSymbol::ElfGlobalOffsetTable,
    ));
    assert_eq!(rt;
        call_from_five(&function, library),
        call_to(ModuleRelocTarget::LibCall(LibCall::Memcpy))
    );
    assert_eq!(rt;
        call_from_five(&function, known),
        call_to(ModuleRelocTarget::KnownSymbol(KnownSymbol::ElfGlobalOffsetTable))
    );
}

#[test]
fn a_reference_is_in_range_up_to_the_last_import_of_its_own_list(
    rt: HostRuntime,
) -> Result<(), Fail> {
    let mut description = DataDescription::new(rt.alloc());
    assert!(rt; description.references_in_range());
    let function = description.import_function(ModuleRelocTarget::user(0, 3))?;
    description.write_function_addr(0, function)?;
    assert!(rt; description.references_in_range());
    let mut past_functions = description.copy()?;
    past_functions.write_function_addr(8, FuncRef::from_u32(1))?;
    assert!(rt; !past_functions.references_in_range());
    let mut past_objects = description.copy()?;
    past_objects.write_data_addr(8, GlobalValue::from_u32(0), 0)?;
    assert!(rt; !past_objects.references_in_range());
    past_objects.import_global_value(ModuleRelocTarget::user(1, 0))?;
    assert!(rt; past_objects.references_in_range());
    Ok(())
}

#[test]
fn function_addresses_come_before_data_addresses_each_once(rt: HostRuntime) -> Result<(), Fail> {
    let mut description = DataDescription::new(rt.alloc());
    let object = description.import_global_value(ModuleRelocTarget::user(1, 9))?;
    let function = description.import_function(ModuleRelocTarget::user(0, 2))?;
    description.write_data_addr(0, object, -9_223_372_036_854_775_808)?;
    description.write_function_addr(4_294_967_295, function)?;
    description.write_function_addr(0, function)?;
    if !description.references_in_range() {
        return Err(Fail::from("a reference was out of range"));
    }
    let expected = [
        (4_294_967_295, ModuleRelocTarget::user(0, 2), 0),
        (0, ModuleRelocTarget::user(0, 2), 0),
        (0, ModuleRelocTarget::user(1, 9), -9_223_372_036_854_775_808),
    ];
    let mut relocs = description.all_relocs(Reloc::Abs4);
    for (offset, name, addend) in &expected {
        let reloc = ModuleReloc {
            offset: *offset,
            kind: Reloc::Abs4,
            name: *name,
            addend: *addend,
        };
        assert_eq!(rt; relocs.next(), Some(reloc));
    }
    assert_eq!(rt; relocs.next(), None);
    Ok(())
}

#[test]
fn a_description_that_writes_no_address_has_no_relocations(rt: HostRuntime) -> Result<(), Fail> {
    let mut description = DataDescription::new(rt.alloc());
    description.import_function(ModuleRelocTarget::user(0, 2))?;
    description.define_zeroinit(8);
    if !description.references_in_range() {
        return Err(Fail::from("a reference was out of range"));
    }
    assert_eq!(rt; description.all_relocs(Reloc::Abs8).next(), None);
    Ok(())
}
