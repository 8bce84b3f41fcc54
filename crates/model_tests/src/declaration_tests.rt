use crate::module_text_tests::prints;
use cranelift_module::{
    DataDescription, DataId, FuncId, FuncOrDataId, Init, Linkage, ModuleDeclarations,
    ModuleRelocTarget, check_definable, check_no_zero_byte,
};
use ir_core::{AbiParam, CallConv, FuncRef, GlobalValue, Signature, ValueType};
use std::test::Fail;

#[test]
fn a_known_name_keeps_its_number_and_gets_the_greatest_linkage(
    rt: HostRuntime,
) -> Result<(), Fail> {
    let alloc = rt.alloc();
    let signature = Signature::new(alloc, CallConv::SystemV);
    let mut declarations = ModuleDeclarations::new(alloc);
    let anonymous = declarations.declare_anonymous_function(&signature)?;
    assert_eq!(rt; anonymous.as_u32(), 0);
    let first = declarations.declare_function("w", Linkage::Import, &signature)?;
    assert_eq!(rt; first, (FuncId::from_u32(1), Linkage::Import));
    let second = declarations.declare_function("w", Linkage::Preemptible, &signature)?;
    assert_eq!(rt; second, (FuncId::from_u32(1), Linkage::Preemptible));
    let third = declarations.declare_function("w", Linkage::Hidden, &signature)?;
    assert_eq!(rt; third, (FuncId::from_u32(1), Linkage::Preemptible));
    assert_eq!(rt; declarations.get_functions().count(), 2);
    assert_eq!(rt;
        declarations.get_name("w"),
        Some(FuncOrDataId::Func(FuncId::from_u32(1)))
    );
    assert_eq!(rt; declarations.get_name("v"), None);
    Ok(())
}

#[test]
fn a_function_declared_again_with_fewer_values_is_told_with_both_signatures(
    rt: HostRuntime,
) -> Result<(), Fail> {
    let alloc = rt.alloc();
    let mut with = Signature::new(alloc, CallConv::SystemV);
    with.push_param(AbiParam::new(ValueType::I64))?;
    let without = Signature::new(alloc, CallConv::SystemV);
    let mut declarations = ModuleDeclarations::new(alloc);
    declarations.declare_function("s", Linkage::Import, &with)?;
    match declarations.declare_function("s", Linkage::Import, &without) {
        Ok(_) => Err(Fail::from("another signature was taken")),
        Err(error) => prints(
            &rt,
            alloc,
            &error,
            "Function s signature () system_v is incompatible with previous declaration (i64) system_v",
        ),
    }
}

#[test]
fn functions_come_before_data_objects(rt: HostRuntime) -> Result<(), Fail> {
    let function = FuncOrDataId::Func(FuncId::from_u32(9));
    let data = FuncOrDataId::Data(DataId::from_u32(0));
    assert!(rt; function < data);
    assert!(rt; FuncOrDataId::Func(FuncId::from_u32(1)) < function);
    assert!(rt; data < FuncOrDataId::Data(DataId::from_u32(1)));
    Ok(())
}

#[test]
fn another_signature_is_refused_and_changes_nothing(rt: HostRuntime) -> Result<(), Fail> {
    let alloc = rt.alloc();
    let plain = Signature::new(alloc, CallConv::SystemV);
    let mut other = Signature::new(alloc, CallConv::SystemV);
    other.push_return(AbiParam::new(ValueType::I64))?;
    let mut declarations = ModuleDeclarations::new(alloc);
    declarations.declare_function("f", Linkage::Local, &plain)?;
    match declarations.declare_function("f", Linkage::Export, &other) {
        Ok(_) => return Err(Fail::from("another signature was taken")),
        Err(error) => prints(
            &rt,
            alloc,
            &error,
            "Function f signature () -> i64 system_v is incompatible with previous declaration () system_v",
        )?,
    }
    let (_, linkage) = declarations.declare_function("f", Linkage::Import, &plain)?;
    assert_eq!(rt; linkage, Linkage::Local);
    Ok(())
}

#[test]
fn data_keeps_its_number_under_a_refused_function_and_gets_a_greater_linkage(
    rt: HostRuntime,
) -> Result<(), Fail> {
    let alloc = rt.alloc();
    let signature = Signature::new(alloc, CallConv::SystemV);
    let mut declarations = ModuleDeclarations::new(alloc);
    declarations.declare_data("x", Linkage::Local, false, false)?;
    match declarations.declare_function("x", Linkage::Export, &signature) {
        Ok(_) => return Err(Fail::from("a function was taken")),
        Err(error) => prints(
            &rt,
            alloc,
            &error,
            "Incompatible declaration of identifier: x",
        )?,
    }
    let x = DataId::from_u32(0);
    assert_eq!(rt; declarations.get_name("x"), Some(FuncOrDataId::Data(x)));
    let (id, linkage) = declarations.declare_data("x", Linkage::Hidden, true, false)?;
    assert_eq!(rt; id, x);
    assert_eq!(rt; linkage, Linkage::Hidden);
    let (_, linkage) = declarations.declare_data("x", Linkage::Import, false, false)?;
    assert_eq!(rt; linkage, Linkage::Hidden);
    Ok(())
}

#[test]
fn data_without_a_name_counts_apart_from_functions(rt: HostRuntime) -> Result<(), Fail> {
    let alloc = rt.alloc();
    let signature = Signature::new(alloc, CallConv::SystemV);
    let mut declarations = ModuleDeclarations::new(alloc);
    let function = declarations.declare_anonymous_function(&signature)?;
    let data = declarations.declare_anonymous_data(true, true)?;
    assert_eq!(rt; data.as_u32(), 0);
    let ten = FuncId::from_u32(10);
    let name = declarations
        .get_function_decl(function)
        .linkage_name(alloc, ten)?;
    assert_eq!(rt; name.as_str(), ".Lfna");
    for (id, object) in declarations.get_data_objects() {
        assert_eq!(rt; id, data);
        assert!(rt; object.name().is_none() && object.writable() && object.tls());
        let name = object.linkage_name(alloc, DataId::from_u32(255))?;
        assert_eq!(rt; name.as_str(), ".Ldataff");
    }
    Ok(())
}

#[test]
fn another_thread_local_mark_is_refused_and_the_linkage_stays(rt: HostRuntime) -> Result<(), Fail> {
    let alloc = rt.alloc();
    let mut declarations = ModuleDeclarations::new(alloc);
    declarations.declare_data("t", Linkage::Local, false, true)?;
    match declarations.declare_data("t", Linkage::Export, true, false) {
        Ok(_) => return Err(Fail::from("another mark was taken")),
        Err(error) => prints(
            &rt,
            alloc,
            &error,
            "Data object t TLS false is incompatible with previous declaration TLS true",
        )?,
    }
    let (_, linkage) = declarations.declare_data("t", Linkage::Import, false, true)?;
    assert_eq!(rt; linkage, Linkage::Local);
    Ok(())
}

#[test]
fn a_definition_is_refused_by_its_first_cause(rt: HostRuntime) -> Result<(), Fail> {
    let alloc = rt.alloc();
    let signature = Signature::new(alloc, CallConv::SystemV);
    let mut declarations = ModuleDeclarations::new(alloc);
    let (import, _) = declarations.declare_function("printf", Linkage::Import, &signature)?;
    let anonymous = declarations.declare_anonymous_function(&signature)?;
    let cases = [
        (FuncId::from_u32(7), true, 3, "Undeclared identifier: u0:7"),
        (
            import,
            true,
            3,
            "Invalid to define identifier declared as an import: printf",
        ),
        (
            anonymous,
            true,
            3,
            "Duplicate definition of identifier: .Lfn1",
        ),
        (anonymous, false, 0, "Backend error: bad alignment 0"),
        (
            anonymous,
            false,
            131072,
            "Backend error: bad alignment 131072",
        ),
    ];
    for (id, defined, align, expected) in &cases {
        match check_definable(alloc, &declarations, *defined, *id, *align) {
            Ok(()) => return Err(Fail::from("a definition was taken")),
            Err(error) => prints(&rt, alloc, &error, expected)?,
        }
    }
    assert!(rt; check_definable(alloc, &declarations, false, anonymous, 65536).is_ok());
    assert!(rt; check_no_zero_byte(b"main").is_ok());
    Ok(())
}

#[test]
fn a_cleared_description_says_nothing(rt: HostRuntime) -> Result<(), Fail> {
    let alloc = rt.alloc();
    let mut description = DataDescription::new(alloc);
    description.import_function(ModuleRelocTarget::user(0, 7))?;
    description.import_function(ModuleRelocTarget::user(0, 8))?;
    let third = description.import_function(ModuleRelocTarget::user(0, 7))?;
    assert_eq!(rt; third.as_u32(), 2);
    description.import_global_value(ModuleRelocTarget::user(1, 0))?;
    let second = description.import_global_value(ModuleRelocTarget::user(1, 1))?;
    assert_eq!(rt; second.as_u32(), 1);
    description.define_zeroinit(256);
    description.write_function_addr(0, FuncRef::from_u32(2))?;
    description.write_function_addr(8, FuncRef::from_u32(0))?;
    description.write_data_addr(16, GlobalValue::from_u32(1), -4)?;
    let copy = description.copy()?;
    for told in [&description, &copy] {
        assert!(rt; matches!(told.init(), Init::Zeros { size: 256 }));
        assert_eq!(rt; told.function_decls().len(), 3);
        assert_eq!(rt; told.data_decls().len(), 2);
        assert_eq!(rt; told.function_relocs().len(), 2);
        assert_eq!(rt; told.data_relocs().len(), 1);
    }
    description.clear();
    assert!(rt; matches!(description.init(), Init::Uninitialized));
    assert_eq!(rt; description.function_decls().len(), 0);
    assert_eq!(rt; description.data_decls().len(), 0);
    assert_eq!(rt; description.function_relocs().len(), 0);
    assert_eq!(rt; description.data_relocs().len(), 0);
    assert!(rt; description.custom_section().is_none());
    assert!(rt; description.align().is_none() && !description.used());
    Ok(())
}
