//! Values of the code generator, through public items alone.

use ir_core::{
    AbiParam, Architecture, ArgumentExtension, ArgumentPurpose, BinaryFormat, CallConv,
    Environment, ExtFuncData, ExternalName, FuncRef, Function, GlobalValue, GlobalValueData,
    KnownSymbol, LibCall, MachLabel, Reloc, SigRef, Signature, SourceLoc, System, TargetIsa,
    TrapCode, Triple, UserExternalName, ValueType, elf_machine, elf_number, field_width,
};
use std::test::Fail;

const NARROW: AbiParam = AbiParam {
    value_type: ValueType::I8,
    extension: ArgumentExtension::Uext,
    purpose: ArgumentPurpose::Normal,
};

const CONTEXT: AbiParam = AbiParam {
    value_type: ValueType::I64,
    extension: ArgumentExtension::None,
    purpose: ArgumentPurpose::VMContext,
};

const BOTH: AbiParam = AbiParam {
    value_type: ValueType::I32,
    extension: ArgumentExtension::Sext,
    purpose: ArgumentPurpose::StructReturn,
};

#[test]
fn a_signature_prints_its_values_and_its_convention(rt: HostRuntime) -> Result<(), Fail> {
    let alloc = rt.alloc();
    let mut signature = Signature::new(alloc, CallConv::SystemV);
    assert_eq!(rt; signature.to_string(alloc)?.as_str(), "() system_v");
    signature.push_param(NARROW)?;
    assert_eq!(rt; signature.to_string(alloc)?.as_str(), "(i8 uext) system_v");
    signature.push_param(CONTEXT)?;
    signature.push_return(BOTH)?;
    signature.push_return(AbiParam::new(ValueType::F64))?;
    assert_eq!(rt;
        signature.to_string(alloc)?.as_str(),
        "(i8 uext, i64 vmctx) -> i32 sext sret, f64 system_v"
    );
    signature.clear(CallConv::AppleAarch64);
    assert_eq!(rt; signature.to_string(alloc)?.as_str(), "() apple_aarch64");
    Ok(())
}

#[test]
fn a_copy_of_a_signature_is_equal_and_stays_when_the_other_changes(
    rt: HostRuntime,
) -> Result<(), Fail> {
    let mut signature = Signature::new(rt.alloc(), CallConv::Fast);
    signature.push_param(AbiParam::new(ValueType::I32))?;
    let copy = signature.copy()?;
    assert!(rt; copy == signature);
    signature.push_return(AbiParam::new(ValueType::I32))?;
    assert!(rt; copy != signature);
    assert_eq!(rt; copy.params().len(), 1);
    assert_eq!(rt; copy.returns().len(), 0);
    Ok(())
}

#[test]
fn flags_stand_in_the_order_in_which_they_were_pushed(rt: HostRuntime) -> Result<(), Fail> {
    let triple = Triple {
        architecture: Architecture::Aarch64,
        binary_format: BinaryFormat::Macho,
        system: System::MacOSX,
        version: None,
        environment: Environment::Unknown,
    };
    let mut isa = TargetIsa::new(rt.alloc(), triple);
    isa.push_flag("is_pic", Some(true))?;
    isa.push_flag("tls_model", None)?;
    assert_eq!(rt; isa.flags().len(), 2);
    assert_eq!(rt; isa.flags()[0].name(), "is_pic");
    assert_eq!(rt; isa.flags()[1].name(), "tls_model");
    assert_eq!(rt; isa.flags()[0].value(), Some(true));
    assert_eq!(rt; isa.flags()[1].value(), None);
    assert_eq!(rt; isa.symbol_alignment(), 4);
    assert_eq!(rt;
        isa.frontend_config().default_call_conv,
        CallConv::AppleAarch64
    );
    Ok(())
}

#[test]
fn kinds_and_names_print_as_they_are_written(rt: HostRuntime) -> Result<(), Fail> {
    let alloc = rt.alloc();
    assert_eq!(rt;
        Reloc::X86CallPLTRel4.to_string(alloc)?.as_str(),
        "X86CallPLTRel4"
    );
    assert_eq!(rt;
        Reloc::ElfX86_64TlsGd.to_string(alloc)?.as_str(),
        "ElfX86_64TlsGd"
    );
    assert_eq!(rt;
        LibCall::ElfTlsGetOffset.to_string(alloc)?.as_str(),
        "ElfTlsGetOffset"
    );
    assert_eq!(rt;
        KnownSymbol::ElfGlobalOffsetTable.to_string(alloc)?.as_str(),
        "ElfGlobalOffsetTable"
    );
    Ok(())
}

#[test]
fn three_processors_have_a_number_in_an_elf_header(rt: HostRuntime) {
    assert_eq!(rt; elf_machine(Architecture::X86_64), 62);
    assert_eq!(rt; elf_machine(Architecture::Aarch64), 183);
    assert_eq!(rt; elf_machine(Architecture::Riscv64), 243);
    assert_eq!(rt; elf_machine(Architecture::Arm), 0);
}

#[test]
fn a_kind_has_the_number_of_each_processor_that_has_it(rt: HostRuntime) {
    let processors = [
        (Architecture::X86_64, Some(1), Some(10)),
        (Architecture::Aarch64, Some(257), Some(258)),
        (Architecture::Riscv64, Some(2), Some(1)),
        (Architecture::X86_32, None, None),
        (Architecture::S390x, None, None),
    ];
    for (processor, eight, four) in &processors {
        assert_eq!(rt; elf_number(*processor, Reloc::Abs8), *eight);
        assert_eq!(rt; elf_number(*processor, Reloc::Abs4), *four);
        assert_eq!(rt; elf_number(*processor, Reloc::X86SecRel), None);
    }
    assert_eq!(rt;
        elf_number(Architecture::Riscv64, Reloc::RiscvCallPlt),
        Some(19)
    );
    assert_eq!(rt; elf_number(Architecture::X86_64, Reloc::RiscvCallPlt), None);
    assert_eq!(rt; field_width(Reloc::RiscvCallPlt), 8);
    assert_eq!(rt; field_width(Reloc::Arm64Call), 4);
}

#[test]
fn a_user_name_is_imported_once(rt: HostRuntime) -> Result<(), Fail> {
    let alloc = rt.alloc();
    let mut function = Function::new(alloc);
    let first = UserExternalName {
        namespace: 0,
        index: 7,
    };
    let second = UserExternalName {
        namespace: 1,
        index: 7,
    };
    let place = function.declare_imported_user_function(first)?;
    assert_eq!(rt; place.as_u32(), 0);
    let place = function.declare_imported_user_function(second)?;
    assert_eq!(rt; place.as_u32(), 1);
    let place = function.declare_imported_user_function(first)?;
    assert_eq!(rt; place.as_u32(), 0);
    assert_eq!(rt; function.user_named_funcs().len(), 2);
    Ok(())
}

#[test]
fn imports_are_numbered_from_zero(rt: HostRuntime) -> Result<(), Fail> {
    let alloc = rt.alloc();
    let mut function = Function::new(alloc);
    function.reserve_one()?;
    let signature = function.import_signature(Signature::new(alloc, CallConv::SystemV))?;
    assert_eq!(rt; signature, SigRef::from_u32(0));
    let callee = ExtFuncData {
        name: ExternalName::LibCall(LibCall::Memcpy),
        signature,
        colocated: false,
        patchable: false,
    };
    let called = function.import_function(callee)?;
    assert_eq!(rt; called, FuncRef::from_u32(0));
    assert_eq!(rt; called.to_string(alloc)?.as_str(), "fn0");
    let value = GlobalValueData {
        name: ExternalName::TestCase,
        offset: -8,
        colocated: true,
        tls: false,
    };
    let value = function.create_global_value(value)?;
    assert_eq!(rt; value, GlobalValue::from_u32(0));
    assert_eq!(rt; value.to_string(alloc)?.as_str(), "gv0");
    assert!(rt; function.ext_funcs() == [callee].as_slice());
    assert_eq!(rt; function.signatures().len(), 1);
    assert_eq!(rt; function.global_values().len(), 1);
    assert_eq!(rt; MachLabel::from_offset(100).as_offset(), 100);
    Ok(())
}

#[test]
fn numbers_of_places_and_traps_are_told_back(rt: HostRuntime) {
    assert_eq!(rt; SourceLoc::new(4_000_000_000).bits(), 4_000_000_000);
    assert!(rt; SourceLoc::new(1) != SourceLoc::new(2));
    assert_eq!(rt; TrapCode::from_raw(255).as_raw(), 255);
    assert!(rt; TrapCode::from_raw(1) == TrapCode::from_raw(1));
}
