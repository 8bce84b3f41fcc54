//! Modules for Mach-O: the system that a file is built for, and the file of a few calls.

ghost use Rattle.std.specs.Prelude.{◌≡◌, ◌≤◌, ◌<◌, ◌+◌, [], length, IfOk};

use cranelift_module::{
    FuncId, Linkage, Module, ModuleError, ModuleReloc, ModuleRelocTarget, ModuleResult,
    default_libcall_names,
};
use cranelift_object::{ObjectBuilder, ObjectModule, macho_build_version};
use image_read::{Image, read_image};
use ir_core::{Architecture, BinaryFormat, Environment, Reloc, System, TargetIsa, Triple, Version};
use std::alloc::Global;
use std::test::Fail;

fn triple(system: System, environment: Environment, version: Option<Version>) -> Triple {
    Triple {
        architecture: Architecture::X86_64,
        binary_format: BinaryFormat::Macho,
        system,
        version,
        environment,
    }
}

const VERSION: Version = Version {
    major: 14,
    minor: 5,
    patch: 1,
};

/// The platforms of Apple's `mach-o/loader.h`, PLATFORM_MACOS 1 and on.
const PLATFORMS: &[(System, Environment, Option<u32>)] = &[
    (System::Unknown, Environment::Sim, None),
    (System::Linux, Environment::Unknown, None),
    (System::Darwin, Environment::Unknown, Some(1)),
    (System::MacOSX, Environment::Macabi, Some(1)),
    (System::IOS, Environment::Unknown, Some(2)),
    (System::IOS, Environment::Macabi, Some(6)),
    (System::IOS, Environment::Sim, Some(7)),
    (System::TvOS, Environment::Unknown, Some(3)),
    (System::TvOS, Environment::Sim, Some(8)),
    (System::WatchOS, Environment::Unknown, Some(4)),
    (System::WatchOS, Environment::Sim, Some(9)),
    (System::VisionOS, Environment::Unknown, Some(11)),
    (System::XROS, Environment::Sim, Some(12)),
    (System::XROS, Environment::Macabi, Some(6)),
];

#[test]
fn each_system_has_its_platform(rt: HostRuntime) -> Result<(), Fail> {
    for (system, environment, platform) in PLATFORMS {
        let version = macho_build_version(&triple(*system, *environment, Some(VERSION)));
        assert_eq!(rt; version.map(|v| v.platform), *platform);
        assert_eq!(rt; version.map_or(0x000e_0501, |v| v.minos), 0x000e_0501);
        let version = macho_build_version(&triple(*system, *environment, None));
        assert_eq!(rt; version.map_or(0, |v| v.minos), 0);
    }
    Ok(())
}

#[tactic(auto, unfolding(cranelift_module::specs::LinkState::state_of, cranelift_module::specs::Rows::functions_of, cranelift_module::specs::Rows::objects_of, ir_core::specs::Moments::moments))]
fn opened(alloc: Global) -> Result<ObjectModule, ModuleError>
    ensures functions { IfOk result (λ m. m.state.functions ≡ []) }
    ensures objects { IfOk result (λ m. m.state.objects ≡ []) }
{
    let isa = TargetIsa::new(alloc, triple(System::Unknown, Environment::Unknown, None));
    let names = default_libcall_names(alloc)?;
    ObjectModule::new(ObjectBuilder::new(alloc, isa, b"a.o", names)?)
}

#[tactic(auto, using(cranelift_object::proofs::ApplyLaws::call_functions, cranelift_object::proofs::ApplyLaws::call_objects))]
fn declare(
    module: &mut ObjectModule,
    alloc: Global,
    name: &str,
    linkage: Linkage,
) -> ModuleResult<FuncId>
    requires { length (module.old).state.functions < 100 }
    ensures functions { length (module.new).state.functions ≤ length (module.old).state.functions + 1 }
    ensures objects { length (module.new).state.objects ≤ length (module.old).state.objects + 1 }
{
    let signature = module.make_signature(alloc);
    module.declare_function(name, linkage, &signature)
}

/// The bytes of a call whose field holds other bytes than it stores.
const CALL: &[u8] = b"\xe8\x11\x22\x33\x44";

/// The file of an exported function that names another one relative to its place.
fn calling(alloc: Global) -> Result<Vec<u8>, Fail> {
    let mut module = opened(alloc)?;
    let f = declare(&mut module, alloc, "f", Linkage::Export)?;
    let g = declare(&mut module, alloc, "g", Linkage::Import)?;
    let call = ModuleReloc {
        offset: 1,
        kind: Reloc::X86PCRel4,
        name: ModuleRelocTarget::user(0, g.as_u32()),
        addend: -4,
    };
    module.define_function_bytes(f, 1, CALL, &[call])?;
    Ok(module.finish()?.emit(alloc)?)
}

#[test]
fn a_call_has_a_file_of_263_bytes_that_is_read_back(rt: HostRuntime) -> Result<(), Fail> {
    let alloc = rt.alloc();
    let file = calling(alloc)?;
    assert_eq!(rt; file.len(), 263);
    let Ok(Image::Mach(image)) = read_image(alloc, &file) else {
        return Err(Fail::from("the file was not read"));
    };
    assert!(rt; image.build_version().is_none());
    assert_eq!(rt; image.sections().len(), 1);
    for section in image.sections() {
        assert!(rt; section.segment() == b"__TEXT".as_slice());
        assert!(rt; section.name() == b"__text".as_slice());
        assert!(rt; section.contents() == b"\xe8\0\0\0\0".as_slice());
    }
    let names = [b"_f".as_slice(), b"_g".as_slice()];
    assert_eq!(rt; image.symbols().len(), names.len());
    for (symbol, name) in image.symbols().iter().zip(names) {
        assert!(rt; symbol.name == name);
    }
    Ok(())
}
