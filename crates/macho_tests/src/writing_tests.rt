use crate::objects::{arm, calling, empty, many, section};
use crate::small_files::{ARM_FILE, CALLING_FILE, EMPTY_FILE, MANY_FILE, VERSION_FILE};
use image_read::{Image, read_image};
use ir_core::{Architecture, BinaryFormat};
use object_core::{EmitError, MachOBuildVersion, Object, What};
use object_macho::{emit_macho, fill_macho, macho_plan};
use std::alloc::Global;
use std::process::Abort;
use std::test::Fail;

/// The file of an object that is well formed.
#[tactic(auto, using(crate::proofs::FormedObjects::formed_macho))]
fn emitted(rt: &impl Abort, alloc: Global, object: &Object) -> Result<Vec<u8>, EmitError> {
    assert!(rt; object.well_formed());
    assert!(rt; matches!(object.format(), BinaryFormat::Macho));
    emit_macho(alloc, object)
}

#[test]
fn an_empty_object_has_129_bytes_and_153_with_a_build_version(rt: HostRuntime) -> Result<(), Fail> {
    let mut object = empty(rt.alloc(), Architecture::X86_64)?;
    let file = emitted(&rt, rt.alloc(), &object)?;
    assert_eq!(rt; file.as_slice(), EMPTY_FILE.as_slice());
    object.set_macho_build_version(MachOBuildVersion {
        platform: 1,
        minos: 720_896,
        sdk: 0,
    });
    let file = emitted(&rt, rt.alloc(), &object)?;
    assert_eq!(rt; file.as_slice(), VERSION_FILE.as_slice());
    Ok(())
}

#[test]
fn a_relative_addend_is_stored_from_the_end_of_its_field(rt: HostRuntime) -> Result<(), Fail> {
    let object = calling(&rt, rt.alloc())?;
    let file = emitted(&rt, rt.alloc(), &object)?;
    assert_eq!(rt; file.as_slice(), CALLING_FILE.as_slice());
    Ok(())
}

#[test]
fn sections_symbols_and_relocations_of_x86_64_stand_in_their_order(
    rt: HostRuntime,
) -> Result<(), Fail> {
    let object = many(&rt, rt.alloc())?;
    let file = emitted(&rt, rt.alloc(), &object)?;
    assert_eq!(rt; file.as_slice(), MANY_FILE.as_slice());
    Ok(())
}

#[test]
fn addends_of_arm64_stand_in_records_of_their_own(rt: HostRuntime) -> Result<(), Fail> {
    let object = arm(&rt, rt.alloc())?;
    let file = emitted(&rt, rt.alloc(), &object)?;
    assert_eq!(rt; file.as_slice(), ARM_FILE.as_slice());
    Ok(())
}

#[test]
fn a_written_file_is_read_with_its_rows(rt: HostRuntime) -> Result<(), Fail> {
    let object = many(&rt, rt.alloc())?;
    let file = emitted(&rt, rt.alloc(), &object)?;
    match read_image(rt.alloc(), &file) {
        Ok(Image::Mach(image)) => {
            assert_eq!(rt; image.sections().len(), 4);
            assert_eq!(rt; image.symbols().len(), 7);
            assert_eq!(rt; image.build_version(), Some((1, 720_896, 0)));
        }
        _ => return Err(Fail::from("the file was not read")),
    }
    Ok(())
}

/// Whether the plan of an object is taken for that of another.
#[tactic(auto, using(crate::proofs::FormedObjects::formed_macho))]
fn fits(
    rt: &impl Abort,
    alloc: Global,
    object: &Object,
    other: &Object,
) -> Result<bool, EmitError> {
    assert!(rt; object.well_formed());
    assert!(rt; matches!(object.format(), BinaryFormat::Macho));
    let plan = macho_plan(alloc, object)?;
    Ok(plan.fits(other))
}

#[test]
fn a_plan_fits_its_own_object_and_no_other(rt: HostRuntime) -> Result<(), Fail> {
    let object = many(&rt, rt.alloc())?;
    let other = calling(&rt, rt.alloc())?;
    assert!(rt; fits(&rt, rt.alloc(), &object, &object)?);
    assert!(rt; !fits(&rt, rt.alloc(), &object, &other)?);
    Ok(())
}

/// The file of an object, written into a slice of ones.
#[tactic(auto, using(crate::proofs::FormedObjects::formed_macho))]
fn filled(rt: &impl Abort, alloc: Global, object: &Object) -> Result<[u8; 263], EmitError> {
    assert!(rt; object.well_formed());
    assert!(rt; matches!(object.format(), BinaryFormat::Macho));
    let plan = macho_plan(alloc, object)?;
    let mut file = [0xffu8; 263];
    assert!(rt; plan.len() == 263);
    fill_macho(object, &plan, &mut file);
    Ok(file)
}

#[test]
fn a_slice_of_ones_becomes_the_263_bytes_of_a_call(rt: HostRuntime) -> Result<(), Fail> {
    let object = calling(&rt, rt.alloc())?;
    let file = filled(&rt, rt.alloc(), &object)?;
    assert_eq!(rt; file.as_slice(), CALLING_FILE.as_slice());
    Ok(())
}

fn sections(alloc: Global, count: usize) -> Result<Object, EmitError> {
    let mut object = empty(alloc, Architecture::X86_64)?;
    for _ in 0..count {
        section(&mut object, b"__DATA", b"__mine", 0)?;
    }
    Ok(object)
}

#[test]
fn the_file_of_255_sections_is_the_last(rt: HostRuntime) -> Result<(), Fail> {
    let object = sections(rt.alloc(), 255)?;
    let file = emitted(&rt, rt.alloc(), &object)?;
    assert_eq!(rt; file.len(), 129 + 80 * 255);
    let object = sections(rt.alloc(), 256)?;
    match emitted(&rt, rt.alloc(), &object) {
        Err(EmitError::TooMany { what, count }) => {
            assert!(rt; matches!(what, What::Sections));
            assert_eq!(rt; count, 256);
        }
        _ => return Err(Fail::from("256 sections were taken")),
    }
    Ok(())
}
