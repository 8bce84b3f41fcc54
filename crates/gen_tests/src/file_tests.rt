//! The files that generated parts build.

ghost use Rattle.std.specs.Prelude.{◌<◌, ◌≤◌};

use image_build::{Part, build_image};
use image_read::{ElfImage, Image, read_image};
use part_gen::gen_part;
use std::alloc::Global;
use std::process::Abort;
use std::test::Fail;

/// The relocations of all sections.
fn relocation_count(image: &ElfImage<'_>) -> usize {
    let mut count: usize = 0;
    for section in image.sections() {
        count = count.saturating_add(section.relocations().len());
    }
    count
}

/// A part is built to a file of 8 sections beside the null section, with so many symbols beside the null symbol and so
/// many relocations. It answers the file's length.
fn built_length(
    rt: &impl Abort,
    alloc: Global,
    seed: u32,
    n: u32,
    symbols: usize,
    relocations: usize,
) -> Result<usize, Fail>
    requires least { 0 < n }
    requires most { n ≤ 100000 }
{
    let part = gen_part(alloc, seed, n)?;
    let bytes = build_image(alloc, &[Part::Commands(part)])?;
    let image = match read_image(alloc, &bytes)? {
        Image::Elf(image) => image,
        _ => return Err(Fail::new("another format")),
    };
    assert_eq!(rt; image.sections().len(), 8);
    assert_eq!(rt; image.symbols().len(), symbols);
    assert_eq!(rt; relocation_count(&image), relocations);
    Ok(bytes.len())
}

#[test]
fn one_function_and_one_data_object_have_920_bytes(rt: HostRuntime) -> Result<(), Fail> {
    assert_eq!(rt; built_length(&rt, rt.alloc(), 0, 1, 3, 2)?, 920);
    Ok(())
}

#[test]
fn two_functions_and_two_data_objects_have_1072_bytes(rt: HostRuntime) -> Result<(), Fail> {
    assert_eq!(rt; built_length(&rt, rt.alloc(), 0, 2, 5, 4)?, 1072);
    Ok(())
}

#[test]
fn a_part_of_20000_functions_is_built_and_read_back(rt: HostRuntime) -> Result<(), Fail> {
    let length = built_length(&rt, rt.alloc(), 1, 20_000, 40_001, 40_000)?;
    assert!(rt; length > 20_000 * 32);
    Ok(())
}

#[test]
fn the_greatest_part_is_made(rt: HostRuntime) -> Result<(), Fail> {
    let part = gen_part(rt.alloc(), 2_147_483_647, 100_000)?;
    assert_eq!(rt; part.commands().len(), 400_000);
    Ok(())
}
