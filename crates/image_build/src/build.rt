//! From parts to the bytes of a file.

ghost use Rattle.std.specs.Prelude.{◌≡◌, ◌<◌, [], ◌∷◌, None, length, map, IfOk, IfErr, OnOk};
ghost use Rattle.std.specs.List.{All, position_from};
ghost use Rattle.std.specs.Option.{option_or};
ghost use Rattle.image_build.specs.Built.{Built, BuiltFat, build_cause, mixed_cause, first_refused_part, is_elf_part, TellsBuild};
ghost use Rattle.image_build.specs.Parts.{part_view, HasFewCalls};

use crate::error::{BuildCause, BuildError, Place};
use crate::fat::fat_file;
use crate::part::Part;
use crate::part_file::{at, build_part};
use ir_core::BinaryFormat;
use std::alloc::Global;

/// Whether a part gives an ELF file.
fn is_elf_part(part: &Part) -> bool
    ensures { result ≡ is_elf_part (part_view part.now) }
{
    match part {
        Part::Commands(part) => part.isa().triple().binary_format == BinaryFormat::Elf,
        Part::Image(_) => false,
    }
}

/// The number of the first part that gives an ELF file.
fn first_elf_part(parts: &[Part]) -> Option<usize>
    ensures { result ≡ position_from is_elf_part 0 (map part_view parts.now) }
{
    for (number, part) in parts.iter().enumerate() {
        if is_elf_part(part) {
            return Some(number);
        }
    }
    None
}

/// The bytes that the one part of a list builds.
fn build_one(alloc: Global, parts: &[Part], part: &Part) -> Result<Vec<u8>, BuildError>
    requires one { map part_view parts.now ≡ part_view part.now ∷ [] }
    requires few { HasFewCalls (part_view part.now) }
    ensures built { IfOk result (λ bytes. Built (part_view part.now ∷ []) bytes.items) }
    ensures valid { OnOk result (build_cause (part_view part.now ∷ []) ≡ None) }
    ensures cause { IfErr result (λ error. TellsBuild error (build_cause (part_view part.now ∷ []))) }
{
    match part {
        Part::Commands(part) => build_part(alloc, 0, part),
        Part::Image(_) => fat_file(alloc, parts),
    }
}

/// The bytes that several parts build.
fn build_several(alloc: Global, parts: &[Part]) -> Result<Vec<u8>, BuildError>
    requires few { All HasFewCalls (map part_view parts.now) }
    ensures built { IfOk result (λ bytes. BuiltFat (map part_view parts.now) bytes.items) }
    ensures valid { OnOk result (option_or (mixed_cause (map part_view parts.now)) (first_refused_part (map part_view parts.now)) ≡ None) }
    ensures cause { IfErr result (λ error. TellsBuild error (option_or (mixed_cause (map part_view parts.now)) (first_refused_part (map part_view parts.now)))) }
{
    match first_elf_part(parts) {
        Some(number) => Err(at(number, Place::Start, BuildCause::Mixed)),
        None => fat_file(alloc, parts),
    }
}

/// The bytes that the parts build: none for no part, the object file of one command part, else the
/// fat file of all slices, which has no bytes where there are none. An error names the part, the
/// place in it and the first cause.
pub fn build_image(alloc: Global, parts: &[Part]) -> Result<Vec<u8>, BuildError>
    requires { All HasFewCalls (map part_view parts.now) }
    ensures built { IfOk result (λ bytes. Built (map part_view parts.now) bytes.items) }
    ensures valid { OnOk result (build_cause (map part_view parts.now) ≡ None) }
    ensures cause { IfErr result (λ error. TellsBuild error (build_cause (map part_view parts.now))) }
{
    match parts {
        [] => Ok(Vec::new(alloc)),
        [part] => build_one(alloc, parts, part),
        _ => build_several(alloc, parts),
    }
}
