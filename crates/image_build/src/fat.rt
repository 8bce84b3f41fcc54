//! From parts to the bytes of a fat file.

ghost use Rattle.std.specs.Prelude.{◌≡◌, ◌<◌, [], Some, None, length, map, false, IfOk, IfErr, OnOk};
ghost use Rattle.std.specs.List.{All, AllByRecursion};
ghost use Rattle.fat_macho.specs.Held.{shapes_held};
ghost use Rattle.image_build.specs.Built.{BuiltFat, first_refused_part, refused_behind, is_elf, is_elf_part, commands, image, TellsBuild, TellsFat};
ghost use Rattle.image_build.specs.Joined.{AddsPart, TellsRefused, IsKnownFile};
ghost use Rattle.image_build.specs.Parts.{part_view, HasFewCalls, IsPlainPart};

use crate::error::{BuildCause, BuildError, Place};
use crate::part::Part;
use crate::part_file::{at, build_part};
use byte_core::{MemSink, PlainSource};
use cranelift_object::CommandPart;
use fat_macho::FatWriter;
use std::alloc::Global;

/// The cause of a build that the writer of fat files refused.
fn fat_cause(error: fat_macho::Error) -> BuildCause
    ensures { TellsFat error result }
{
    match error {
        fat_macho::Error::InvalidMachO(_)
        | fat_macho::Error::DuplicatedArch(_)
        | fat_macho::Error::TooMany { .. }
        | fat_macho::Error::TooLarge { .. } => BuildCause::Fat(error),
        _ => BuildCause::OutOfMemory,
    }
}

/// Adds the file of a command part.
fn add_file<'a>(
    alloc: Global,
    writer: &mut FatWriter<'a, PlainSource<'a>>,
    number: usize,
    part: &CommandPart,
) -> Result<(), BuildError>
    requires few { IsPlainPart part.now }
    requires format { is_elf (part.now).target.triple.binary_format ≡ false }
    ensures ok { OnOk result (AddsPart (commands part.now) writer.old writer.new) }
    ensures none { OnOk result (refused_behind (shapes_held writer.old) (commands part.now) ≡ None) }
    ensures cause { IfErr result (λ error. TellsRefused error (refused_behind (shapes_held writer.old) (commands part.now))) }
    ensures number { IfErr result (λ error. error.part ≡ number) }
{
    let file = match build_part(alloc, number, part) {
        Ok(file) => file,
        Err(error) => return Err(error),
    };
    match writer.add_owned(file) {
        Ok(()) => Ok(()),
        Err(error) => Err(at(number, Place::End, fat_cause(error))),
    }
}

/// Adds the slices of an image.
fn add_image<'a>(
    writer: &mut FatWriter<'a, PlainSource<'a>>,
    number: usize,
    bytes: &'a [u8],
) -> Result<(), BuildError>
    ensures ok { OnOk result (AddsPart (image bytes.now) writer.old writer.new) }
    ensures none { OnOk result (refused_behind (shapes_held writer.old) (image bytes.now) ≡ None) }
    ensures cause { IfErr result (λ error. TellsRefused error (refused_behind (shapes_held writer.old) (image bytes.now))) }
    ensures number { IfErr result (λ error. error.part ≡ number) }
{
    match writer.add(bytes) {
        Ok(()) => Ok(()),
        Err(error) => Err(at(number, Place::Start, fat_cause(error))),
    }
}

/// Adds the slices of a part.
fn add_part<'a>(
    alloc: Global,
    writer: &mut FatWriter<'a, PlainSource<'a>>,
    number: usize,
    part: &'a Part,
) -> Result<(), BuildError>
    requires few { HasFewCalls (part_view part.now) }
    requires format { is_elf_part (part_view part.now) ≡ false }
    ensures ok { OnOk result (AddsPart (part_view part.now) writer.old writer.new) }
    ensures none { OnOk result (refused_behind (shapes_held writer.old) (part_view part.now) ≡ None) }
    ensures cause { IfErr result (λ error. TellsRefused error (refused_behind (shapes_held writer.old) (part_view part.now))) }
    ensures number { IfErr result (λ error. error.part ≡ number) }
{
    match part {
        Part::Commands(part) => add_file(alloc, writer, number, part),
        Part::Image(bytes) => add_image(writer, number, bytes),
    }
}

/// The bytes of the fat file of all slices.
fn written(
    alloc: Global,
    writer: &mut FatWriter<PlainSource>,
    number: usize,
) -> Result<Vec<u8>, BuildError>
    ensures file { IfOk result (λ bytes. IsKnownFile writer.old bytes.items) }
    ensures cause { IfErr result (λ error. error.cause ≡ BuildCause.OutOfMemory) }
{
    let size = writer.total_size();
    let Ok(mut sink) = MemSink::new(alloc, &[], size as usize) else {
        return Err(at(number, Place::End, BuildCause::OutOfMemory));
    };
    match writer.write_to(&mut sink) {
        Ok(()) => Ok(sink.into_taken()),
        Err(_) => Err(at(number, Place::End, BuildCause::OutOfMemory)),
    }
}

/// The fat file of the slices of all parts, none of which gives an ELF file.
pub(crate) fn fat_file(alloc: Global, parts: &[Part]) -> Result<Vec<u8>, BuildError>
    requires few { All HasFewCalls (map part_view parts.now) }
    requires format { All (λ part. is_elf_part part ≡ false) (map part_view parts.now) }
    ensures built { IfOk result (λ bytes. BuiltFat (map part_view parts.now) bytes.items) }
    ensures valid { OnOk result (first_refused_part (map part_view parts.now) ≡ None) }
    ensures cause { IfErr result (λ error. TellsBuild error (first_refused_part (map part_view parts.now))) }
{
    let mut writer = FatWriter::new(alloc);
    for (number, part) in parts.iter().enumerate() {
        if let Err(error) = add_part(alloc, &mut writer, number, part) {
            return Err(error);
        }
    }
    written(alloc, &mut writer, 0)
}
