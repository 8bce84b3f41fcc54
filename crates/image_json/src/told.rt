//! What is told of a file, whatever its format.

ghost use Rattle.std.specs.Prelude.{IfOk, IfErr};
ghost use Rattle.image_read.specs.Image.{ExplainsRead};
ghost use Rattle.image_json.specs.ImageJson.{IsImageText};

use crate::elf_json::elf_text;
use crate::fat_json::fat_text;
use crate::mach_json::mach_text;
use image_read::{Image, ReadError, read_image};
use std::alloc::Global;

/// What some bytes are read as, as JSON without white space. NoReading where they are read as no image.
pub fn image_text(alloc: Global, bytes: &[u8]) -> Result<Vec<u8>, ReadError>
    ensures ok { IfOk result (λ text. IsImageText bytes.now text.items) }
    ensures cause { IfErr result (ExplainsRead bytes.now) }
{
    match read_image(alloc, bytes) {
        Ok(Image::Elf(image)) => match elf_text(alloc, &image) {
            Ok(text) => Ok(text),
            Err(_) => Err(ReadError::OutOfMemory),
        },
        Ok(Image::Mach(image)) => match mach_text(alloc, &image) {
            Ok(text) => Ok(text),
            Err(_) => Err(ReadError::OutOfMemory),
        },
        Ok(Image::Fat(image)) => match fat_text(alloc, &image) {
            Ok(text) => Ok(text),
            Err(_) => Err(ReadError::OutOfMemory),
        },
        Err(error) => Err(error),
    }
}
