//! What a file is read as, whatever its format.

ghost use Rattle.std.specs.Prelude.{◌≡◌, ℕ, List, IfOk, IfErr};
ghost use Rattle.image_read.specs.Image.{Reads, ExplainsRead};
ghost use Rattle.image_read.specs.declared.image.Image.{Image};

use crate::ReadError;
use crate::elf::{ElfImage, read_elf};
use crate::fat::{FatImage, read_fat};
use crate::mach::{MachImage, read_mach};
use std::alloc::Global;

/// What a file holds. Names and contents are borrowed from the bytes of the file.
#[derive(Debug, Drop)]
pub enum Image<'a> {
    /// A relocatable ELF64 file, little-endian.
    Elf(ElfImage<'a>),
    /// A relocatable 64-bit Mach-O file.
    Mach(MachImage<'a>),
    /// A fat file.
    Fat(FatImage<'a>),
}

/// The image that the bytes of a file have. NoReading where no format reads them.
#[tactic(auto, using(crate::proofs::Laws::no_image, crate::proofs::Laws::elf_has_image, crate::proofs::Laws::mach_has_image, crate::proofs::Laws::fat_has_image))]
pub fn read_image<'a>(alloc: Global, bytes: &'a [u8]) -> Result<Image<'a>, ReadError>
    ensures ok { IfOk result (Reads bytes.now) }
    ensures cause { IfErr result (ExplainsRead bytes.now) }
{
    match read_elf(alloc, bytes) {
        Ok(image) => Ok(Image::Elf(image)),
        Err(ReadError::OutOfMemory) => Err(ReadError::OutOfMemory),
        Err(ReadError::NoReading) => match read_mach(alloc, bytes) {
            Ok(image) => Ok(Image::Mach(image)),
            Err(ReadError::OutOfMemory) => Err(ReadError::OutOfMemory),
            Err(ReadError::NoReading) => match read_fat(alloc, bytes) {
                Ok(image) => Ok(Image::Fat(image)),
                Err(error) => Err(error),
            },
        },
    }
}

/// A file has one image at most, whatever its format.
pub fn one_image()
    ensures { (b : List ℕ) (i j : Image) → Reads b i → Reads b j → i ≡ j }
{}
