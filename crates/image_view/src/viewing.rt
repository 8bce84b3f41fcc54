//! The views of images and files.

ghost use Rattle.std.specs.Prelude.{◌≡◌, ◌<◌, ◌^◌, length, IfOk, IfErr};
ghost use Rattle.std.specs.List.{All};
ghost use Rattle.image_view.specs.View.{view_of};
ghost use Rattle.image_view.specs.Viewed.{ExplainsView, IsViewed};

use crate::elf::elf_view;
use crate::mach::mach_view;
use crate::view::View;
use image_read::{Image, ReadError, read_image};
use std::alloc::{AllocError, Global};

const EM_X86_64: u16 = 62;

const CPU_TYPE_X86_64: u32 = 0x0100_0007;

/// The view of an image of an x86_64 object, None of any other.
pub fn view_of<'a>(alloc: Global, image: &Image<'a>) -> Result<Option<View<'a>>, AllocError>
    ensures { IfOk result (λ view. view ≡ view_of image.now) }
{
    match image {
        Image::Elf(elf) => {
            if elf.machine() != EM_X86_64 {
                return Ok(None);
            }
            let view = elf_view(alloc, elf)?;
            Ok(Some(view))
        }
        Image::Mach(mach) => {
            if mach.cputype() != CPU_TYPE_X86_64 {
                return Ok(None);
            }
            let view = mach_view(alloc, mach)?;
            Ok(Some(view))
        }
        Image::Fat(_) => Ok(None),
    }
}

/// The view of a file that is an x86_64 object. NoReading where it isn't one.
#[tactic(auto, using(crate::proofs::ViewedLaws::no_object, crate::proofs::ViewedLaws::no_reading, crate::proofs::ViewedLaws::is_viewed))]
pub fn object_view<'a>(alloc: Global, bytes: &'a [u8]) -> Result<View<'a>, ReadError>
    ensures ok { IfOk result (λ view. IsViewed bytes.now view) }
    ensures cause { IfErr result (ExplainsView bytes.now) }
    ensures bytes { All (λ x. x < 256) bytes.now }
    ensures short { length bytes.now < 2 ^ 64 }
{
    let image = read_image(alloc, bytes)?;
    match view_of(alloc, &image)? {
        Some(view) => Ok(view),
        None => Err(ReadError::NoReading),
    }
}
