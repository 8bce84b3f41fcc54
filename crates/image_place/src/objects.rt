//! The objects that files are, all of one format.

ghost use Rattle.std.specs.Prelude.{◌≡◌, length, IfOk, IfErr, OnOk, map};
ghost use Rattle.image_place.specs.Placed.{AreOfBytes, AreViewed, fits_format, is_same_format};
ghost use Rattle.image_place.specs.Views.{TellsUnread};

use crate::error::PlaceError;
use image_read::ReadError;
use image_view::{View, object_view};
use std::alloc::Global;

/// The views of files that are x86_64 objects of one format. NoReading of the first that isn't one, or is of another
/// format than the first file.
pub fn object_views<'a>(alloc: Global, files: &'a [Vec<u8>]) -> Result<Vec<View<'a>>, PlaceError>
    ensures ok { IfOk result (λ views. AreViewed (map (λ b. b.items) files.now) views.items) }
    ensures cause { IfErr result (TellsUnread (map (λ b. b.items) files.now)) }
    ensures bytes { OnOk result (AreOfBytes (map (λ b. b.items) files.now) (length files.now)) }
{
    let mut views = Vec::new(alloc);
    for (image, bytes) in files.iter().enumerate() {
        let view = match object_view(alloc, bytes) {
            Ok(view) => view,
            Err(ReadError::NoReading) => return Err(PlaceError::NoReading { image }),
            Err(ReadError::OutOfMemory) => return Err(PlaceError::OutOfMemory),
        };
        if !fits_format(&views, &view) {
            return Err(PlaceError::NoReading { image });
        }
        views.push(view)?;
    }
    Ok(views)
}

// Whether a view has the format of the first one.
fn fits_format(views: &[View<'_>], view: &View<'_>) -> bool
    ensures { result ≡ fits_format views.now view.now }
{
    match views.first() {
        Some(first) => is_same_format(first, view),
        None => true,
    }
}

fn is_same_format(first: &View<'_>, view: &View<'_>) -> bool
    ensures { result ≡ is_same_format first.now view.now }
{
    if first.is_elf() {
        view.is_elf()
    } else {
        !view.is_elf()
    }
}
