//! Refusals of images that are read.

ghost use Rattle.std.specs.Prelude.{◌≡◌, Some};
ghost use Rattle.image_place.specs.Faults.{fault_told};

use crate::error::PlaceError;

/// Why images that are read are not placed. Images count from 0, symbols by row.
#[derive(Clone, Copy)]
pub enum PlaceFault {
    DefinedTwice { image: usize, symbol: u32 },
    NoAddress { image: usize, symbol: u32 },
    OtherKind { image: usize, number: u32 },
    LooseLabel { image: usize, symbol: u32 },
    DoesNotFit { image: usize, offset: u64 },
}

/// The error that tells a fault.
pub fn error_of(fault: PlaceFault) -> PlaceError
    ensures { fault_told result ≡ Some fault }
{
    match fault {
        PlaceFault::DefinedTwice { image, symbol } => PlaceError::DefinedTwice { image, symbol },
        PlaceFault::NoAddress { image, symbol } => PlaceError::NoAddress { image, symbol },
        PlaceFault::OtherKind { image, number } => PlaceError::OtherKind { image, number },
        PlaceFault::LooseLabel { image, symbol } => PlaceError::LooseLabel { image, symbol },
        PlaceFault::DoesNotFit { image, offset } => PlaceError::DoesNotFit { image, offset },
    }
}
