//! Why nothing is placed.

ghost use Rattle.std.specs.Prelude.{◌≡◌};
ghost use Rattle.image_place.specs.declared.error.PlaceError.TheVariants.{OutOfMemory};

use std::alloc::{AllocError, AllocFailed};
use std::fmt;

/// Why nothing is placed: the first of these causes, in this order but for NoAddress, which comes again after OtherKind.
/// Images count from 0, symbols by row.
#[derive(Clone, Copy, PartialEq, Eq)]
pub enum PlaceError {
    /// The image is no x86_64 ELF or Mach-O object, or not of the first image's format.
    NoReading { image: usize },
    /// A definition beyond Local has a name that one before it has.
    DefinedTwice { image: usize, symbol: u32 },
    /// A definition has no address, or its range leaves its section or the memory. After these: the field of a
    /// relocation of this symbol lies in no definition's range, or its name has no address.
    NoAddress { image: usize, symbol: u32 },
    /// A relocation of this number, which is not applied.
    OtherKind { image: usize, number: u32 },
    /// A relocation of a label that lies in no definition's range.
    LooseLabel { image: usize, symbol: u32 },
    /// The value of a relocation at this offset of its section doesn't fit.
    DoesNotFit { image: usize, offset: u64 },
    OutOfMemory,
}

impl From<AllocError> for PlaceError {
    ghost from_gives = { λ _ error. error ≡ OutOfMemory };

    fn from(_error: AllocError) -> PlaceError {
        PlaceError::OutOfMemory
    }
}

impl<T: Drop> From<AllocFailed<T>> for PlaceError {
    ghost from_gives = { λ _ error. error ≡ OutOfMemory };

    fn from(_failed: AllocFailed<T>) -> PlaceError {
        PlaceError::OutOfMemory
    }
}

impl fmt::Display for PlaceError {
    ghost use Rattle.std.specs.Prelude.{Some};
    ghost use Rattle.image_place.specs.Texts.{place_text};

    ghost output = { λ error. Some (place_text error) };

    fn fmt<W: fmt::Write>(&self, f: &mut fmt::Formatter<W>) -> fmt::Result {
        match self {
            PlaceError::NoReading { image } => write!(f, "image {image}: no reading"),
            PlaceError::DefinedTwice { image, symbol } => {
                write!(f, "image {image} symbol {symbol}: defined twice")
            }
            PlaceError::NoAddress { image, symbol } => {
                write!(f, "image {image} symbol {symbol}: no address")
            }
            PlaceError::OtherKind { image, number } => {
                write!(f, "image {image} kind {number}: not applied")
            }
            PlaceError::LooseLabel { image, symbol } => {
                write!(f, "image {image} symbol {symbol}: loose label")
            }
            PlaceError::DoesNotFit { image, offset } => {
                write!(f, "image {image} offset {offset}: does not fit")
            }
            PlaceError::OutOfMemory => f.write_str("out of memory"),
        }
    }
}
