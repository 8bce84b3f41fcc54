//! Why a file isn't read.

ghost use Rattle.std.specs.Prelude.{◌≡◌};
ghost use Rattle.image_read.specs.declared.error.ReadError.TheVariants.{OutOfMemory};

use std::alloc::{AllocError, AllocFailed};

/// Why the bytes of a file give no image.
#[derive(Clone, Copy, Debug, PartialEq, Eq)]
pub enum ReadError {
    /// No format reads them.
    NoReading,
    OutOfMemory,
}

impl From<AllocError> for ReadError {
    ghost from_gives = { λ _ error. error ≡ OutOfMemory };

    fn from(_error: AllocError) -> ReadError {
        ReadError::OutOfMemory
    }
}

impl<T: Drop> From<AllocFailed<T>> for ReadError {
    ghost from_gives = { λ _ error. error ≡ OutOfMemory };

    fn from(_failed: AllocFailed<T>) -> ReadError {
        ReadError::OutOfMemory
    }
}
