//! Why the bytes of a Mach-O file can't be read.

ghost use Rattle.std.specs.Prelude.{◌≡◌};
ghost use Rattle.goblin_mach.specs.declared.mach_error.Error.TheVariants.{OutOfMemory};

use std::alloc::{AllocError, AllocFailed};

/// Why the bytes of a Mach-O file can't be read.
#[derive(Clone, Copy, Debug, PartialEq, Eq, thiserror::Error)]
pub enum Error {
    /// The file begins with a number that no Mach-O file begins with. It keeps that number.
    #[error("unknown magic number: {0:#x}")]
    BadMagic(u64),
    /// The bytes end before the field or the entry.
    #[error("the bytes end too early")]
    BufferTooShort,
    #[error("out of memory")]
    OutOfMemory,
}

impl From<AllocError> for Error {
    ghost from_gives = { λ _ error. error ≡ OutOfMemory };

    fn from(_error: AllocError) -> Error {
        Error::OutOfMemory
    }
}

impl<T: Drop> From<AllocFailed<T>> for Error {
    ghost from_gives = { λ _ error. error ≡ OutOfMemory };

    fn from(_error: AllocFailed<T>) -> Error {
        Error::OutOfMemory
    }
}
