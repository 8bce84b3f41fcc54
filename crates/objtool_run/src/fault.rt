//! Why the program ends without its output.

ghost use Rattle.std.specs.Prelude.{◌≡◌};
ghost use Rattle.objtool_run.specs.Fault.{code_of, text_of, input_fault};
ghost use Rattle.objtool_run.specs.declared.fault.Fault.TheVariants.{OutOfMemory};

use crate::input::InputError;
use std::alloc::{AllocError, AllocFailed};

/// Why the program ends without its output. Each fault has an exit status and a fault text.
#[derive(Debug, Drop)]
pub enum Fault {
    /// The library refused the input; it keeps the whole fault text. Status 1.
    Refused(String),
    /// The words name no command. Status 2.
    BadWords,
    /// A read failed. Status 3.
    ReadFailed,
    /// A write failed. Status 4.
    WriteFailed,
    /// Status 5.
    OutOfMemory,
    /// The input has no reading. Status 6.
    NotUnderstood,
    /// The input has more bytes than the limit. Status 7.
    TooLong,
}

impl Fault {
    ghost use Rattle.objtool_run.specs.Fault.{code_of, text_of};

    /// The exit status, 1 to 7.
    pub fn code(&self) -> u8
        ensures { result ≡ code_of self.now }
    {
        match self {
            Fault::Refused(_) => 1,
            Fault::BadWords => 2,
            Fault::ReadFailed => 3,
            Fault::WriteFailed => 4,
            Fault::OutOfMemory => 5,
            Fault::NotUnderstood => 6,
            Fault::TooLong => 7,
        }
    }

    /// The fault text, with its newline.
    pub fn text(&self) -> &[u8]
        ensures { result.now ≡ text_of self.now }
    {
        match self {
            Fault::Refused(text) => text.as_bytes(),
            Fault::BadWords => b"words not understood\n",
            Fault::ReadFailed => b"reading failed\n",
            Fault::WriteFailed => b"writing failed\n",
            Fault::OutOfMemory => b"out of memory\n",
            Fault::NotUnderstood => b"input not understood\n",
            Fault::TooLong => b"input too long\n",
        }
    }
}

impl From<AllocError> for Fault {
    ghost from_gives = { λ _ fault. fault ≡ OutOfMemory };

    fn from(_error: AllocError) -> Fault {
        Fault::OutOfMemory
    }
}

impl<T: Drop> From<AllocFailed<T>> for Fault {
    ghost from_gives = { λ _ fault. fault ≡ OutOfMemory };

    fn from(_error: AllocFailed<T>) -> Fault {
        Fault::OutOfMemory
    }
}

impl From<InputError> for Fault {
    ghost from_gives = { λ error fault. fault ≡ input_fault error };

    fn from(error: InputError) -> Fault {
        match error {
            InputError::Failed => Fault::ReadFailed,
            InputError::TooLong => Fault::TooLong,
            InputError::OutOfMemory => Fault::OutOfMemory,
        }
    }
}
