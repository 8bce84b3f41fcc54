//! Why a value has no answer.

ghost use Rattle.std.specs.Prelude.{◌≡◌};
ghost use Rattle.pe_json.specs.Answers.{form_cause, reader_cause};
ghost use Rattle.pe_json.specs.declared.unanswered.Unanswered.TheVariants.{OutOfMemory};

use json_form::FormError;
use pe_core::pe_error::Error;
use std::alloc::{AllocError, AllocFailed};

/// Why a value has no answer.
#[derive(Clone, Copy, Debug, PartialEq, Eq)]
pub enum Unanswered {
    /// The value isn't of the form.
    NotForm,
    /// The reader refuses the file in this way.
    Refused(Error),
    OutOfMemory,
}

impl From<FormError> for Unanswered {
    ghost from_gives = { λ error cause. cause ≡ form_cause error };

    fn from(error: FormError) -> Unanswered {
        match error {
            FormError::NotForm => Unanswered::NotForm,
            FormError::OutOfMemory => Unanswered::OutOfMemory,
        }
    }
}

impl From<Error> for Unanswered {
    ghost from_gives = { λ error cause. cause ≡ reader_cause error };

    fn from(error: Error) -> Unanswered {
        match error {
            Error::Malformed(case) => Unanswered::Refused(Error::Malformed(case)),
            Error::BufferTooShort => Unanswered::Refused(Error::BufferTooShort),
            Error::OutOfMemory => Unanswered::OutOfMemory,
        }
    }
}

impl From<AllocError> for Unanswered {
    ghost from_gives = { λ _ cause. cause ≡ OutOfMemory };

    fn from(_error: AllocError) -> Unanswered {
        Unanswered::OutOfMemory
    }
}

impl<T: Drop> From<AllocFailed<T>> for Unanswered {
    ghost from_gives = { λ _ cause. cause ≡ OutOfMemory };

    fn from(_error: AllocFailed<T>) -> Unanswered {
        Unanswered::OutOfMemory
    }
}
