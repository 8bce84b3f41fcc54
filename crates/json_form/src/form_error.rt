//! Why a JSON value gives nothing.

ghost use Rattle.std.specs.Prelude.{◌≡◌};
ghost use Rattle.json_form.specs.declared.form_error.FormError.TheVariants.{NotForm, OutOfMemory};

use std::alloc::{AllocError, AllocFailed};

/// Why a JSON value gives nothing.
#[derive(Clone, Copy, Debug, PartialEq, Eq)]
pub enum FormError {
    /// The value isn't of the form.
    NotForm,
    OutOfMemory,
}

impl From<AllocError> for FormError {
    ghost from_gives = { λ _ error. error ≡ OutOfMemory };

    fn from(_error: AllocError) -> FormError {
        FormError::OutOfMemory
    }
}

impl<T: Drop> From<AllocFailed<T>> for FormError {
    ghost from_gives = { λ _ error. error ≡ OutOfMemory };

    fn from(_error: AllocFailed<T>) -> FormError {
        FormError::OutOfMemory
    }
}
