//! Why a JSON value is read as no declarations.

ghost use Rattle.std.specs.Prelude.{◌≡◌, Some};
ghost use Rattle.cranelift_module.specs.declared.declaration_json.cause.JsonCause.TheVariants.{Allocation};
ghost use Rattle.cranelift_module.specs.JsonTexts.{cause_of, json_cause_text};

use json_form::FormError;
use std::alloc::{AllocError, AllocFailed};
use std::error::Error;
use std::fmt;

/// Why a JSON value is read as no declarations: the first cause that holds. They are looked for in this
/// order: the value's kind, the marker of the version, the functions, the data objects, the names.
#[derive(Clone, Copy, Debug, PartialEq, Eq)]
pub enum JsonCause {
    /// The outer object lacks the marker of the version, the functions or the data objects.
    MissingKey,
    /// A value is of another kind, a text is no word of its list, or an inner object has other keys
    /// than its own.
    WrongShape,
    /// The text of the marker is that of another version.
    OtherVersion,
    /// Two of the functions and data objects have one name.
    DuplicateName,
    /// Want of memory, or more entries than there are identifiers.
    Allocation,
}

impl From<AllocError> for JsonCause {
    ghost from_gives = { λ _ cause. cause ≡ Allocation };

    fn from(_error: AllocError) -> Self {
        JsonCause::Allocation
    }
}

impl<T: Drop> From<AllocFailed<T>> for JsonCause {
    ghost from_gives = { λ _ cause. cause ≡ Allocation };

    fn from(_error: AllocFailed<T>) -> Self {
        JsonCause::Allocation
    }
}

impl From<FormError> for JsonCause {
    ghost from_gives = { λ error cause. cause ≡ cause_of error };

    fn from(error: FormError) -> Self {
        match error {
            FormError::NotForm => JsonCause::WrongShape,
            FormError::OutOfMemory => JsonCause::Allocation,
        }
    }
}

impl fmt::Display for JsonCause {
    ghost output = { λ cause. Some (json_cause_text cause) };

    fn fmt<W: fmt::Write>(&self, f: &mut fmt::Formatter<W>) -> fmt::Result {
        f.write_str(match self {
            JsonCause::MissingKey => "missing key",
            JsonCause::WrongShape => "wrong shape",
            JsonCause::OtherVersion => "other version",
            JsonCause::DuplicateName => "duplicate name",
            JsonCause::Allocation => "out of memory",
        })
    }
}

impl Error for JsonCause {}
