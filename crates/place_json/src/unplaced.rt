//! Why a value has no text.

ghost use Rattle.std.specs.Prelude.{◌≡◌};
ghost use Rattle.place_json.specs.Outcomes.{form_cause, place_cause};
ghost use Rattle.place_json.specs.declared.unplaced.Unplaced.TheVariants.{OutOfMemory};

use image_place::PlaceError;
use json_form::FormError;
use std::alloc::{AllocError, AllocFailed};

/// Why a value has no text.
#[derive(Clone, Copy, PartialEq, Eq)]
pub enum Unplaced {
    /// The value isn't of the form.
    NotForm,
    /// Placement refuses the objects for this cause, which is never want of memory.
    Refused(PlaceError),
    OutOfMemory,
}

impl From<FormError> for Unplaced {
    ghost from_gives = { λ error cause. cause ≡ form_cause error };

    fn from(error: FormError) -> Unplaced {
        match error {
            FormError::NotForm => Unplaced::NotForm,
            FormError::OutOfMemory => Unplaced::OutOfMemory,
        }
    }
}

impl From<PlaceError> for Unplaced {
    ghost from_gives = { λ error cause. cause ≡ place_cause error };

    fn from(error: PlaceError) -> Unplaced {
        match error {
            PlaceError::OutOfMemory => Unplaced::OutOfMemory,
            error => Unplaced::Refused(error),
        }
    }
}

impl From<AllocError> for Unplaced {
    ghost from_gives = { λ _ cause. cause ≡ OutOfMemory };

    fn from(_error: AllocError) -> Unplaced {
        Unplaced::OutOfMemory
    }
}

impl<T: Drop> From<AllocFailed<T>> for Unplaced {
    ghost from_gives = { λ _ cause. cause ≡ OutOfMemory };

    fn from(_error: AllocFailed<T>) -> Unplaced {
        Unplaced::OutOfMemory
    }
}
