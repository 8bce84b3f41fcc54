//! The values of a JSON list, by their places from 0 on. Each answers `NotForm` where the value isn't a list, has nothing
//! at that place, or a value of another kind there.

ghost use Rattle.std.specs.Prelude.{◌≡◌};
ghost use Rattle.serde_json.specs.View.{view};
ghost use Rattle.json_form.specs.Form.{Gives, number_of, number_in, u32_in, has_item};

use crate::form_error::FormError;
use serde_json::Value;

/// The unsigned integer of at most 64 bits that a value is.
pub fn number_of(value: &Value) -> Result<u64, FormError>
    ensures { Gives (λ n. n) result (number_of (view value.now)) }
{
    value.as_u64().ok_or(FormError::NotForm)
}

/// The unsigned integer of at most 64 bits at a place.
pub fn number_in(value: &Value, place: usize) -> Result<u64, FormError>
    ensures { Gives (λ n. n) result (number_in place (view value.now)) }
{
    value
        .get(place)
        .and_then(Value::as_u64)
        .ok_or(FormError::NotForm)
}

/// The unsigned integer of at most 32 bits at a place.
pub fn u32_in(value: &Value, place: usize) -> Result<u32, FormError>
    ensures { Gives (λ n. n) result (u32_in place (view value.now)) }
{
    let n = number_in(value, place)?;
    u32::try_from(n).map_err(|_| FormError::NotForm)
}

/// Whether the value is a list that reaches a place.
pub fn has_item(value: &Value, place: usize) -> bool
    ensures { result ≡ has_item place (view value.now) }
{
    value.get(place).is_some()
}
