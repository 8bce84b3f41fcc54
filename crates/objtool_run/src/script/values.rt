//! Readers of JSON values that several objects have.

ghost use Rattle.serde_json.specs.Find.{as_str};
ghost use Rattle.serde_json.specs.View.{view, items_view};
ghost use Rattle.json_form.specs.Form.{Gives};
ghost use Rattle.objtool_run.specs.ValueForm.{list_at, pair_of};

use json_form::{FormError, has_item, u32_in};
use serde_json::Value;

/// The text that a value is.
pub fn text_of(value: &Value) -> Result<&str, FormError>
    ensures { Gives (λ s. s.now) result (as_str (view value.now)) }
{
    value.as_str().ok_or(FormError::NotForm)
}

/// The values of the list under a key, none where there is no such key.
pub fn list_at<'a>(value: &'a Value, key: &str) -> Result<&'a [Value], FormError>
    ensures { Gives (λ v. items_view v.now) result (list_at key.now (view value.now)) }
{
    match value.get(key) {
        Some(list) => match list.as_array() {
            Some(values) => Ok(values.as_slice()),
            None => Err(FormError::NotForm),
        },
        None => Ok(&[]),
    }
}

/// Two numbers of 32 bits.
#[tactic(auto, unfolding(crate::specs::ValueForm::pair_of))]
pub fn pair_of(value: &Value) -> Result<(u32, u32), FormError>
    ensures { Gives (λ pair. pair) result (pair_of (view value.now)) }
{
    if has_item(value, 2) {
        return Err(FormError::NotForm);
    }
    let first = u32_in(value, 0)?;
    let second = u32_in(value, 1)?;
    Ok((first, second))
}
