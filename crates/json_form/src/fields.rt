//! The members of a JSON object, by their keys. Each answers `NotForm` where the value isn't an object, lacks the key,
//! or has a value of another kind under it.

ghost use Rattle.std.specs.Prelude.{◌≡◌, map, option_map, string_bytes};
ghost use Rattle.std.specs.List.{list_all, list_any};
ghost use Rattle.std.specs.Str.{bytes_eq};
ghost use Rattle.std.specs.BTreeMap.{keys as map_keys};
ghost use Rattle.serde_json.specs.Find.{get};
ghost use Rattle.serde_json.specs.View.{view, items_view, members_view};
ghost use Rattle.json_form.specs.Form.{Gives, has_keys_within, text_at, number_at, items_at, u32_at, mark_at, mark_or, text_or_null, name_at, hex_at};

use crate::form_error::FormError;
use hex::FromHexError;
use serde_json::{Map, Value};
use std::alloc::Global;

/// The value under a key.
pub fn value_at<'a>(value: &'a Value, key: &str) -> Result<&'a Value, FormError>
    ensures { Gives (λ v. view v.now) result (get key.now (view value.now)) }
{
    value.get(key).ok_or(FormError::NotForm)
}

/// The text under a key.
pub fn text_at<'a>(value: &'a Value, key: &str) -> Result<&'a str, FormError>
    ensures { Gives (λ s. s.now) result (text_at key.now (view value.now)) }
{
    value
        .get(key)
        .and_then(Value::as_str)
        .ok_or(FormError::NotForm)
}

/// The unsigned integer of at most 64 bits under a key.
pub fn number_at(value: &Value, key: &str) -> Result<u64, FormError>
    ensures { Gives (λ n. n) result (number_at key.now (view value.now)) }
{
    value
        .get(key)
        .and_then(Value::as_u64)
        .ok_or(FormError::NotForm)
}

/// The list under a key.
pub fn items_at<'a>(value: &'a Value, key: &str) -> Result<&'a Vec<Value>, FormError>
    ensures { Gives (λ v. items_view v.now.items) result (items_at key.now (view value.now)) }
{
    value
        .get(key)
        .and_then(Value::as_array)
        .ok_or(FormError::NotForm)
}

/// The unsigned integer of at most 32 bits under a key.
pub fn u32_at(value: &Value, key: &str) -> Result<u32, FormError>
    ensures { Gives (λ n. n) result (u32_at key.now (view value.now)) }
{
    let n = number_at(value, key)?;
    u32::try_from(n).map_err(|_| FormError::NotForm)
}

/// The truth value under a key.
pub fn mark_at(value: &Value, key: &str) -> Result<bool, FormError>
    ensures { Gives (λ b. b) result (mark_at key.now (view value.now)) }
{
    value
        .get(key)
        .and_then(Value::as_bool)
        .ok_or(FormError::NotForm)
}

/// The truth value under a key, or `missing` where the object lacks the key.
pub fn mark_or(value: &Value, key: &str, missing: bool) -> Result<bool, FormError>
    ensures { Gives (λ b. b) result (mark_or key.now missing (view value.now)) }
{
    match value.get(key) {
        Some(mark) => mark.as_bool().ok_or(FormError::NotForm),
        None => Ok(missing),
    }
}

/// The text that a value is, or none where it is null.
fn text_or_null(alloc: Global, value: &Value) -> Result<Option<String>, FormError>
    ensures { Gives (option_map string_bytes) result (text_or_null (view value.now)) }
{
    if value.is_null() {
        return Ok(None);
    }
    match value.as_str() {
        Some(text) => Ok(Some(String::from_str(alloc, text)?)),
        None => Err(FormError::NotForm),
    }
}

/// The text under a key, or none where null is there.
pub fn name_at(alloc: Global, value: &Value, key: &str) -> Result<Option<String>, FormError>
    ensures { Gives (option_map string_bytes) result (name_at key.now (view value.now)) }
{
    match value.get(key) {
        Some(name) => text_or_null(alloc, name),
        None => Err(FormError::NotForm),
    }
}

/// The bytes of the hexadecimal text under a key, in digits of either case.
pub fn hex_at(alloc: Global, value: &Value, key: &str) -> Result<Vec<u8>, FormError>
    ensures { Gives (λ v. v.items) result (hex_at key.now (view value.now)) }
{
    match hex::decode(alloc, text_at(value, key)?) {
        Ok(bytes) => Ok(bytes),
        Err(FromHexError::OutOfMemory) => Err(FormError::OutOfMemory),
        Err(_) => Err(FormError::NotForm),
    }
}

/// The text is one of these keys.
fn is_among(key: &str, keys: &[&str]) -> bool
    ensures { result ≡ list_any (λ k. bytes_eq key.now k.now) keys.now }
{
    keys.iter().any(|k| key == *k)
}

/// Each member's key is one of these keys.
fn are_among(members: &Map<String, Value>, keys: &[&str]) -> bool
    ensures { result ≡ list_all (λ key. list_any (λ k. bytes_eq (string_bytes key) k.now) keys.now) (map_keys members.now) }
{
    members.keys().all(|key| is_among(key.as_str(), keys))
}

/// Whether the value is an object without other keys.
pub fn has_keys_within(value: &Value, keys: &[&str]) -> bool
    ensures { result ≡ has_keys_within (map (λ k. k.now) keys.now) (view value.now) }
{
    match value.as_object() {
        Some(members) => are_among(members, keys),
        None => false,
    }
}
