//! Pieces of which JSON values are made.

ghost use Rattle.std.specs.Prelude.{◌≡◌, map, IfOk, IsTrue};
ghost use Rattle.std.specs.Option.{option_copied};
ghost use Rattle.serde_json.specs.View.{view, members_view};
ghost use Rattle.json_form.specs.Written.{number_value, number_or_null, hex_or_null, list_value, number_members, are_ascending, number_field};

use serde_json::{Map, Value};
use std::alloc::{AllocError, Global};

/// A member of an object: a number under a key, or null there.
#[derive(Clone, Copy, Debug)]
pub struct NumberMember<'k> {
    pub key: &'k str,
    pub number: Option<u64>,
}

/// A number, or null where there is none.
pub fn number_or_null(number: Option<u64>) -> Value
    ensures { view result ≡ number_or_null number }
{
    match number {
        Some(number) => Value::from(number),
        None => Value::Null,
    }
}

/// Bytes as a text of lower-case hexadecimal digits, or null where there are none.
pub fn hex_or_null(alloc: Global, bytes: Option<&[u8]>) -> Result<Value, AllocError>
    ensures { IfOk result (λ v. view v ≡ hex_or_null (option_copied bytes.entry)) }
{
    match bytes {
        Some(bytes) => Ok(Value::String(hex::encode(alloc, bytes)?)),
        None => Ok(Value::Null),
    }
}

/// A list of numbers.
pub fn numbers_value(alloc: Global, numbers: &[u64]) -> Result<Value, AllocError>
    ensures { IfOk result (λ v. view v ≡ list_value number_value numbers.now) }
{
    let mut values = Vec::new(alloc);
    for number in numbers {
        values.push(Value::from(*number))?;
    }
    Ok(Value::Array(values))
}

/// The members of an object of numbers, whose keys ascend by their bytes.
pub fn numbers_object(
    alloc: Global,
    members: &[NumberMember<'_>],
) -> Result<Map<String, Value>, AllocError>
    requires { IsTrue (are_ascending (map number_field members.now)) }
    ensures { IfOk result (λ object. members_view object.entries ≡ number_members (map number_field members.now)) }
{
    let mut object = Map::new(alloc);
    let mut left = members.len();
    'putting: while left > 0 {
        left -= 1;
        let number = number_or_null(members[left].number);
        serde_json::put(&mut object, alloc, members[left].key, number)?;
    }
    Ok(object)
}
