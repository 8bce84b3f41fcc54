//! Pieces of JSON texts: numbers, truth values, bytes in hexadecimal, and commas.

ghost use Rattle.std.specs.Prelude.{◌≡◌, ◌<◌, ◌++◌, ◌*◌, length, slice_index, OnOk};
ghost use Rattle.std.specs.List.{All};
ghost use Rattle.hex.specs.Hex.{encode_lower, lower_digits};
ghost use Rattle.serde_json.specs.Written.{compact_text, comma_if};
ghost use Rattle.json_form.specs.Written.{number_value};
ghost use Rattle.image_json.specs.RowJson.{hex_value, integer_value, flag_value, next_flag, next_numbers};

use std::alloc::AllocError;

/// Appends a number in decimal digits.
#[tactic(auto, using(crate::proofs::Digits::one_digit))]
pub(crate) fn push_number(out: &mut Vec<u8>, number: u64) -> Result<(), AllocError>
    ensures { OnOk result (out.new.items ≡ out.old.items ++ compact_text (number_value number)) }
{
    // Most numbers of a table have one digit.
    if number < 10 {
        out.push(b'0' + number as u8)?;
        return Ok(());
    }
    let mut buffer = itoa::Buffer::new();
    out.extend_from_slice(buffer.format(number).as_bytes())?;
    Ok(())
}

/// Appends a number that may be below zero.
pub(crate) fn push_integer(out: &mut Vec<u8>, number: i64) -> Result<(), AllocError>
    ensures { OnOk result (out.new.items ≡ out.old.items ++ compact_text (integer_value number)) }
{
    let mut buffer = itoa::Buffer::new();
    out.extend_from_slice(buffer.format(number).as_bytes())?;
    Ok(())
}

/// Appends a truth value behind a comma.
pub(crate) fn push_next_flag(out: &mut Vec<u8>, flag: bool) -> Result<(), AllocError>
    ensures { OnOk result (out.new.items ≡ out.old.items ++ next_flag flag) }
{
    out.push(b',')?;
    push_flag(out, flag)
}

/// Appends a truth value.
pub(crate) fn push_flag(out: &mut Vec<u8>, flag: bool) -> Result<(), AllocError>
    ensures { OnOk result (out.new.items ≡ out.old.items ++ compact_text (flag_value flag)) }
{
    if flag {
        out.extend_from_slice(b"true")
    } else {
        out.extend_from_slice(b"false")
    }
}

/// Appends bytes as a text of two lower-case hexadecimal digits each.
pub(crate) fn push_hex(out: &mut Vec<u8>, bytes: &[u8]) -> Result<(), AllocError>
    ensures { OnOk result (out.new.items ≡ out.old.items ++ compact_text (hex_value bytes.now)) }
{
    out.push(b'"')?;
    push_digits(out, bytes)?;
    out.push(b'"')?;
    Ok(())
}

/// Appends the digits of bytes.
fn push_digits(out: &mut Vec<u8>, bytes: &[u8]) -> Result<(), AllocError>
    ensures digits { OnOk result (out.new.items ≡ out.old.items ++ encode_lower bytes.now) }
    ensures are_bytes { All (λ x. x < 256) bytes.now }
{
    let start = out.len();
    let Some(end) = start.checked_add(2 * bytes.len()) else {
        return Err(AllocError);
    };
    out.resize(end, 0)?;
    place_digits(&mut out[start..], bytes);
    Ok(())
}

/// Writes two digits for each byte, the high four bits first.
fn place_digits(out: &mut [u8], bytes: &[u8])
    requires { length out.old ≡ 2 * length bytes.now }
    ensures { out.new ≡ encode_lower bytes.now }
{
    'bytes: for i in 0..bytes.len() {
        let byte = bytes[i];
        out[2 * i] = digit(byte / 16);
        out[2 * i + 1] = digit(byte % 16);
    }
}

/// The digit of a number below 16. It is computed and not looked up, so that a loop over bytes takes many at a time.
#[tactic(auto, using(crate::proofs::Digits::low_digit, crate::proofs::Digits::high_digit))]
fn digit(number: u8) -> u8
    requires { number < 16 }
    ensures { result ≡ slice_index lower_digits number }
{
    if number < 10 {
        number + b'0'
    } else {
        number + (b'a' - 10)
    }
}

/// Appends numbers, each behind a comma.
pub(crate) fn push_numbers(out: &mut Vec<u8>, numbers: &[u64]) -> Result<(), AllocError>
    ensures { OnOk result (out.new.items ≡ out.old.items ++ next_numbers numbers.now) }
{
    for number in numbers {
        out.push(b',')?;
        push_number(out, *number)?;
    }
    Ok(())
}

/// Appends a comma where something stands before.
pub(crate) fn push_comma(out: &mut Vec<u8>, is_later: bool) -> Result<(), AllocError>
    ensures { OnOk result (out.new.items ≡ out.old.items ++ comma_if is_later) }
{
    if is_later {
        out.push(b',')?;
    }
    Ok(())
}
