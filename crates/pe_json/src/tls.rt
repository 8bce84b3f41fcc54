//! Thread-local data.

ghost use Rattle.std.specs.Prelude.{◌≡◌, map, codes, Some, IfOk};
ghost use Rattle.serde_json.specs.View.{view};
ghost use Rattle.json_form.specs.Form.{Gives};
ghost use Rattle.json_form.specs.Written.{number_field};
ghost use Rattle.pe_core.specs.Steps.{GivesOrMemory};
ghost use Rattle.goblin_pe.specs.Tls.{tls_view};
ghost use Rattle.pe_json.specs.Answers.{Answers};
ghost use Rattle.pe_json.specs.Inputs.{tls_input};
ghost use Rattle.pe_json.specs.Views.{based_view};
ghost use Rattle.pe_json.specs.Tls.{tls_numbers, tls_value, tls_json, tls_answer, tls_reply};

use crate::image::{Image, image_of};
use crate::unanswered::Unanswered;
use goblin_pe::TlsData;
use json_form::{
    FormError, NumberMember, has_keys_within, hex_or_null, mark_at, number_at, numbers_object,
    numbers_value,
};
use pe_core::pe_error::Error;
use serde_json::Value;
use std::alloc::{AllocError, Global};

/// A file of 64 or 32 bits, a directory in it, and the address at which the image stands in memory.
#[derive(Debug, Drop)]
struct BasedImage {
    image: Image,
    is_64: bool,
    image_base: u64,
}

#[tactic(auto, unfolding(crate::specs::Inputs::tls_input))]
fn tls_input(alloc: Global, value: &Value) -> Result<BasedImage, FormError>
    ensures { Gives based_view result (tls_input (view value.now)) }
{
    if !has_keys_within(
        value,
        &[
            "image_base",
            "is_64",
            "bytes",
            "directory",
            "sections",
            "file_alignment",
            "resolve_rva",
        ],
    ) {
        return Err(FormError::NotForm);
    }
    let image = image_of(alloc, value)?;
    let is_64 = mark_at(value, "is_64")?;
    let image_base = number_at(value, "image_base")?;
    Ok(BasedImage {
        image,
        is_64,
        image_base,
    })
}

fn member(key: &str, number: u64) -> NumberMember<'_>
    ensures { number_field result ≡ (key.now, Some number) }
{
    NumberMember {
        key,
        number: Some(number),
    }
}

fn slot_member(slot: Option<u32>) -> NumberMember<'static>
    ensures { number_field result ≡ (codes "slot", slot) }
{
    let number = match slot {
        Some(slot) => Some(u64::from(slot)),
        None => None,
    };
    NumberMember {
        key: "slot",
        number,
    }
}

/// The numbers of thread-local data by their names, in the order of their bytes.
#[tactic(auto, unfolding(crate::specs::Tls::tls_numbers))]
fn tls_numbers(tls: &TlsData<'_>) -> [NumberMember<'static>; 7]
    ensures { map number_field result ≡ tls_numbers (tls_view tls.now) }
{
    let directory = tls.image_tls_directory;
    [
        member("callbacks_address", directory.address_of_callbacks),
        member("characteristics", u64::from(directory.characteristics)),
        member("end", directory.end_address_of_raw_data),
        member("index", directory.address_of_index),
        slot_member(tls.slot),
        member("start", directory.start_address_of_raw_data),
        member("zero_fill", u64::from(directory.size_of_zero_fill)),
    ]
}

#[tactic(auto, unfolding(crate::specs::Tls::tls_value), using(crate::proofs::Fields::numbers_ascend))]
fn tls_value(alloc: Global, tls: &TlsData<'_>) -> Result<Value, AllocError>
    ensures { IfOk result (λ v. view v ≡ tls_value (tls_view tls.now)) }
{
    let callbacks = numbers_value(alloc, &tls.callbacks)?;
    let raw = hex_or_null(alloc, tls.raw_data)?;
    let mut members = numbers_object(alloc, &tls_numbers(tls))?;
    serde_json::put(&mut members, alloc, "raw", raw)?;
    serde_json::put(&mut members, alloc, "callbacks", callbacks)?;
    Ok(Value::Object(members))
}

/// The thread-local data that an image's directory names, as a value.
#[tactic(auto, unfolding(crate::specs::Tls::tls_json))]
fn tls_json(alloc: Global, input: &BasedImage) -> Result<Value, Error>
    ensures { GivesOrMemory (λ v. view v) result (tls_json (based_view input.now)) }
{
    let image = &input.image;
    let found = TlsData::parse_with_opts(
        alloc,
        &image.bytes,
        input.image_base,
        &image.directory,
        &image.sections,
        image.file_alignment,
        &image.options,
        input.is_64,
    )?;
    match found {
        Some(tls) => Ok(tls_value(alloc, &tls)?),
        None => Ok(Value::Null),
    }
}

fn tls_answer(alloc: Global, input: &BasedImage) -> Result<Vec<u8>, Unanswered>
    ensures { Answers (λ v. v.items) result (Some (tls_answer (based_view input.now))) }
{
    match tls_json(alloc, input) {
        Ok(value) => Ok(value.to_vec(alloc)?),
        Err(error) => Err(Unanswered::from(error)),
    }
}

/// The thread-local data of a file as JSON, for an object with the keys `bytes` (hexadecimal), `sections` (a list of
/// `[virtual_address, virtual_size, pointer, raw size]`), `directory` (`[address, size]`), `file_alignment`, `is_64`,
/// `image_base` and maybe `resolve_rva`, which is true where it isn't there.
pub fn tls_text(alloc: Global, value: &Value) -> Result<Vec<u8>, Unanswered>
    ensures { Answers (λ v. v.items) result (tls_reply (view value.now)) }
{
    match tls_input(alloc, value) {
        Ok(input) => tls_answer(alloc, &input),
        Err(error) => Err(Unanswered::from(error)),
    }
}
