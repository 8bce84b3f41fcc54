//! The bytes that a signature covers.

ghost use Rattle.std.specs.Prelude.{◌≡◌, Some, IfOk};
ghost use Rattle.std.specs.List.{concat};
ghost use Rattle.serde_json.specs.View.{view};
ghost use Rattle.json_form.specs.Form.{Gives};
ghost use Rattle.pe_core.specs.Steps.{GivesOrMemory};
ghost use Rattle.pe_json.specs.Answers.{Answers};
ghost use Rattle.pe_json.specs.Inputs.{range_of, places_of, excluded_of, signed_input};
ghost use Rattle.pe_json.specs.Views.{signed_view};
ghost use Rattle.pe_json.specs.Signed.{signed_hex, signed_answer, signed_reply};

use crate::image::sections_at;
use crate::unanswered::Unanswered;
use json_form::{FormError, has_item, has_keys_within, hex_at, number_at, number_in, value_at};
use pe_core::pe_error::Error;
use pe_core::section_table::SectionTable;
use pe_signed::authenticode::{ExcludedSections, ExcludedSectionsIter, PE};
use serde_json::Value;
use std::alloc::{AllocError, Global};
use std::ops::Range;

/// A file, its section table, and the places that its signature leaves out where they are known.
#[derive(Debug, Drop)]
struct SignedInput {
    bytes: Vec<u8>,
    sections: Vec<SectionTable>,
    excluded: Option<ExcludedSections>,
}

/// A range of offsets, from the first up to the second.
#[tactic(auto, unfolding(crate::specs::Inputs::range_of))]
fn range_of(value: &Value) -> Result<Range<usize>, FormError>
    ensures { Gives (λ r. r) result (range_of (view value.now)) }
{
    if has_item(value, 2) {
        return Err(FormError::NotForm);
    }
    let start = number_in(value, 0)? as usize;
    let end = number_in(value, 1)? as usize;
    Ok(start..end)
}

/// The places that a signature leaves out.
#[tactic(auto, unfolding(crate::specs::Inputs::places_of))]
fn places_of(value: &Value) -> Result<ExcludedSections, FormError>
    ensures { Gives (λ e. e) result (places_of (view value.now)) }
{
    if !has_keys_within(
        value,
        &[
            "checksum",
            "certificate_entry",
            "certificate_size",
            "header_end",
        ],
    ) {
        return Err(FormError::NotForm);
    }
    let checksum = range_of(value_at(value, "checksum")?)?;
    let datadir_entry_certtable = range_of(value_at(value, "certificate_entry")?)?;
    let certificate_table_size = number_at(value, "certificate_size")? as usize;
    let end_image_header = number_at(value, "header_end")? as usize;
    Ok(ExcludedSections {
        checksum,
        datadir_entry_certtable,
        certificate_table_size,
        end_image_header,
    })
}

/// The places that a signature leaves out, or none where the value is null.
fn excluded_of(value: &Value) -> Result<Option<ExcludedSections>, FormError>
    ensures { Gives (λ e. e) result (excluded_of (view value.now)) }
{
    if value.is_null() {
        return Ok(None);
    }
    match places_of(value) {
        Ok(places) => Ok(Some(places)),
        Err(error) => Err(error),
    }
}

#[tactic(auto, unfolding(crate::specs::Inputs::signed_input))]
fn signed_input(alloc: Global, value: &Value) -> Result<SignedInput, FormError>
    ensures { Gives signed_view result (signed_input (view value.now)) }
{
    if !has_keys_within(value, &["bytes", "sections", "excluded"]) {
        return Err(FormError::NotForm);
    }
    let bytes = hex_at(alloc, value, "bytes")?;
    let sections = sections_at(alloc, value, "sections")?;
    let excluded = excluded_of(value_at(value, "excluded")?)?;
    Ok(SignedInput {
        bytes,
        sections,
        excluded,
    })
}

/// The ranges that are left, one behind the other.
fn joined(alloc: Global, mut ranges: ExcludedSectionsIter<'_>) -> Result<Vec<u8>, AllocError>
    ensures { IfOk result (λ bytes. bytes.items ≡ concat ranges.entry) }
{
    let mut bytes = Vec::new(alloc);
    while let Some(range) = ranges.next() {
        bytes.extend_from_slice(range)?;
    }
    Ok(bytes)
}

/// The signed bytes of a file, in hexadecimal.
#[tactic(auto, unfolding(crate::specs::Signed::signed_hex))]
fn signed_hex(alloc: Global, input: SignedInput) -> Result<Vec<u8>, Error>
    ensures { GivesOrMemory (λ v. v.items) result (signed_hex (signed_view input)) }
{
    let file = PE::new(&input.bytes, &input.sections, input.excluded);
    let bytes = joined(alloc, file.authenticode_ranges()?)?;
    Ok(hex::encode(alloc, &bytes)?.into_bytes())
}

fn signed_answer(alloc: Global, input: SignedInput) -> Result<Vec<u8>, Unanswered>
    ensures { Answers (λ v. v.items) result (Some (signed_answer (signed_view input))) }
{
    match signed_hex(alloc, input) {
        Ok(text) => Ok(text),
        Err(error) => Err(Unanswered::from(error)),
    }
}

/// The bytes that a signature covers, in lower-case hexadecimal, for an object with the keys `bytes` (hexadecimal), `sections`
/// (a list of `[virtual_address, virtual_size, pointer, raw size]`) and `excluded` (null, or an object with the keys
/// `checksum` and `certificate_entry`, each `[start, end]`, `certificate_size` and `header_end`).
pub fn signed_text(alloc: Global, value: &Value) -> Result<Vec<u8>, Unanswered>
    ensures { Answers (λ v. v.items) result (signed_reply (view value.now)) }
{
    match signed_input(alloc, value) {
        Ok(input) => signed_answer(alloc, input),
        Err(error) => Err(Unanswered::from(error)),
    }
}
