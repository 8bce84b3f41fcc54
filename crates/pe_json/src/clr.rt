//! CLR metadata.

ghost use Rattle.std.specs.Prelude.{◌≡◌, map, Some, IfOk};
ghost use Rattle.std.specs.Option.{option_copied};
ghost use Rattle.serde_json.specs.View.{view};
ghost use Rattle.json_form.specs.Form.{Gives};
ghost use Rattle.pe_core.specs.Steps.{GivesOrMemory};
ghost use Rattle.pe_clr.specs.Clr.{clr_view};
ghost use Rattle.pe_clr.specs.Storage.{stream_view};
ghost use Rattle.pe_json.specs.Answers.{Answers};
ghost use Rattle.pe_json.specs.Inputs.{clr_input};
ghost use Rattle.pe_json.specs.Views.{image_view};
ghost use Rattle.pe_json.specs.Clr.{stream_value, stream_values, clr_value, clr_json, clr_answer, clr_reply};

use crate::image::{Image, image_of};
use crate::unanswered::Unanswered;
use json_form::{FormError, has_keys_within, hex_or_null};
use pe_clr::clr::{ClrData, ClrSectionIterator, StorageStream};
use pe_core::pe_error::Error;
use serde_json::{Value, json};
use std::alloc::{AllocError, Global};

#[tactic(auto, unfolding(crate::specs::Inputs::clr_input))]
fn clr_input(alloc: Global, value: &Value) -> Result<Image, FormError>
    ensures { Gives image_view result (clr_input (view value.now)) }
{
    if !has_keys_within(
        value,
        &[
            "bytes",
            "directory",
            "sections",
            "file_alignment",
            "resolve_rva",
        ],
    ) {
        return Err(FormError::NotForm);
    }
    image_of(alloc, value)
}

fn stream_value(alloc: Global, stream: &StorageStream<'_>) -> Result<Value, AllocError>
    ensures { IfOk result (λ v. view v ≡ stream_value (stream_view stream.now)) }
{
    json!(in alloc; [stream.name, stream.offset, stream.size])
}

/// Each stream as a value, or the error with which the streams end.
fn stream_values(alloc: Global, mut streams: ClrSectionIterator<'_>) -> Result<Vec<Value>, Error>
    ensures { GivesOrMemory (λ v. map view v.items) result (stream_values streams.entry.answers) }
{
    let mut values = Vec::new(alloc);
    while let Some(answer) = streams.next() {
        match answer {
            Ok(stream) => values.push(stream_value(alloc, &stream)?)?,
            Err(error) => return Err(error),
        }
    }
    Ok(values)
}

#[tactic(auto, unfolding(crate::specs::Clr::clr_value))]
fn clr_value(
    alloc: Global,
    clr: &ClrData<'_>,
    streams: Vec<Value>,
    mvid: Option<&[u8]>,
) -> Result<Value, AllocError>
    ensures { IfOk result (λ v. view v ≡ clr_value (clr_view clr.now) (map view streams.items) (option_copied mvid.entry)) }
{
    let header = clr.cor20_header;
    let metadata = json!(in alloc; [header.metadata.virtual_address, header.metadata.size])?;
    let mvid = hex_or_null(alloc, mvid)?;
    json!(in alloc; {
        "flags": header.flags,
        "metadata": metadata,
        "mvid": mvid,
        "signature": clr.signature,
        "streams": streams,
        "version": clr.metadata_header.version
    })
}

/// The CLR data that an image's directory names, as a value.
#[tactic(auto, unfolding(crate::specs::Clr::clr_json))]
fn clr_json(alloc: Global, image: &Image) -> Result<Value, Error>
    ensures { GivesOrMemory (λ v. view v) result (clr_json (image_view image.now)) }
{
    let clr = ClrData::parse_with_opts(
        &image.bytes,
        &image.directory,
        &image.sections,
        image.file_alignment,
        &image.options,
    )?;
    let streams = stream_values(alloc, clr.sections())?;
    let mvid = clr.mvid()?;
    Ok(clr_value(alloc, &clr, streams, mvid)?)
}

fn clr_answer(alloc: Global, image: &Image) -> Result<Vec<u8>, Unanswered>
    ensures { Answers (λ v. v.items) result (Some (clr_answer (image_view image.now))) }
{
    match clr_json(alloc, image) {
        Ok(value) => Ok(value.to_vec(alloc)?),
        Err(error) => Err(Unanswered::from(error)),
    }
}

/// The CLR metadata of a file as JSON, for an object with the keys `bytes` (hexadecimal), `sections` (a list of
/// `[virtual_address, virtual_size, pointer, raw size]`), `directory` (`[address, size]`), `file_alignment` and maybe
/// `resolve_rva`, which is true where it isn't there.
pub fn clr_text(alloc: Global, value: &Value) -> Result<Vec<u8>, Unanswered>
    ensures { Answers (λ v. v.items) result (clr_reply (view value.now)) }
{
    match clr_input(alloc, value) {
        Ok(image) => clr_answer(alloc, &image),
        Err(error) => Err(Unanswered::from(error)),
    }
}
