//! Parts, each an object of the outer list.

ghost use Rattle.std.specs.Prelude.{◌≡◌, ◌<◌, ◌∷◌, [], map, length, Some, IfOk, IfErr};
ghost use Rattle.std.specs.List.{All};
ghost use Rattle.serde_json.specs.View.{view, items_view};
ghost use Rattle.cranelift_object.specs.Command.{command_view};
ghost use Rattle.image_build.specs.Parts.{part_view, HasFewCalls};
ghost use Rattle.json_form.specs.Form.{Gives, each_of, has_keys_within};
ghost use Rattle.objtool_run.specs.Script.{settings_of, part_keys, command_part_of, image_part_of, part_of, parts_of, StandsFor};
ghost use Rattle.objtool_run.specs.Run.{ExplainsBuild, IsOfInput};

use crate::fault::Fault;
use crate::script::command::commands_of;
use crate::script::libcalls::libcalls_at;
use crate::script::target::part_target;
use cranelift_object::CommandPart;
use image_build::Part;
use ir_core::TargetIsa;
use json_form::{FormError, has_keys_within, hex_at, items_at, mark_or, text_at};
use serde_json::Value;
use std::alloc::Global;

/// A part has fewer commands than there are identifiers.
const COMMAND_LIMIT: usize = 4_294_967_295;

/// Whether an object has no keys beside those of a part.
fn has_part_keys(value: &Value) -> bool
    ensures { result ≡ has_keys_within part_keys (view value.now) }
{
    let keys = [
        "name",
        "arch",
        "format",
        "system",
        "version",
        "environment",
        "flags",
        "function_sections",
        "data_sections",
        "libcalls",
        "commands",
    ];
    has_keys_within(value, &keys)
}

/// A part for a target, without commands.
#[tactic(auto, unfolding(crate::specs::Script::settings_of))]
fn begin(alloc: Global, value: &Value, isa: TargetIsa) -> Result<CommandPart, FormError>
    ensures settings { Gives (λ part. part.settings) result (settings_of (view value.now)) }
    ensures target { IfOk result (λ part. part.target ≡ isa) }
{
    let name = text_at(value, "name")?;
    let names = libcalls_at(alloc, value)?;
    let function_sections = mark_or(value, "function_sections", false)?;
    let data_sections = mark_or(value, "data_sections", false)?;
    let mut part = CommandPart::new(alloc, name.as_bytes(), isa, names)?;
    part.set_function_sections(function_sections);
    part.set_data_sections(data_sections);
    Ok(part)
}

/// The part of commands that an object stands for.
#[tactic(auto, unfolding(crate::specs::Script::command_part_of))]
fn command_part_of(alloc: Global, value: &Value) -> Result<Part, FormError>
    ensures form { Gives part_view result (command_part_of (view value.now)) }
    ensures few { IfOk result (λ part. HasFewCalls (part_view part)) }
{
    if !has_part_keys(value) {
        return Err(FormError::NotForm);
    }
    let isa = part_target(alloc, value)?;
    let convention = isa.default_call_conv();
    let mut part = begin(alloc, value, isa)?;
    let commands = commands_of(alloc, convention, items_at(value, "commands")?)?;
    if commands.len() >= COMMAND_LIMIT {
        return Err(FormError::OutOfMemory);
    }
    part.set_commands(commands);
    Ok(Part::Commands(part))
}

/// The image that an object stands for.
#[tactic(auto, unfolding(crate::specs::Script::image_part_of))]
fn image_part_of(alloc: Global, value: &Value) -> Result<Part, FormError>
    ensures form { Gives part_view result (image_part_of (view value.now)) }
    ensures few { IfOk result (λ part. HasFewCalls (part_view part)) }
{
    if !has_keys_within(value, &["image"]) {
        return Err(FormError::NotForm);
    }
    let bytes = hex_at(alloc, value, "image")?;
    Ok(Part::Image(bytes))
}

/// The part that an object stands for.
fn part_of(alloc: Global, value: &Value) -> Result<Part, FormError>
    ensures form { Gives part_view result (part_of (view value.now)) }
    ensures few { IfOk result (λ part. HasFewCalls (part_view part)) }
{
    if value.get("image").is_some() {
        image_part_of(alloc, value)
    } else {
        command_part_of(alloc, value)
    }
}

/// The parts that the values of a list stand for.
fn parts_in(alloc: Global, values: &[Value]) -> Result<Vec<Part>, FormError>
    ensures form { Gives (λ v. map part_view v.items) result (each_of part_of (items_view values.now)) }
    ensures few { IfOk result (λ parts. All HasFewCalls (map part_view parts.items)) }
{
    let mut parts = Vec::new(alloc);
    for value in values {
        match part_of(alloc, value) {
            Ok(part) => parts.push(part)?,
            Err(error) => return Err(error),
        }
    }
    Ok(parts)
}

/// The parts that a list stands for.
fn parts_of(alloc: Global, value: &Value) -> Result<Vec<Part>, FormError>
    ensures form { Gives (λ v. map part_view v.items) result (parts_of (view value.now)) }
    ensures few { IfOk result (λ parts. All HasFewCalls (map part_view parts.items)) }
{
    match value.as_array() {
        Some(values) => parts_in(alloc, values),
        None => Err(FormError::NotForm),
    }
}

/// The parts that the bytes of an input stand for.
pub fn read_parts(alloc: Global, input: &[u8]) -> Result<Vec<Part>, Fault>
    ensures stands { IfOk result (λ parts. StandsFor input.now (map part_view parts.items)) }
    ensures few { IfOk result (λ parts. All HasFewCalls (map part_view parts.items)) }
    ensures explained { IfErr result (λ fault. ExplainsBuild input.now fault) }
    ensures of_input { IfErr result (λ fault. IsOfInput fault) }
{
    let value = match Value::from_slice(alloc, input) {
        Ok(value) => value,
        Err(error) if error.is_memory() => return Err(Fault::OutOfMemory),
        Err(_) => return Err(Fault::NotUnderstood),
    };
    match parts_of(alloc, &value) {
        Ok(parts) => Ok(parts),
        Err(FormError::NotForm) => Err(Fault::NotUnderstood),
        Err(FormError::OutOfMemory) => Err(Fault::OutOfMemory),
    }
}
