//! The command `build`: from the bytes of an input to the file of its parts, and to its line.

ghost use Rattle.std.specs.Prelude.{◌≡◌, ◌<◌, map, None, string_bytes, IfOk, IfErr, OnOk};
ghost use Rattle.std.specs.List.{All};
ghost use Rattle.image_build.specs.Built.{Built, build_cause};
ghost use Rattle.image_build.specs.Parts.{part_view, HasFewCalls};
ghost use Rattle.image_build.specs.Texts.{build_text};
ghost use Rattle.objtool_run.specs.Fault.{line};
ghost use Rattle.objtool_run.specs.Run.{IsAnswer, IsFile, ExplainsBuild, ExplainsParts, IsOfInput, TellsRefusal, line_of};

use crate::fault::Fault;
use crate::script::part::read_parts;
use image_build::{BuildCause, BuildError, Part, build_image};
use std::alloc::{AllocError, Global};

/// The output for some bytes: their lower-case hexadecimal and a newline.
fn line_of(alloc: Global, bytes: &[u8]) -> Result<Vec<u8>, AllocError>
    ensures { IfOk result (λ text. text.items ≡ line_of bytes.now) }
{
    let mut text = hex::encode(alloc, bytes)?.into_bytes();
    text.push(b'\n')?;
    Ok(text)
}

/// The fault text of a refused build.
fn refusal_text(alloc: Global, error: &BuildError) -> Result<String, AllocError>
    ensures { IfOk result (λ text. string_bytes text ≡ line (build_text error.now)) }
{
    format!(in alloc; "{error}\n")
}

/// The fault of a refused build.
fn refused(alloc: Global, error: &BuildError) -> Fault
    ensures { TellsRefusal error.now result }
{
    if matches!(error.cause, BuildCause::OutOfMemory) {
        return Fault::OutOfMemory;
    }
    match refusal_text(alloc, error) {
        Ok(text) => Fault::Refused(text),
        Err(_) => Fault::OutOfMemory,
    }
}

/// The file of parts.
fn file_of(alloc: Global, parts: &[Part]) -> Result<Vec<u8>, Fault>
    requires few { All HasFewCalls (map part_view parts.now) }
    ensures built { IfOk result (λ bytes. Built (map part_view parts.now) bytes.items) }
    ensures valid { OnOk result (build_cause (map part_view parts.now) ≡ None) }
    ensures are_bytes { IfOk result (λ bytes. All (λ x. x < 256) bytes.items) }
    ensures explained { IfErr result (λ fault. ExplainsParts (map part_view parts.now) fault) }
{
    let bytes = match build_image(alloc, parts) {
        Ok(bytes) => bytes,
        Err(error) => return Err(refused(alloc, &error)),
    };
    are_bytes(&bytes);
    Ok(bytes)
}

/// The file that an input's parts build.
pub fn built_file(alloc: Global, input: &[u8]) -> Result<Vec<u8>, Fault>
    ensures ok { IfOk result (λ bytes. IsFile input.now bytes.items) }
    ensures explained { IfErr result (λ fault. ExplainsBuild input.now fault) }
    ensures of_input { IfErr result (λ fault. IsOfInput fault) }
{
    let parts = match read_parts(alloc, input) {
        Ok(parts) => parts,
        Err(fault) => return Err(fault),
    };
    match file_of(alloc, &parts) {
        Ok(bytes) => Ok(bytes),
        Err(fault) => Err(fault),
    }
}

// Every list of bytes that the program has is one of numbers below 256.
fn are_bytes(bytes: &[u8])
    ensures { All (λ x. x < 256) bytes.now }
{}

/// The line of the file that an input's parts build.
pub fn answer(alloc: Global, input: &[u8]) -> Result<Vec<u8>, Fault>
    ensures ok { IfOk result (λ text. IsAnswer input.now text.items) }
    ensures explained { IfErr result (λ fault. ExplainsBuild input.now fault) }
    ensures of_input { IfErr result (λ fault. IsOfInput fault) }
{
    let bytes = match built_file(alloc, input) {
        Ok(bytes) => bytes,
        Err(fault) => return Err(fault),
    };
    match line_of(alloc, &bytes) {
        Ok(text) => Ok(text),
        Err(_) => Err(Fault::OutOfMemory),
    }
}
