//! The command `read`: from the bytes of a file to the line of what it is read as.

ghost use Rattle.std.specs.Prelude.{◌≡◌, IfOk, IfErr, string_bytes};
ghost use Rattle.objtool_run.specs.Fault.{line};
ghost use Rattle.objtool_run.specs.Reading.{IsImageLine, ExplainsRead, IsFileFault, no_image_text};
ghost use Rattle.objtool_run.specs.Run.{IsOfInput};

use crate::fault::Fault;
use crate::query::ended;
use image_json::image_text;
use image_read::ReadError;
use std::alloc::{AllocError, Global};

/// The line of what some bytes are read as.
pub fn image_line(alloc: Global, input: &[u8]) -> Result<Vec<u8>, Fault>
    ensures ok { IfOk result (λ text. IsImageLine input.now text.items) }
    ensures explained { IfErr result (λ fault. ExplainsRead input.now fault) }
    ensures of_file { IfErr result (λ fault. IsFileFault fault) }
    ensures of_input { IfErr result (λ fault. IsOfInput fault) }
{
    match image_text(alloc, input) {
        Ok(text) => ended(text),
        Err(ReadError::OutOfMemory) => Err(Fault::OutOfMemory),
        Err(ReadError::NoReading) => match no_image_line(alloc) {
            Ok(text) => Err(Fault::Refused(text)),
            Err(_) => Err(Fault::OutOfMemory),
        },
    }
}

// What is told of bytes that are read as no image.
fn no_image_line(alloc: Global) -> Result<String, AllocError>
    ensures { IfOk result (λ text. string_bytes text ≡ line no_image_text) }
{
    String::from_str(alloc, "neither an object file nor a fat file\n")
}
