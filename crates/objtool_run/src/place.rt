//! The command `place`: from the bytes of an input to the lines of what its images are placed as.

ghost use Rattle.std.specs.Prelude.{◌≡◌, IfOk, IfErr, string_bytes};
ghost use Rattle.serde_json.specs.View.{view};
ghost use Rattle.image_place.specs.Texts.{place_text};
ghost use Rattle.place_json.specs.Outcomes.{IsPlacedText, TellsUnplaced};
ghost use Rattle.objtool_run.specs.Fault.{line};
ghost use Rattle.objtool_run.specs.Placing.{IsPlacedInput, IsUnplacedInput, HasNoPlacement, FaultsPlace};
ghost use Rattle.objtool_run.specs.Run.{Says, IsOfInput};

use crate::fault::Fault;
use image_place::PlaceError;
use place_json::{Unplaced, placed_text};
use serde_json::Value;
use std::alloc::{AllocError, Global};

/// The lines of what an input's images are placed as.
pub(crate) fn placed_lines(alloc: Global, input: &[u8]) -> Result<Vec<u8>, Fault>
    ensures ok { IfOk result (λ text. IsPlacedInput input.now text.items) }
    ensures explained { IfErr result (λ fault. Says (IsUnplacedInput input.now) (HasNoPlacement input.now) fault) }
    ensures of_input { IfErr result (λ fault. IsOfInput fault) }
{
    let value = match Value::from_slice(alloc, input) {
        Ok(value) => value,
        Err(error) if error.is_memory() => return Err(Fault::OutOfMemory),
        Err(_) => return Err(Fault::NotUnderstood),
    };
    match placed(alloc, &value) {
        Ok(text) => Ok(text),
        Err(fault) => Err(fault),
    }
}

// The lines of what a value's images are placed as.
fn placed(alloc: Global, value: &Value) -> Result<Vec<u8>, Fault>
    ensures ok { IfOk result (λ text. IsPlacedText (view value.now) text.items) }
    ensures fault { IfErr result (λ fault. FaultsPlace (view value.now) fault) }
{
    match placed_text(alloc, value) {
        Ok(text) => Ok(text),
        Err(Unplaced::NotForm) => Err(Fault::NotUnderstood),
        Err(Unplaced::OutOfMemory) => Err(Fault::OutOfMemory),
        Err(Unplaced::Refused(error)) => match refusal_line(alloc, error) {
            Ok(text) => Err(Fault::Refused(text)),
            Err(_) => Err(Fault::OutOfMemory),
        },
    }
}

// The line of a refusal.
fn refusal_line(alloc: Global, error: PlaceError) -> Result<String, AllocError>
    ensures { IfOk result (λ text. string_bytes text ≡ line (place_text error)) }
{
    format!(in alloc; "{error}\n")
}
