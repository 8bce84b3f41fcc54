//! The text of what is placed for a value.

ghost use Rattle.std.specs.Prelude.{IfOk, IfErr};
ghost use Rattle.serde_json.specs.View.{view};
ghost use Rattle.place_json.specs.Outcomes.{IsPlacedText, TellsUnplaced};

use crate::lines::entry_lines;
use crate::rows::input_of;
use crate::unplaced::Unplaced;
use image_place::place;
use serde_json::Value;
use std::alloc::Global;

/// The lines `IMAGE SYMBOL ADDRESS BYTES` of what is placed, one for each definition, for an object with the keys `images` (a
/// list of files in hexadecimal), `addresses` (a list of `[image, symbol, address, size]`) and `externs` (a list of
/// `[text, address]`). Numbers are written in decimal, bytes in lower-case hexadecimal.
pub fn placed_text(alloc: Global, value: &Value) -> Result<Vec<u8>, Unplaced>
    ensures ok { IfOk result (λ text. IsPlacedText (view value.now) text.items) }
    ensures cause { IfErr result (λ e. TellsUnplaced e (view value.now)) }
{
    let input = match input_of(alloc, value) {
        Ok(input) => input,
        Err(error) => return Err(Unplaced::from(error)),
    };
    match place(alloc, &input.images, &input.addresses, &input.externs) {
        Ok(entries) => Ok(entry_lines(alloc, &entries)?),
        Err(error) => Err(Unplaced::from(error)),
    }
}
