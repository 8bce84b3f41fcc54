//! The lines of what is placed.

ghost use Rattle.std.specs.Prelude.{◌≡◌, ◌++◌, map, flat_map, string_bytes, IfOk, OnOk};
ghost use Rattle.image_place.specs.Views.{placed_view};
ghost use Rattle.place_json.specs.Lines.{entry_line};

use image_place::PlacedBytes;
use std::alloc::{AllocError, Global};

/// A line for each entry.
pub(crate) fn entry_lines(alloc: Global, entries: &[PlacedBytes]) -> Result<Vec<u8>, AllocError>
    ensures { IfOk result (λ text. text.items ≡ flat_map entry_line (map placed_view entries.now)) }
{
    let mut out = Vec::new(alloc);
    for entry in entries {
        push_line(alloc, &mut out, entry)?;
    }
    Ok(out)
}

fn push_line(alloc: Global, out: &mut Vec<u8>, entry: &PlacedBytes) -> Result<(), AllocError>
    ensures { OnOk result (out.new.items ≡ out.old.items ++ entry_line (placed_view entry.now)) }
{
    let line = entry_line(alloc, entry)?;
    out.extend_from_slice(line.as_bytes())
}

/// Image, symbol and address in decimal, and the bytes in lower-case hexadecimal.
fn entry_line(alloc: Global, entry: &PlacedBytes) -> Result<String, AllocError>
    ensures { IfOk result (λ line. string_bytes line ≡ entry_line (placed_view entry.now)) }
{
    let digits = hex::encode(alloc, &entry.bytes)?;
    format!(in alloc;
        "{} {} {} {digits}\n",
        entry.image, entry.symbol, entry.address
    )
}
