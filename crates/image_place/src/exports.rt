//! The names that objects define for each other.

ghost use Rattle.std.specs.Prelude.{◌≡◌, ◌∷◌, [], IfOk, IfErr, OnOk, map, is_some, slice_get};
ghost use Rattle.image_place.specs.Placed.{all_pieces, given};
ghost use Rattle.image_place.specs.Naming.{Exports, NotesAll};
ghost use Rattle.image_place.specs.RangeRows.{definition_seen};
ghost use Rattle.image_place.specs.declared.error.PlaceError.TheVariants.{OutOfMemory};

use crate::addresses::Addresses;
use crate::error::PlaceError;
use crate::names::note_export;
use crate::ranges::{Definition, definitions_in};
use image_view::View;
use std::alloc::{AllocError, Global};
use std::collections::HashMap;

/// The addresses of the names that objects define for others.
pub fn exports_of<'a>(
    alloc: Global,
    addresses: &Addresses<'_>,
    views: &[View<'a>],
) -> Result<HashMap<&'a [u8], Option<u64>>, PlaceError>
    ensures ok { IfOk result (λ exports. Exports exports (all_pieces addresses.now views.now) (given addresses.now)) }
    ensures err { IfErr result (λ e. e ≡ OutOfMemory) }
{
    let mut exports = HashMap::new(alloc);
    for (image, view) in views.iter().enumerate() {
        let definitions = definitions_in(alloc, addresses, image, view)?;
        append_exports(&mut exports, addresses, image, view, &definitions)?;
    }
    Ok(exports)
}

fn append_exports<'a>(
    exports: &mut HashMap<&'a [u8], Option<u64>>,
    addresses: &Addresses<'_>,
    image: usize,
    view: &View<'a>,
    definitions: &[Definition<'a>],
) -> Result<(), AllocError>
    ensures { OnOk result (NotesAll exports.old exports.new (given addresses.now image) view.now (map definition_seen definitions.now)) }
{
    for definition in definitions {
        append_export(exports, addresses, image, view, *definition)?;
    }
    Ok(())
}

fn append_export<'a>(
    exports: &mut HashMap<&'a [u8], Option<u64>>,
    addresses: &Addresses<'_>,
    image: usize,
    view: &View<'a>,
    definition: Definition<'a>,
) -> Result<(), AllocError>
    ensures { OnOk result (NotesAll exports.old exports.new (given addresses.now image) view.now (definition_seen definition.entry ∷ [])) }
{
    if definition.symbol.is_local || !has_section(view, definition.section) {
        return Ok(());
    }
    let address = addresses.given(image, definition.row);
    note_export(exports, definition.symbol.name, address)
}

fn has_section(view: &View<'_>, section: usize) -> bool
    ensures { result ≡ is_some (slice_get (view.now).sections section) }
{
    section < view.sections().len()
}
