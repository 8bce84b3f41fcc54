//! The definitions of objects.

ghost use Rattle.std.specs.Prelude.{◌≡◌, ◌++◌, ◌∷◌, [], IfOk, IfErr, OnOk, filter, map, if◌then◌else◌};
ghost use Rattle.image_place.specs.Placed.{all_definitions, is_definition, symbols_at};
ghost use Rattle.image_place.specs.DefinitionRows.{found_seen, is_found, found_if};
ghost use Rattle.image_view.specs.ViewRows.{symbol_seen};
ghost use Rattle.image_place.specs.declared.error.PlaceError.TheVariants.{OutOfMemory};

use crate::error::PlaceError;
use image_view::{View, ViewSymbol};
use std::alloc::Global;

/// A definition of an image.
#[derive(Clone, Copy)]
pub struct Found<'a> {
    /// The number of its image, from 0.
    pub image: usize,
    /// The row of its symbol.
    pub row: u32,
    pub symbol: ViewSymbol<'a>,
}

/// All definitions, by image and row.
pub fn definitions_of<'a>(alloc: Global, views: &[View<'a>]) -> Result<Vec<Found<'a>>, PlaceError>
    ensures ok { IfOk result (λ found. map found_seen found.items ≡ all_definitions views.now) }
    ensures err { IfErr result (λ e. e ≡ OutOfMemory) }
{
    let mut found = Vec::new(alloc);
    for (image, view) in views.iter().enumerate() {
        append_definitions(&mut found, image, view)?;
    }
    Ok(found)
}

// Appends the definitions of an image.
fn append_definitions<'a>(
    found: &mut Vec<Found<'a>>,
    image: usize,
    view: &View<'a>,
) -> Result<(), PlaceError>
    ensures ok { OnOk result (map found_seen found.new.items ≡ map found_seen found.old.items ++ filter is_found (symbols_at (image, view.now))) }
    ensures err { IfErr result (λ e. e ≡ OutOfMemory) }
{
    for (row, symbol) in view.symbols().iter().enumerate() {
        append_definition(found, image, row, *symbol)?;
    }
    Ok(())
}

// Appends a symbol, if it is a definition. The rows of a file have 32 bits.
fn append_definition<'a>(
    found: &mut Vec<Found<'a>>,
    image: usize,
    row: usize,
    symbol: ViewSymbol<'a>,
) -> Result<(), PlaceError>
    ensures ok { OnOk result (map found_seen found.new.items ≡ map found_seen found.old.items ++ found_if image row (symbol_seen symbol.entry)) }
    ensures err { IfErr result (λ e. e ≡ OutOfMemory) }
{
    if !is_definition(&symbol) {
        return Ok(());
    }
    match u32::try_from(row) {
        Ok(row) => {
            found.push(Found { image, row, symbol })?;
            Ok(())
        }
        Err(_) => Err(PlaceError::OutOfMemory),
    }
}

/// Whether a symbol lies in a section and is no label.
pub fn is_definition(symbol: &ViewSymbol<'_>) -> bool
    ensures { result ≡ is_definition (symbol_seen symbol.now) }
{
    symbol.section.is_some() && !symbol.is_label
}
