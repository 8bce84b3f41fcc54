//! Definitions with their ranges of sections, and their places in memory.

ghost use Rattle.std.specs.Prelude.{◌≡◌, ◌++◌, IfOk, IfErr, OnOk, map, option_map};
ghost use Rattle.image_place.specs.Placed.{definition_at, definitions_in, row_for};
ghost use Rattle.image_place.specs.RangeRows.{definition_seen, one_or_none};
ghost use Rattle.image_view.specs.ViewRows.{symbol_seen};
ghost use Rattle.image_place.specs.declared.error.PlaceError.TheVariants.{OutOfMemory};

use crate::addresses::Addresses;
use crate::error::PlaceError;
use image_view::{View, ViewSymbol};
use std::alloc::Global;

/// A definition with an address row.
#[derive(Clone, Copy)]
pub struct Definition<'a> {
    /// The row of its symbol.
    pub row: u32,
    pub symbol: ViewSymbol<'a>,
    /// The number of its section, from 0.
    pub section: usize,
    /// Its address in memory.
    pub address: u64,
    /// Its size in bytes, as it is given.
    pub size: u64,
}

/// The definitions of an image that have an address row, by row.
#[tactic(auto, unfolding(crate::specs::Placed::definitions_in))]
pub fn definitions_in<'a>(
    alloc: Global,
    addresses: &Addresses<'_>,
    image: usize,
    view: &View<'a>,
) -> Result<Vec<Definition<'a>>, PlaceError>
    ensures ok { IfOk result (λ ds. map definition_seen ds.items ≡ definitions_in addresses.now image view.now) }
    ensures err { IfErr result (λ e. e ≡ OutOfMemory) }
{
    let mut definitions = Vec::new(alloc);
    for (row, symbol) in view.symbols().iter().enumerate() {
        append_definition(&mut definitions, addresses, image, row, *symbol)?;
    }
    Ok(definitions)
}

// Appends a symbol, if it is a definition with an address row. The rows of a file have 32 bits.
fn append_definition<'a>(
    definitions: &mut Vec<Definition<'a>>,
    addresses: &Addresses<'_>,
    image: usize,
    row: usize,
    symbol: ViewSymbol<'a>,
) -> Result<(), PlaceError>
    ensures ok { OnOk result (map definition_seen definitions.new.items ≡ map definition_seen definitions.old.items ++ one_or_none (definition_at row (symbol_seen symbol.entry) (symbol_seen symbol.entry).section (row_for addresses.now image row))) }
    ensures err { IfErr result (λ e. e ≡ OutOfMemory) }
{
    match u32::try_from(row) {
        Ok(row) => match definition_at(addresses, image, row, symbol) {
            Some(definition) => {
                definitions.push(definition)?;
                Ok(())
            }
            None => Ok(()),
        },
        Err(_) => Err(PlaceError::OutOfMemory),
    }
}

fn definition_at<'a>(
    addresses: &Addresses<'_>,
    image: usize,
    row: u32,
    symbol: ViewSymbol<'a>,
) -> Option<Definition<'a>>
    ensures { option_map definition_seen result ≡ definition_at row (symbol_seen symbol.entry) (symbol_seen symbol.entry).section (row_for addresses.now image row) }
{
    let section = symbol.section?;
    let given = addresses.row(image, row)?;
    if symbol.is_label {
        return None;
    }
    Some(Definition {
        row,
        symbol,
        section,
        address: given.address,
        size: given.size,
    })
}
