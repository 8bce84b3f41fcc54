//! Definitions without a place in memory.

ghost use Rattle.std.specs.Prelude.{◌≡◌, ◌+◌, ◌^◌, map, nat_le, slice_get, Some};
ghost use Rattle.image_place.specs.Placed.{address_fault, first_fault, is_homeless, leaves, section_of, row_for};
ghost use Rattle.image_place.specs.DefinitionRows.{found_seen};

use crate::addresses::Addresses;
use crate::definitions::Found;
use crate::fault::PlaceFault;
use crate::rows::DefAddress;
use image_view::{View, ViewSection};

/// The first definition without an address row, or whose range leaves its section or the memory.
pub fn homeless_definition(
    views: &[View<'_>],
    addresses: &Addresses<'_>,
    definitions: &[Found<'_>],
) -> Option<PlaceFault>
    ensures { result ≡ first_fault (map (address_fault views.now addresses.now) (map found_seen definitions.now)) }
{
    for definition in definitions {
        if !is_homeless(views, addresses, definition) {
            continue;
        }
        return Some(PlaceFault::NoAddress {
            image: definition.image,
            symbol: definition.row,
        });
    }
    None
}

fn is_homeless(views: &[View<'_>], addresses: &Addresses<'_>, found: &Found<'_>) -> bool
    ensures { result ≡ is_homeless views.now (found_seen found.now) (row_for addresses.now found.now.image found.now.row) }
{
    match addresses.row(found.image, found.row) {
        Some(row) => leaves(views, found, row.size) || passes_memory(row),
        None => true,
    }
}

fn passes_memory(row: DefAddress) -> bool
    ensures { result ≡ nat_le (2 ^ 64) (row.address + row.size) }
{
    row.address.checked_add(row.size).is_none()
}

// Whether a range of so many bytes leaves its section.
fn leaves(views: &[View<'_>], found: &Found<'_>, size: u64) -> bool
    ensures { result ≡ leaves (found_seen found.now).symbol.address size (section_of views.now (found_seen found.now)) }
{
    let Some(section) = found.symbol.section else {
        return true;
    };
    match views.get(found.image) {
        Some(view) => leaves_view(view, section, found.symbol.address, size),
        None => true,
    }
}

fn leaves_view(view: &View<'_>, section: usize, at: u64, size: u64) -> bool
    ensures { result ≡ leaves at size (slice_get (view.now).sections section) }
{
    match view.sections().get(section) {
        Some(section) => leaves_section(section, at, size),
        None => true,
    }
}

fn leaves_section(section: &ViewSection<'_>, at: u64, size: u64) -> bool
    ensures { result ≡ leaves at size (Some section.now) }
{
    let end = u128::from(section.start()) + u128::from(section.size());
    at < section.start() || end < u128::from(at) + u128::from(size)
}
