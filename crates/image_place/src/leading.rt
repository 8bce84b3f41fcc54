//! Where relocations lead.

ghost use Rattle.std.specs.Prelude.{◌≡◌};
ghost use Rattle.image_place.specs.Leading.{led, led_name};
ghost use Rattle.image_place.specs.Naming.{address_found};
ghost use Rattle.image_place.specs.Placed.{given, row_goal, symbol_goal};
ghost use Rattle.image_view.specs.ViewRows.{symbol_seen};
ghost use Rattle.image_place.specs.Leading.{IsNear};

use crate::addresses::Addresses;
use crate::holding::{Definitions, first_holder};
use crate::names::address_of;
use image_view::{View, ViewSymbol};
use std::collections::HashMap;

/// Where a relocation leads.
#[derive(Clone, Copy)]
pub enum Led {
    /// To a label that lies in no definition.
    Loose,
    /// To a name without an address.
    Unbound,
    At(u128),
}

/// What is known of names and of the definitions of an image.
#[derive(Clone, Copy)]
pub struct Scene<'s> {
    pub exports: &'s HashMap<&'s [u8], Option<u64>>,
    pub outsides: &'s HashMap<&'s [u8], u64>,
    pub addresses: &'s Addresses<'s>,
    pub image: usize,
    pub view: &'s View<'s>,
    pub definitions: &'s Definitions<'s>,
}

/// Where the symbol of a row leads.
pub fn led_to(scene: Scene<'_>, row: u32) -> Led
    ensures led { result ≡ led (address_found scene.entry.exports.now scene.entry.outsides.now) (given scene.entry.addresses.now scene.entry.image) (row_goal scene.entry.view.now scene.entry.definitions.now row) }
    ensures near { IsNear result }
{
    match scene.view.symbols().get(row as usize) {
        Some(symbol) => led_symbol(scene, row, *symbol),
        None => Led::Loose,
    }
}

fn led_symbol(scene: Scene<'_>, row: u32, symbol: ViewSymbol<'_>) -> Led
    ensures led { result ≡ led (address_found scene.entry.exports.now scene.entry.outsides.now) (given scene.entry.addresses.now scene.entry.image) (symbol_goal scene.entry.definitions.now row (symbol_seen symbol.entry) (symbol_seen symbol.entry).section) }
    ensures near { IsNear result }
{
    let Some(section) = symbol.section else {
        return led_name(scene, symbol.name);
    };
    if !symbol.is_label {
        return Led::At(u128::from(scene.addresses.given(scene.image, row)));
    }
    match first_holder(scene.definitions, section, symbol.address) {
        Some(definition) => {
            let start = scene.addresses.given(scene.image, definition.row);
            let distance = symbol.address.saturating_sub(definition.symbol.address);
            Led::At(u128::from(start) + u128::from(distance))
        }
        None => Led::Loose,
    }
}

fn led_name(scene: Scene<'_>, name: &[u8]) -> Led
    ensures led { result ≡ led_name (address_found scene.entry.exports.now scene.entry.outsides.now name.now) }
    ensures near { IsNear result }
{
    match address_of(scene.exports, scene.outsides, name) {
        Some(address) => Led::At(u128::from(address)),
        None => Led::Unbound,
    }
}
