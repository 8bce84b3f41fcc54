//! The callbacks of a thread-local directory.

ghost use Rattle.std.specs.Prelude.{◌≡◌, ◌+◌, ◌≤◌, length, OnOk};
ghost use Rattle.pe_core.specs.Steps.{GivesOrMemory, address_width};
ghost use Rattle.goblin_pe.specs.Tls.{callbacks_of, callbacks_among, numbers_behind};
ghost use Rattle.goblin_pe.specs.CallbackSteps.{after_step};
ghost use Rattle.goblin_pe.specs.AddressMap.{map_view};

use crate::tls::mapping::AddressMap;
use pe_core::pe_error::{Case, Error};
use pe_core::steps::{address_width, number_or_short};
use std::alloc::Global;

/// The callbacks at an address up to the first zero, where an address is given.
#[tactic(auto, unfolding(crate::specs::Tls::callbacks_of))]
pub fn callbacks(
    alloc: Global,
    bytes: &[u8],
    map: &AddressMap,
    is_64: bool,
    address: u64,
) -> Result<Vec<u64>, Error>
    ensures { GivesOrMemory (λ callbacks. callbacks.items) result (callbacks_of bytes.now (map_view map.now) (address_width is_64) address) }
{
    if address == 0 {
        return Ok(Vec::new(alloc));
    }
    let rva = map.rva_of(address)?;
    match map.offset(rva) {
        Some(start) => callbacks_from(alloc, bytes, map, is_64, start),
        None => Err(Error::Malformed(Case::NoOffset(rva))),
    }
}

/// The callbacks from a place on up to the first zero.
fn callbacks_from(
    alloc: Global,
    bytes: &[u8],
    map: &AddressMap,
    is_64: bool,
    start: usize,
) -> Result<Vec<u64>, Error>
    ensures { GivesOrMemory (λ callbacks. callbacks.items) result (callbacks_among (map_view map.now) (numbers_behind bytes.now (address_width is_64) start)) }
{
    let mut callbacks = Vec::new(alloc);
    let mut place = start;
    'reading: loop {
        match next_callback(bytes, map, is_64, place) {
            Ok(Some(callback)) => {
                callbacks.push(callback)?;
                place += address_width(is_64);
            }
            Ok(None) => return Ok(callbacks),
            Err(error) => return Err(error),
        }
    }
}

/// The callback at a place, None where a zero stands there.
fn next_callback(
    bytes: &[u8],
    map: &AddressMap,
    is_64: bool,
    place: usize,
) -> Result<Option<u64>, Error>
    ensures step { callbacks_among (map_view map.now) (numbers_behind bytes.now (address_width is_64) place)
        ≡ after_step result (callbacks_among (map_view map.now) (numbers_behind bytes.now (address_width is_64) (place + address_width is_64))) }
    ensures inside { OnOk result (place + address_width is_64 ≤ length bytes.now) }
{
    match number_or_short(bytes, place, address_width(is_64)) {
        Ok(number) => {
            if number == 0 {
                return Ok(None);
            }
            match map.callback(number) {
                Ok(callback) => Ok(Some(callback)),
                Err(error) => Err(error),
            }
        }
        Err(error) => Err(error),
    }
}
