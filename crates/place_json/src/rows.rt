//! What placement is given: objects, the addresses of their definitions, and names from outside.

ghost use Rattle.std.specs.Prelude.{◌≡◌, map};
ghost use Rattle.serde_json.specs.View.{view, items_view};
ghost use Rattle.json_form.specs.Form.{Gives, each_of};
ghost use Rattle.image_place.specs.Views.{extern_view};
ghost use Rattle.place_json.specs.Input.{image_of, text_in, address_of, extern_of, place_of};
ghost use Rattle.place_json.specs.Views.{input_view};

use hex::FromHexError;
use image_place::{DefAddress, Extern};
use json_form::{FormError, has_item, has_keys_within, items_at, number_in, u32_in};
use serde_json::Value;
use std::alloc::Global;

/// What placement is given.
#[derive(Drop)]
pub struct Input {
    pub images: Vec<Vec<u8>>,
    pub addresses: Vec<DefAddress>,
    pub externs: Vec<Extern>,
}

/// The bytes of an object, which the value gives as hexadecimal digits of either case.
fn image_of(alloc: Global, value: &Value) -> Result<Vec<u8>, FormError>
    ensures { Gives (λ b. b.items) result (image_of (view value.now)) }
{
    let text = value.as_str().ok_or(FormError::NotForm)?;
    match hex::decode(alloc, text) {
        Ok(bytes) => Ok(bytes),
        Err(FromHexError::OutOfMemory) => Err(FormError::OutOfMemory),
        Err(_) => Err(FormError::NotForm),
    }
}

/// The text at a place of a list.
fn text_in<'a>(value: &'a Value, place: usize) -> Result<&'a str, FormError>
    ensures { Gives (λ s. s.now) result (text_in place (view value.now)) }
{
    value
        .get(place)
        .and_then(Value::as_str)
        .ok_or(FormError::NotForm)
}

/// The address of a definition: image, symbol, address, size.
#[tactic(auto, unfolding(crate::specs::Input::address_of))]
fn address_of(value: &Value) -> Result<DefAddress, FormError>
    ensures { Gives (λ a. a) result (address_of (view value.now)) }
{
    if has_item(value, 4) {
        return Err(FormError::NotForm);
    }
    let image = number_in(value, 0)? as usize;
    let symbol = u32_in(value, 1)?;
    let address = number_in(value, 2)?;
    let size = number_in(value, 3)?;
    Ok(DefAddress {
        image,
        symbol,
        address,
        size,
    })
}

/// A name from outside: text, address.
#[tactic(auto, unfolding(crate::specs::Input::extern_of))]
fn extern_of(alloc: Global, value: &Value) -> Result<Extern, FormError>
    ensures { Gives extern_view result (extern_of (view value.now)) }
{
    if has_item(value, 2) {
        return Err(FormError::NotForm);
    }
    let text = text_in(value, 0)?;
    let address = number_in(value, 1)?;
    let name = text.as_bytes().to_vec(alloc)?;
    Ok(Extern { name, address })
}

fn images_in(alloc: Global, values: &[Value]) -> Result<Vec<Vec<u8>>, FormError>
    ensures { Gives (λ v. map (λ b. b.items) v.items) result (each_of image_of (items_view values.now)) }
{
    let mut images = Vec::new(alloc);
    for value in values {
        match image_of(alloc, value) {
            Ok(image) => images.push(image)?,
            Err(error) => return Err(error),
        }
    }
    Ok(images)
}

fn addresses_in(alloc: Global, values: &[Value]) -> Result<Vec<DefAddress>, FormError>
    ensures { Gives (λ v. v.items) result (each_of address_of (items_view values.now)) }
{
    let mut addresses = Vec::new(alloc);
    for value in values {
        match address_of(value) {
            Ok(address) => addresses.push(address)?,
            Err(error) => return Err(error),
        }
    }
    Ok(addresses)
}

fn externs_in(alloc: Global, values: &[Value]) -> Result<Vec<Extern>, FormError>
    ensures { Gives (λ v. map extern_view v.items) result (each_of extern_of (items_view values.now)) }
{
    let mut externs = Vec::new(alloc);
    for value in values {
        match extern_of(alloc, value) {
            Ok(outside) => externs.push(outside)?,
            Err(error) => return Err(error),
        }
    }
    Ok(externs)
}

/// What an object says of placement.
#[tactic(auto, unfolding(crate::specs::Input::place_of))]
pub(crate) fn input_of(alloc: Global, value: &Value) -> Result<Input, FormError>
    ensures { Gives input_view result (place_of (view value.now)) }
{
    if !has_keys_within(value, &["images", "addresses", "externs"]) {
        return Err(FormError::NotForm);
    }
    let images = images_in(alloc, items_at(value, "images")?)?;
    let addresses = addresses_in(alloc, items_at(value, "addresses")?)?;
    let externs = externs_in(alloc, items_at(value, "externs")?)?;
    Ok(Input {
        images,
        addresses,
        externs,
    })
}
