//! Names with addresses.

ghost use Rattle.std.specs.Prelude.{◌≡◌, IfOk, OnOk, map, unwrap_or};
ghost use Rattle.image_place.specs.Naming.{address_found, told_next, Outsides, NotesName, NotesOutside};
ghost use Rattle.image_place.specs.Views.{extern_view};

use crate::rows::Extern;
use std::alloc::{AllocError, Global};
use std::collections::HashMap;

/// Notes that a definition which others see has this name. A name with one definition has its address, and one with
/// more has none.
pub fn note_export<'a>(
    exports: &mut HashMap<&'a [u8], Option<u64>>,
    name: &'a [u8],
    address: u64,
) -> Result<(), AllocError>
    ensures { OnOk result (NotesName exports.old exports.new name.now address) }
{
    let told = told_next(exports.get(name).copied(), address);
    exports.insert(name, told)?;
    Ok(())
}

fn told_next(known: Option<Option<u64>>, address: u64) -> Option<u64>
    ensures { result ≡ told_next known address }
{
    match known {
        Some(_) => None,
        None => Some(address),
    }
}

/// The names from outside. Of several of a name the first counts.
pub fn outsides<'a>(
    alloc: Global,
    externs: &'a [Extern],
) -> Result<HashMap<&'a [u8], u64>, AllocError>
    ensures { IfOk result (λ names. Outsides names (map extern_view externs.now)) }
{
    let mut names = HashMap::new(alloc);
    for row in externs {
        note_outside(&mut names, &row.name, row.address)?;
    }
    Ok(names)
}

fn note_outside<'a>(
    names: &mut HashMap<&'a [u8], u64>,
    name: &'a [u8],
    address: u64,
) -> Result<(), AllocError>
    ensures { OnOk result (NotesOutside names.old names.new name.now address) }
{
    let first = first_of(names.get(name).copied(), address);
    names.insert(name, first)?;
    Ok(())
}

fn first_of(known: Option<u64>, address: u64) -> u64
    ensures { result ≡ unwrap_or known address }
{
    match known {
        Some(first) => first,
        None => address,
    }
}

/// The address of a name: that of its one definition that others see, else that from outside.
pub fn address_of(
    exports: &HashMap<&[u8], Option<u64>>,
    outsides: &HashMap<&[u8], u64>,
    name: &[u8],
) -> Option<u64>
    ensures { result ≡ address_found exports.now outsides.now name.now }
{
    match exports.get(name) {
        Some(told) => *told,
        None => outsides.get(name).copied(),
    }
}
