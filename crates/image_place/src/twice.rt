//! Definitions under one name.

ghost use Rattle.std.specs.Prelude.{◌≡◌, IfOk, map};
ghost use Rattle.ir_core.specs.Moments.{moments};
ghost use Rattle.image_place.specs.Placed.{first_fault, twice_fault};
ghost use Rattle.image_place.specs.DefinitionRows.{found_seen};

use crate::definitions::Found;
use crate::fault::PlaceFault;
use std::alloc::{AllocError, Global};
use std::collections::HashMap;

/// The first definition that others see under a name that one before it has.
pub fn second_definition(
    alloc: Global,
    definitions: &[Found<'_>],
) -> Result<Option<PlaceFault>, AllocError>
    ensures { IfOk result (λ fault. fault ≡ first_fault (map twice_fault (moments (map found_seen definitions.now)))) }
{
    let mut names = HashMap::new(alloc);
    for definition in definitions {
        let name = definition.symbol.name;
        if definition.symbol.is_local {
            continue;
        }
        if names.contains_key(name) {
            return Ok(Some(PlaceFault::DefinedTwice {
                image: definition.image,
                symbol: definition.row,
            }));
        }
        names.insert(name, true)?;
    }
    Ok(None)
}
