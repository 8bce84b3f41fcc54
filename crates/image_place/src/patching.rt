//! Fields that are written into the bytes of definitions.

ghost use Rattle.std.specs.Prelude.{◌≡◌, ◌+◌, ◌≤◌, ◌++◌, drop, length, map, take};
ghost use Rattle.byte_core.specs.Number.{little_bytes};
ghost use Rattle.image_place.specs.Applying.{Applies};
ghost use Rattle.image_place.specs.Naming.{address_found};
ghost use Rattle.image_place.specs.Placed.{given};
ghost use Rattle.image_place.specs.RangeRows.{definition_seen};

use crate::judging::{holds_range, width_of};
use crate::leading::{Led, Scene, led_to};
use crate::ranges::Definition;
use crate::values::value_of;
use byte_core::place_number;
use image_view::ViewReloc;

/// Writes a relocation into the bytes of a definition, if its range holds the whole field. False where it has no value.
pub fn apply(
    scene: Scene<'_>,
    definition: Definition<'_>,
    start: u64,
    r: ViewReloc,
    bytes: &mut [u8],
) -> bool
    requires room { definition.size ≤ length bytes.old }
    ensures applied { Applies (address_found scene.entry.exports.now scene.entry.outsides.now) (given scene.entry.addresses.now scene.entry.image)
        scene.entry.view.now scene.entry.definitions.now (definition_seen definition.entry) start r bytes.old result bytes.new }
    ensures len { length bytes.new ≡ length bytes.old }
{
    let Some(kind) = r.kind else {
        return true;
    };
    if !holds_range(&definition, start, r, kind) {
        return true;
    }
    match led_to(scene, r.symbol) {
        Led::Loose => true,
        Led::Unbound => false,
        Led::At(address) => {
            let at = u128::from(start) + u128::from(r.offset);
            let offset = at.saturating_sub(u128::from(definition.symbol.address));
            let place = u128::from(definition.address) + offset;
            match value_of(kind, address, r.addend, place) {
                None => false,
                Some(number) => {
                    put_number(bytes, offset as usize, width_of(kind), number);
                    true
                }
            }
        }
    }
}

fn put_number(out: &mut [u8], at: usize, width: usize, value: u64)
    requires room { at + width ≤ length out.old }
    requires width { width ≤ 8 }
    ensures bytes { out.new ≡ take at out.old ++ (little_bytes width value ++ drop (at + width) out.old) }
    ensures len { length out.new ≡ length out.old }
{
    let mut number = [0u8; 8];
    let end = place_number(&mut number, 0, width, value);
    put_bytes(out, at, &number[..end]);
}

// Writes bytes over others.
fn put_bytes(out: &mut [u8], at: usize, bytes: &[u8])
    requires { at + length bytes.now ≤ length out.old }
    ensures bytes { out.new ≡ take at out.old ++ (bytes.now ++ drop (at + length bytes.now) out.old) }
    ensures len { length out.new ≡ length out.old }
{
    let end = at + bytes.len();
    out[at..end].copy_from_slice(bytes);
}
