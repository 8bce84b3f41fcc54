//! The refusals of relocations.

ghost use Rattle.std.specs.Prelude.{◌≡◌, ◌+◌, ◌<◌, ◌^◌, ◌&&◌, ◌≤◌, map, nat_le, Some};
ghost use Rattle.std.specs.List.{list_any};
ghost use Rattle.image_place.specs.Fixups.{fix_width};
ghost use Rattle.image_place.specs.Leading.{fault_by, holds_it, is_far, view_faults};
ghost use Rattle.image_place.specs.Naming.{address_found};
ghost use Rattle.image_place.specs.Placed.{first_fault, given, holds_field};
ghost use Rattle.image_place.specs.RangeRows.{definition_seen};

use crate::fault::PlaceFault;
use crate::holding::{Definitions, is_held, line_place};
use crate::leading::{Led, Scene, led_to};
use crate::ranges::Definition;
use crate::values::value_of;
use image_view::{FixKind, ViewReloc, ViewSection};

/// The first refusal of the relocations of an image.
pub fn view_fault(scene: Scene<'_>) -> Option<PlaceFault>
    ensures { result ≡ first_fault (view_faults (address_found scene.entry.exports.now scene.entry.outsides.now) (given scene.entry.addresses.now scene.entry.image) scene.entry.image scene.entry.view.now scene.entry.definitions.now) }
{
    for (k, section) in scene.view.sections().iter().enumerate() {
        if let Some(fault) = section_fault(scene, k, section) {
            return Some(fault);
        }
    }
    None
}

// The first refusal of the relocations of a section, which has number `k`.
fn section_fault(scene: Scene<'_>, k: usize, section: &ViewSection<'_>) -> Option<PlaceFault>
    ensures { result ≡ first_fault (map (fault_by (address_found scene.entry.exports.now scene.entry.outsides.now) (given scene.entry.addresses.now scene.entry.image)
        scene.entry.image scene.entry.view.now scene.entry.definitions.now k (section.now).start) (section.now).relocations) }
{
    for relocation in section.relocations() {
        if let Some(fault) = fault_of(scene, k, section.start(), *relocation) {
            return Some(fault);
        }
    }
    None
}

fn fault_of(scene: Scene<'_>, k: usize, start: u64, r: ViewReloc) -> Option<PlaceFault>
    ensures { result ≡ fault_by (address_found scene.entry.exports.now scene.entry.outsides.now) (given scene.entry.addresses.now scene.entry.image) scene.entry.image scene.entry.view.now scene.entry.definitions.now k start r }
{
    let image = scene.image;
    let symbol = r.symbol;
    let Some(kind) = r.kind else {
        return Some(PlaceFault::OtherKind {
            image,
            number: r.number,
        });
    };
    if !holds_some(scene.definitions, k, start, r, kind) {
        return Some(PlaceFault::NoAddress { image, symbol });
    }
    match led_to(scene, symbol) {
        Led::Loose => Some(PlaceFault::LooseLabel { image, symbol }),
        Led::Unbound => Some(PlaceFault::NoAddress { image, symbol }),
        Led::At(address) => {
            if !leads_too_far(scene.definitions, k, start, r, kind, address) {
                return None;
            }
            Some(PlaceFault::DoesNotFit {
                image,
                offset: r.offset,
            })
        }
    }
}

// Whether the range of some definition holds the whole field.
fn holds_some(
    definitions: &Definitions<'_>,
    k: usize,
    start: u64,
    r: ViewReloc,
    kind: FixKind,
) -> bool
    ensures { result ≡ list_any (holds_it k start r kind) definitions.now }
{
    let at = u128::from(start) + u128::from(r.offset);
    is_held(definitions, k, at, width_of(kind) as u64)
}

// Whether the value doesn't fit in some definition whose range holds the field.
fn leads_too_far(
    definitions: &Definitions<'_>,
    k: usize,
    start: u64,
    r: ViewReloc,
    kind: FixKind,
    address: u128,
) -> bool
    requires { address < 2 ^ 66 }
    ensures { result ≡ list_any (λ d. holds_it k start r kind d && is_far start r kind address d) definitions.now }
{
    let spans = definitions.spans();
    let width = width_of(kind) as u64;
    let at = line_place(k, u128::from(start) + u128::from(r.offset));
    let mut place = spans.last_holder(at, width);
    while place > 0 {
        let definition = definitions.row(spans.number(place));
        if is_far(&definition, start, r, kind, address) {
            return true;
        }
        place = spans.holder_before(at, width, place - 1);
    }
    false
}

/// Whether the range of a definition holds the whole field of a relocation of its section, which begins at `start`.
pub fn holds_range(definition: &Definition<'_>, start: u64, r: ViewReloc, kind: FixKind) -> bool
    ensures { result ≡ holds_field start r (Some kind) (definition_seen definition.now) }
{
    let width = width_of(kind) as u64;
    lies_in(
        definition.symbol.address,
        definition.size,
        start,
        r.offset,
        width,
    )
}

// Whether a field behind `start` lies in the range of so many bytes from `low` on.
fn lies_in(low: u64, size: u64, start: u64, offset: u64, width: u64) -> bool
    requires { width ≤ 8 }
    ensures { result ≡ (nat_le low (start + offset) && nat_le (start + offset + width) (low + size)) }
{
    let at = u128::from(start) + u128::from(offset);
    let end = u128::from(low) + u128::from(size);
    u128::from(low) <= at && at + u128::from(width) <= end
}

/// The bytes of a field.
pub fn width_of(kind: FixKind) -> usize
    ensures width { result ≡ fix_width kind }
    ensures few { result ≤ 8 }
{
    match kind {
        FixKind::Absolute8 => 8,
        FixKind::Absolute4 => 4,
        FixKind::Relative4 => 4,
    }
}

fn is_far(
    definition: &Definition<'_>,
    start: u64,
    r: ViewReloc,
    kind: FixKind,
    address: u128,
) -> bool
    requires { address < 2 ^ 66 }
    ensures { result ≡ is_far start r kind address (definition_seen definition.now) }
{
    let at = u128::from(start) + u128::from(r.offset);
    let offset = at.saturating_sub(u128::from(definition.symbol.address));
    let place = u128::from(definition.address) + offset;
    value_of(kind, address, r.addend, place).is_none()
}
