//! The bytes of definitions in memory.

ghost use Rattle.std.specs.Prelude.{◌≡◌, ◌-◌, ◌++◌, IfOk, OnOk, map, option_map, replicate, take};
ghost use Rattle.std.specs.List.{filter_map};
ghost use Rattle.byte_core.specs.Number.{bytes_at};
ghost use Rattle.image_place.specs.Applying.{bytes_by, entry_by, HasRange, HaveRanges, IsHome};
ghost use Rattle.image_place.specs.Grouped.{AreGrouped, HasFields, fields_of};
ghost use Rattle.image_place.specs.Naming.{address_found};
ghost use Rattle.image_place.specs.Placed.{given};
ghost use Rattle.image_place.specs.RangeRows.{definition_seen, one_or_none};
ghost use Rattle.image_place.specs.Views.{placed_view};

use crate::leading::Scene;
use crate::patching::apply;
use crate::ranges::Definition;
use crate::rows::PlacedBytes;
use image_view::{ViewReloc, ViewSection};
use std::alloc::{AllocError, Global};

/// Appends an entry for each definition of an image, by row. Each has the relocations whose field it holds.
pub fn append_entries(
    alloc: Global,
    scene: Scene<'_>,
    fields: &[Vec<ViewReloc>],
    out: &mut Vec<PlacedBytes>,
) -> Result<(), AllocError>
    requires ranges { HaveRanges scene.view.now scene.definitions.now }
    requires grouped { AreGrouped scene.view.now scene.definitions.now (map (λ f. f.items) fields.now) }
    ensures { OnOk result (map placed_view out.new.items ≡ map placed_view out.old.items
        ++ filter_map (entry_by (address_found scene.entry.exports.now scene.entry.outsides.now) (given scene.entry.addresses.now scene.entry.image)
        scene.entry.image scene.entry.view.now scene.entry.definitions.now) scene.entry.definitions.now) }
{
    for (number, definition) in scene.definitions.rows().iter().enumerate() {
        append_entry(alloc, scene, *definition, &fields[number], out)?;
    }
    Ok(())
}

// Appends the entry of a definition, if its bytes in memory are there.
fn append_entry(
    alloc: Global,
    scene: Scene<'_>,
    definition: Definition<'_>,
    fields: &[ViewReloc],
    out: &mut Vec<PlacedBytes>,
) -> Result<(), AllocError>
    requires home { IsHome scene.view.now (definition_seen definition) }
    requires fields { HasFields scene.view.now (definition_seen definition) fields.now }
    ensures { OnOk result (map placed_view out.new.items ≡ map placed_view out.old.items
        ++ one_or_none (entry_by (address_found scene.entry.exports.now scene.entry.outsides.now) (given scene.entry.addresses.now scene.entry.image)
        scene.entry.image scene.entry.view.now scene.entry.definitions.now (definition_seen definition.entry))) }
{
    let section = &scene.view.sections()[definition.section];
    let Some(bytes) = placed_bytes(alloc, scene, definition, section, fields)? else {
        return Ok(());
    };
    out.push(PlacedBytes {
        image: scene.image,
        symbol: definition.row,
        address: definition.address,
        bytes,
    })?;
    Ok(())
}

// The bytes in memory of a definition of this section. None where one of its relocations has no value.
fn placed_bytes(
    alloc: Global,
    scene: Scene<'_>,
    definition: Definition<'_>,
    section: &ViewSection<'_>,
    fields: &[ViewReloc],
) -> Result<Option<Vec<u8>>, AllocError>
    requires range { HasRange section.now (definition_seen definition) }
    requires fields { fields.now ≡ fields_of section.now (definition_seen definition) }
    ensures { IfOk result (λ bytes. option_map (λ v. v.items) bytes
        ≡ bytes_by (address_found scene.entry.exports.now scene.entry.outsides.now) (given scene.entry.addresses.now scene.entry.image)
        scene.entry.view.now scene.entry.definitions.now (definition_seen definition.entry) section.now) }
{
    let mut bytes = contents_of(alloc, section, definition.symbol.address, definition.size)?;
    for relocation in fields {
        if !apply(scene, definition, section.start(), *relocation, &mut bytes) {
            return Ok(None);
        }
    }
    Ok(Some(bytes))
}

// The bytes of a range of a section before relocations are applied.
fn contents_of(
    alloc: Global,
    section: &ViewSection<'_>,
    at: u64,
    size: u64,
) -> Result<Vec<u8>, AllocError>
    ensures { IfOk result (λ v. v.items ≡ bytes_at (section.now).bytes (at - (section.now).start) size) }
{
    let offset = at.saturating_sub(section.start());
    let contents = section.contents();
    if contents.is_empty() {
        return zeros(alloc, section.size(), offset, size);
    }
    part(alloc, contents, offset, size)
}

// So many zeros from an offset on, of so many.
#[tactic(auto, using(crate::proofs::FillingLaws::zeros_at))]
fn zeros(alloc: Global, all: u64, offset: u64, size: u64) -> Result<Vec<u8>, AllocError>
    ensures { IfOk result (λ v. v.items ≡ bytes_at (replicate all 0) offset size) }
{
    let count = size.min(all.saturating_sub(offset));
    vec![in alloc; 0u8; count as usize]
}

// So many bytes from an offset on, as far as there are any.
#[tactic(auto, using(crate::proofs::FillingLaws::none_at), unfolding(byte_core::specs::Number::bytes_at))]
fn part(alloc: Global, bytes: &[u8], offset: u64, size: u64) -> Result<Vec<u8>, AllocError>
    ensures { IfOk result (λ v. v.items ≡ bytes_at bytes.now offset size) }
{
    if offset >= bytes.len() as u64 {
        return Ok(Vec::new(alloc));
    }
    let part = front(&bytes[offset as usize..], size);
    part.to_vec(alloc)
}

// So many first bytes, as far as there are any.
#[tactic(auto, using(crate::proofs::FillingLaws::take_long))]
fn front(bytes: &[u8], size: u64) -> &[u8]
    ensures { result.now ≡ take size bytes.now }
{
    if size >= bytes.len() as u64 {
        return bytes;
    }
    &bytes[..size as usize]
}
