//! The relocations of an image by the definitions that hold their fields.

ghost use Rattle.std.specs.Prelude.{◌≡◌, ◌<◌, ◌∷◌, [], length, map, IfOk, OnOk, filter, if◌then◌else◌};
ghost use Rattle.image_place.specs.Grouped.{AreEmpty, AreGrouped, Groups, GroupsOne, holds_here};
ghost use Rattle.image_place.specs.RangeRows.{definition_seen};

use crate::holding::{Definitions, line_place};
use crate::judging::width_of;
use image_view::{View, ViewReloc, ViewSection};
use std::alloc::{AllocError, Global};

/// The relocations whose field each definition holds, in the order of the file.
pub fn fields_of(
    alloc: Global,
    view: &View<'_>,
    definitions: &Definitions<'_>,
) -> Result<Vec<Vec<ViewReloc>>, AllocError>
    ensures { IfOk result (λ fields. AreGrouped view.now definitions.now (map (λ f. f.items) fields.items)) }
{
    let mut fields = no_fields(alloc, definitions)?;
    for (k, section) in view.sections().iter().enumerate() {
        group_section(&mut fields, definitions, k, section)?;
    }
    Ok(fields)
}

// An empty list for each definition.
fn no_fields(
    alloc: Global,
    definitions: &Definitions<'_>,
) -> Result<Vec<Vec<ViewReloc>>, AllocError>
    ensures { IfOk result (λ fields. AreEmpty (length definitions.now) (map (λ f. f.items) fields.items)) }
{
    let rows = definitions.rows();
    let mut fields = Vec::with_capacity(alloc, rows.len())?;
    for _ in rows {
        fields.push(Vec::new(alloc))?;
    }
    Ok(fields)
}

// Appends the relocations of section `k` to the lists of the definitions that hold their fields.
fn group_section(
    fields: &mut Vec<Vec<ViewReloc>>,
    definitions: &Definitions<'_>,
    k: usize,
    section: &ViewSection<'_>,
) -> Result<(), AllocError>
    requires long { length fields.old.items ≡ length definitions.now }
    ensures { OnOk result (Groups definitions.now (λ d. filter (holds_here k (section.now).start d) (section.now).relocations) (map (λ f. f.items) fields.old.items) (map (λ f. f.items) fields.new.items)) }
{
    for relocation in section.relocations() {
        group_one(fields, definitions, k, section.start(), *relocation)?;
    }
    Ok(())
}

// Appends a relocation of section `k`, which begins there, to the lists of the definitions that hold its field.
fn group_one(
    fields: &mut Vec<Vec<ViewReloc>>,
    definitions: &Definitions<'_>,
    k: usize,
    start: u64,
    r: ViewReloc,
) -> Result<(), AllocError>
    requires long { length fields.old.items ≡ length definitions.now }
    ensures { OnOk result (Groups definitions.now (λ d. if holds_here k start d r then r ∷ [] else []) (map (λ f. f.items) fields.old.items) (map (λ f. f.items) fields.new.items)) }
{
    let Some(kind) = r.kind else {
        return Ok(());
    };
    let spans = definitions.spans();
    let width = width_of(kind) as u64;
    let at = line_place(k, u128::from(start) + u128::from(r.offset));
    let mut place = spans.last_holder(at, width);
    while place > 0 {
        push_field(fields, spans.number(place), r)?;
        place = spans.holder_before(at, width, place - 1);
    }
    Ok(())
}

fn push_field(
    fields: &mut Vec<Vec<ViewReloc>>,
    number: usize,
    r: ViewReloc,
) -> Result<(), AllocError>
    requires inside { number < length fields.old.items }
    ensures { OnOk result (GroupsOne number r (map (λ f. f.items) fields.old.items) (map (λ f. f.items) fields.new.items)) }
{
    fields[number].push(r)?;
    Ok(())
}
