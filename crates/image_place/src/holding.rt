//! The definitions of an image, found by the bytes that they hold.

ghost use Rattle.std.specs.Prelude.{◌≡◌, ◌<◌, ◌^◌, find, length, map, option_map, slice_get, IfOk, IfErr, OnOk, Some};
ghost use Rattle.std.specs.List.{list_any};
ghost use Rattle.image_place.specs.Placed.{holds};
ghost use Rattle.image_place.specs.RangeRows.{definition_seen};
ghost use Rattle.image_place.specs.Holders.{IsFirst};
ghost use Rattle.image_place.specs.Indexed.{AreIndexed, AreSmall, IsSmall, line_place, span_of, spans_from};
ghost use Rattle.image_place.specs.declared.error.PlaceError.TheVariants.{OutOfMemory};

use crate::error::PlaceError;
use crate::ranges::Definition;
use crate::spans::{Span, Spans};
use std::alloc::Global;
use std::marker::Model;

/// The definitions of an image by row, with the order of their ranges. A contract sees them as a list.
#[derive(Drop)]
pub struct Definitions<'a> {
    rows: Vec<Definition<'a>>,
    spans: Spans,
}

impl<'a> Model for Definitions<'a> {
    ghost use Rattle.std.specs.Prelude.{List, map};
    ghost use Rattle.image_place.specs.Placed.{Definition};
    ghost use Rattle.image_place.specs.RangeRows.{definition_seen};
    ghost use Rattle.image_place.specs.Indexed.{AreIndexed};

    ghost Value = { List Definition };

    ghost view = { λ definitions. map definition_seen definitions.rows.items };

    ghost invariant = { λ definitions. AreIndexed (map definition_seen definitions.rows.items) definitions.spans };
}

impl<'a> Definitions<'a> {
    /// These definitions.
    pub(crate) fn new(
        alloc: Global,
        rows: Vec<Definition<'a>>,
    ) -> Result<Definitions<'a>, PlaceError>
        ensures ok { IfOk result (λ definitions. definitions ≡ map definition_seen rows.entry.items) }
        ensures err { IfErr result (λ e. e ≡ OutOfMemory) }
    {
        let ranges = ranges_of(alloc, &rows)?;
        let spans = Spans::new(alloc, ranges)?;
        Ok(Definitions { rows, spans })
    }

    /// The definitions by row.
    pub(crate) fn rows(&self) -> &[Definition<'a>]
        ensures { map definition_seen result.now ≡ self.now }
    {
        &self.rows
    }

    /// The definition of a number.
    pub(crate) fn row(&self, number: usize) -> Definition<'a>
        requires { number < length self.now }
        ensures { slice_get self.now number ≡ Some (definition_seen result) }
    {
        self.rows[number]
    }

    /// Their ranges on a line.
    pub(crate) fn spans(&self) -> &Spans
        ensures { AreIndexed self.now result.now }
    {
        &self.spans
    }
}

// The ranges of definitions on a line, by row.
fn ranges_of(alloc: Global, rows: &[Definition<'_>]) -> Result<Vec<Span>, PlaceError>
    ensures ok { IfOk result (λ ranges. ranges.items ≡ spans_from 0 (map definition_seen rows.now)) }
    ensures small { OnOk result (AreSmall (map definition_seen rows.now)) }
    ensures err { IfErr result (λ e. e ≡ OutOfMemory) }
{
    let mut ranges = Vec::with_capacity(alloc, rows.len())?;
    for (number, definition) in rows.iter().enumerate() {
        ranges.push(range_of(number, *definition)?)?;
    }
    Ok(ranges)
}

// The range of a definition. The sections of a file have 32 bits.
fn range_of(number: usize, definition: Definition<'_>) -> Result<Span, PlaceError>
    ensures ok { IfOk result (λ span. span ≡ span_of (number, definition_seen definition.entry)) }
    ensures small { OnOk result (IsSmall (definition_seen definition.entry)) }
    ensures err { IfErr result (λ e. e ≡ OutOfMemory) }
{
    if definition.section >= 4_294_967_296 {
        return Err(PlaceError::OutOfMemory);
    }
    let low = line_place(definition.section, u128::from(definition.symbol.address));
    let high = low + u128::from(definition.size);
    Ok(Span { low, high, number })
}

/// The place of an address of a section on a line where sections lie apart.
pub fn line_place(section: usize, at: u128) -> u128
    requires near { at < 2 ^ 66 }
    ensures place { result ≡ line_place section at }
    ensures near { result < 2 ^ 120 }
{
    let number = section.min(4_294_967_296) as u64;
    u128::from(number) * 73_786_976_294_838_206_464 + at
}

/// Whether some definition of a section holds so many bytes at this address of it.
pub fn is_held(definitions: &Definitions<'_>, section: usize, at: u128, width: u64) -> bool
    requires near { at < 2 ^ 66 }
    ensures { result ≡ list_any (holds section at width) definitions.now }
{
    let place = line_place(section, at);
    definitions.spans().last_holder(place, width) > 0
}

/// The first definition of a section that holds the byte at this address of it.
pub fn first_holder<'a>(
    definitions: &Definitions<'a>,
    section: usize,
    at: u64,
) -> Option<Definition<'a>>
    ensures { option_map definition_seen result ≡ find (holds section at 1) definitions.now }
{
    let number = first_number(definitions, section, at);
    if number >= definitions.rows().len() {
        return None;
    }
    Some(definitions.row(number))
}

// The number of the first definition of a section that holds the byte at this address of it, else the number of all.
fn first_number(definitions: &Definitions<'_>, section: usize, at: u64) -> usize
    ensures { IsFirst (holds section at 1) definitions.now result }
{
    let mut first = definitions.rows().len();
    let spans = definitions.spans();
    let target = line_place(section, u128::from(at));
    let mut place = spans.last_holder(target, 1);
    while place > 0 {
        first = first.min(spans.number(place));
        place = spans.holder_before(target, 1, place - 1);
    }
    first
}
