//! Ranges of a line, found by place.

ghost use Rattle.std.specs.Prelude.{◌≡◌, ◌+◌, ◌-◌, ◌<◌, ◌≤◌, ◌^◌, ℕ, List, IfOk, length, slice_get, Some};
ghost use Rattle.std.specs.List.Sorted.{IsPermutation, IsNonDecreasingBy};
ghost use Rattle.image_place.specs.Spanning.{AreLinked, AreWider, IsHolder, IsWider, covers};
ghost use Rattle.image_place.specs.declared.spans.Span.{Span};

use std::alloc::{AllocError, Global};
use std::marker::Model;

/// A range of a line.
#[derive(Clone, Copy)]
pub struct Span {
    /// Where it begins.
    pub low: u128,
    /// The place behind it.
    pub high: u128,
    /// What it is the range of.
    pub number: usize,
}

/// Ranges by where they begin. A contract sees them as a list.
#[derive(Drop)]
pub struct Spans {
    rows: Vec<Span>,
    // Of each range the place behind the last one before it that ends later, 0 where none does.
    wider: Vec<usize>,
}

impl Model for Spans {
    ghost use Rattle.std.specs.Prelude.{List};
    ghost use Rattle.image_place.specs.declared.spans.Span.{Span};
    ghost use Rattle.image_place.specs.Spanning.{AreLinked};

    ghost Value = { List Span };

    ghost view = { λ spans. spans.rows.items };

    ghost invariant = { λ spans. AreLinked spans.rows.items spans.wider.items };
}

impl Spans {
    /// These ranges.
    pub(crate) fn new(alloc: Global, mut rows: Vec<Span>) -> Result<Spans, AllocError>
        ensures { IfOk result (λ spans. IsPermutation rows.items spans) }
    {
        rows.sort_unstable_by_key(|span| span.low);
        let wider = wider_rows(alloc, &rows)?;
        Ok(Spans { rows, wider })
    }

    /// The number of the range before a place.
    pub(crate) fn number(&self, place: usize) -> usize
        requires more { 0 < place }
        requires inside { place ≤ length self.now }
        ensures { (p : Span) → slice_get self.now (place - 1) ≡ Some p → result ≡ p.number }
    {
        self.rows[place - 1].number
    }

    /// The place behind the last range that holds so many bytes at this place, 0 where none does.
    pub(crate) fn last_holder(&self, at: u128, width: u64) -> usize
        requires near { at < 2 ^ 120 }
        ensures { IsHolder self.now at width (length self.now) result }
    {
        let below = count_to(&self.rows, at);
        holder_below(&self.rows, &self.wider, at, width, below)
    }

    /// The same among the first so many ranges.
    pub(crate) fn holder_before(&self, at: u128, width: u64, below: usize) -> usize
        requires near { at < 2 ^ 120 }
        requires inside { below ≤ length self.now }
        ensures { IsHolder self.now at width below result }
    {
        holder_below(&self.rows, &self.wider, at, width, below)
    }
}

// Of each range the place behind the last one before it that ends later.
fn wider_rows(alloc: Global, rows: &[Span]) -> Result<Vec<usize>, AllocError>
    ensures { IfOk result (λ wider. AreWider rows.now wider.items (length rows.now)) }
{
    let mut wider = Vec::with_capacity(alloc, rows.len())?;
    for place in 0..rows.len() {
        let before = wider_before(rows, &wider, place);
        wider.push(before)?;
    }
    Ok(wider)
}

fn wider_before(rows: &[Span], wider: &[usize], place: usize) -> usize
    requires inside { place < length rows.now }
    requires wider { AreWider rows.now wider.now place }
    ensures { IsWider rows.now place result }
{
    let end = rows[place].high;
    let mut before = place;
    while before > 0 && rows[before - 1].high <= end {
        before = wider[before - 1];
    }
    before
}

fn holder_below(rows: &[Span], wider: &[usize], at: u128, width: u64, below: usize) -> usize
    requires near { at < 2 ^ 120 }
    requires inside { below ≤ length rows.now }
    requires wider { AreWider rows.now wider.now (length rows.now) }
    ensures { IsHolder rows.now at width below result }
{
    let mut place = below;
    while place > 0 {
        let span = rows[place - 1];
        if covers(span, at, width) {
            return place;
        }
        if at < span.low {
            place -= 1;
        } else {
            place = wider[place - 1];
        }
    }
    0
}

// Whether a range holds so many bytes at this place.
fn covers(span: Span, at: u128, width: u64) -> bool
    requires near { at < 2 ^ 120 }
    ensures { result ≡ covers at width span }
{
    span.low <= at && at + u128::from(width) <= span.high
}

// How many ranges begin no later than this place.
fn count_to(rows: &[Span], at: u128) -> usize
    requires order { IsNonDecreasingBy (λ p. p.low) rows.now }
    ensures bound { result ≤ length rows.now }
    ensures later { (m : ℕ) (p : Span) → result ≤ m → slice_get rows.now m ≡ Some p → at < p.low }
{
    let mut first = 0;
    let mut end = rows.len();
    while first < end {
        let middle = first + (end - first) / 2;
        if rows[middle].low <= at {
            first = middle + 1;
        } else {
            end = middle;
        }
    }
    end
}
