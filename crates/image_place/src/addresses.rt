//! Address rows, found by image and symbol.

ghost use Rattle.std.specs.Prelude.{◌≡◌, ◌+◌, ◌*◌, ◌^◌, ◌<◌, ◌≤◌, true, false, length, IfOk, OnOk};
ghost use Rattle.image_place.specs.Placed.{row_for, given};
ghost use Rattle.image_place.specs.Finding.{AreOrdered, FindsRows, NotesRow, is_row, row_key};

use crate::rows::DefAddress;
use std::alloc::{AllocError, Global};
use std::collections::BTreeMap;
use std::marker::Model;

/// Address rows. Of several for a symbol the first counts. A contract sees them as a list.
#[derive(Drop)]
pub struct Addresses<'a> {
    rows: &'a [DefAddress],
    // They ascend by image and symbol, and the map isn't used.
    is_ordered: bool,
    first: BTreeMap<u128, DefAddress>,
}

impl<'a> Model for Addresses<'a> {
    ghost use Rattle.std.specs.Prelude.{List};
    ghost use Rattle.image_place.specs.Placed.{AddressRow};
    ghost use Rattle.image_place.specs.Finding.{FindsBy};

    ghost Value = { List AddressRow };

    ghost view = { λ addresses. addresses.rows.now };

    ghost invariant = { λ addresses. FindsBy addresses.is_ordered addresses.first addresses.rows.now };
}

impl<'a> Addresses<'a> {
    /// These rows.
    pub(crate) fn new(alloc: Global, rows: &'a [DefAddress]) -> Result<Addresses<'a>, AllocError>
        ensures { IfOk result (λ addresses. addresses ≡ rows.now) }
    {
        let is_ordered = are_ordered(rows);
        let first = if is_ordered {
            BTreeMap::new(alloc)
        } else {
            first_rows(alloc, rows)?
        };
        Ok(Addresses {
            rows,
            is_ordered,
            first,
        })
    }

    /// The first row of a symbol of an image.
    pub(crate) fn row(&self, image: usize, symbol: u32) -> Option<DefAddress>
        ensures { result ≡ row_for self.now image symbol }
    {
        if self.is_ordered {
            return ordered_row(self.rows, image, symbol);
        }
        self.first.get(&key_of(image, symbol)).copied()
    }

    /// The address that is given for a symbol of an image, 0 where none is.
    pub(crate) fn given(&self, image: usize, symbol: u32) -> u64
        ensures { result ≡ given self.now image symbol }
    {
        match self.row(image, symbol) {
            Some(row) => row.address,
            None => 0,
        }
    }
}

// Whether rows ascend by image and symbol.
fn are_ordered(rows: &[DefAddress]) -> bool
    ensures { result ≡ true → AreOrdered rows.now }
{
    for place in 1..rows.len() {
        let before = rows[place - 1];
        let here = rows[place];
        if key_of(before.image, before.symbol) >= key_of(here.image, here.symbol) {
            return false;
        }
    }
    true
}

// The row of a symbol of an image, among rows that ascend.
fn ordered_row(rows: &[DefAddress], image: usize, symbol: u32) -> Option<DefAddress>
    requires order { AreOrdered rows.now }
    ensures { result ≡ row_for rows.now image symbol }
{
    let mut first = 0;
    let mut end = rows.len();
    while first < end {
        let place = probe(rows, first, end, image, symbol);
        let row = rows[place];
        if is_row_of(row, image, symbol) {
            return Some(row);
        }
        if is_before(row, image, symbol) {
            first = place + 1;
        } else {
            end = place;
        }
    }
    None
}

// A place from `first` to below `end`, at which a symbol's row is looked for: its own, where the symbols of its image have a row
// each from `first` on; the middle, where that one lies outside.
fn probe(rows: &[DefAddress], first: usize, end: usize, image: usize, symbol: u32) -> usize
    requires some { first < end }
    requires inside { end ≤ length rows.now }
    ensures start { first ≤ result }
    ensures end { result < end }
{
    let row = rows[first];
    if row.image == image && row.symbol <= symbol {
        let ahead = (symbol - row.symbol) as usize;
        if ahead < end - first {
            return first + ahead;
        }
    }
    first + (end - first) / 2
}

// Whether a row stands before that of a symbol of an image.
fn is_before(row: DefAddress, image: usize, symbol: u32) -> bool
    ensures yes { result ≡ true → row_key row.image row.symbol < row_key image symbol }
    ensures no { result ≡ false → row_key image symbol ≤ row_key row.image row.symbol }
{
    if row.image == image {
        row.symbol < symbol
    } else {
        row.image < image
    }
}

fn is_row_of(row: DefAddress, image: usize, symbol: u32) -> bool
    ensures { result ≡ is_row image symbol row }
{
    row.image == image && row.symbol == symbol
}

fn first_rows(alloc: Global, rows: &[DefAddress]) -> Result<BTreeMap<u128, DefAddress>, AllocError>
    ensures { IfOk result (λ first. FindsRows first rows.now) }
{
    let mut first = BTreeMap::new(alloc);
    for row in rows {
        note(&mut first, *row)?;
    }
    Ok(first)
}

// Notes a row, unless there is one of its symbol.
fn note(first: &mut BTreeMap<u128, DefAddress>, row: DefAddress) -> Result<(), AllocError>
    ensures { OnOk result (NotesRow first.old first.new row) }
{
    let key = key_of(row.image, row.symbol);
    if first.contains_key(&key) {
        return Ok(());
    }
    first.insert(key, row)?;
    Ok(())
}

// A number for a symbol of an image.
fn key_of(image: usize, symbol: u32) -> u128
    ensures { result ≡ row_key image symbol }
{
    u128::from(image as u64) * 4_294_967_296 + u128::from(symbol)
}
