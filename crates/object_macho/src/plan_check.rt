//! Whether a plan is an object's own. Nothing here takes memory.

ghost use Rattle.std.specs.Prelude.{◌≡◌, ◌<◌, ◌≤◌, ◌^◌, true, length, count_by};
ghost use Rattle.object_core.specs.MachRows.{addresses_in};
ghost use Rattle.object_macho.specs.Compared.{EndsNumbers};
ghost use Rattle.object_macho.specs.Orders.{is_section_in, is_symbol_in};
ghost use Rattle.object_macho.specs.Plan.{numbers_of, section_order, symbol_order, section_numbers, rows_of};
ghost use Rattle.object_macho.specs.PlainCounts.{has_row};

use crate::counted::{address_behind, end_of_section, is_row_in, is_section_in, local_count};
use crate::fill::stored_count;
use crate::limits::has_row;
use crate::rows::is_local;
use crate::sections::{is_stored, number_at};
use object_core::{Object, SectionId};

/// The numbers are those of the sections in the order of their headers.
pub(crate) fn has_sections(order: &[usize], object: &Object) -> bool
    ensures yes { result ≡ true → order.now ≡ section_order (object.now).sections }
    ensures all { order.now ≡ section_order (object.now).sections → result ≡ true }
{
    match behind_sections(order, 0, object, true) {
        Some(next) => match behind_sections(order, next, object, false) {
            Some(end) => end == order.len(),
            None => false,
        },
        None => false,
    }
}

/// The place behind the numbers of the sections that take bytes of the file, or of the others. None where they don't
/// stand from this place on.
fn behind_sections(order: &[usize], from: usize, object: &Object, stored: bool) -> Option<usize>
    requires { from ≤ length order.now }
    ensures { EndsNumbers result order.now from (numbers_of (is_section_in stored) (object.now).sections) }
{
    let sections = object.sections();
    let mut at = from;
    for (k, section) in sections.iter().enumerate() {
        if !is_section_in(section, stored) {
            continue;
        }
        if at >= order.len() {
            return None;
        }
        if order[at] != k {
            return None;
        }
        at += 1;
    }
    Some(at)
}

/// The numbers are those of the symbols in the order of their rows.
pub(crate) fn has_symbols(order: &[usize], object: &Object) -> bool
    ensures yes { result ≡ true → order.now ≡ symbol_order (object.now).symbols }
    ensures all { order.now ≡ symbol_order (object.now).symbols → result ≡ true }
{
    match behind_symbols(order, 0, object, true) {
        Some(next) => match behind_symbols(order, next, object, false) {
            Some(end) => end == order.len(),
            None => false,
        },
        None => false,
    }
}

/// The place behind the numbers of the local symbols that are no files, or of the others. None where they don't stand
/// from this place on.
fn behind_symbols(order: &[usize], from: usize, object: &Object, local: bool) -> Option<usize>
    requires { from ≤ length order.now }
    ensures { EndsNumbers result order.now from (numbers_of (is_symbol_in local) (object.now).symbols) }
{
    let symbols = object.symbols();
    let mut at = from;
    for (k, symbol) in symbols.iter().enumerate() {
        if !is_row_in(symbol, local) {
            continue;
        }
        if at >= order.len() {
            return None;
        }
        if order[at] != k {
            return None;
        }
        at += 1;
    }
    Some(at)
}

/// The numbers are those of the sections' headers, in order of creation.
pub(crate) fn has_numbers(numbers: &[usize], object: &Object) -> bool
    ensures yes { result ≡ true → numbers.now ≡ section_numbers (object.now).sections }
    ensures all { numbers.now ≡ section_numbers (object.now).sections → result ≡ true }
{
    let sections = object.sections();
    if numbers.len() != sections.len() {
        return false;
    }
    let mut stored = 0;
    let mut other = stored_count(object);
    for (k, section) in sections.iter().enumerate() {
        if is_stored(section) {
            if numbers[k] != stored {
                return false;
            }
            stored += 1;
            continue;
        }
        if numbers[k] != other {
            return false;
        }
        other += 1;
    }
    true
}

/// The addresses are those of the sections, which have this order.
pub(crate) fn has_addresses(addresses: &[u64], object: &Object, order: &[usize]) -> bool
    requires sections { length (object.now).sections < 256 }
    requires contents { (object.now).content_sum < 2 ^ 31 }
    requires order { order.now ≡ section_order (object.now).sections }
    ensures yes { result ≡ true → addresses.now ≡ addresses_in (object.now).sections }
    ensures all { addresses.now ≡ addresses_in (object.now).sections → result ≡ true }
{
    if addresses.len() != object.sections().len() {
        return false;
    }
    let mut end = 0;
    for n in 0..order.len() {
        let section = object.section(SectionId::from_number(number_at(order, n)));
        let address = address_behind(end, section);
        if addresses[n] != address {
            return false;
        }
        end = end_of_section(address, section);
    }
    true
}

/// The rows are those of the symbols, in order of creation.
pub(crate) fn has_rows(rows: &[u32], object: &Object) -> bool
    requires { count_by has_row (object.now).symbols < 2 ^ 24 }
    ensures yes { result ≡ true → rows.now ≡ rows_of (object.now).symbols }
    ensures all { rows.now ≡ rows_of (object.now).symbols → result ≡ true }
{
    let symbols = object.symbols();
    if rows.len() != symbols.len() {
        return false;
    }
    let mut local: u32 = 0;
    let mut other = local_count(object) as u32;
    for (k, symbol) in symbols.iter().enumerate() {
        if !is_local(symbol) {
            if rows[k] != other {
                return false;
            }
            other += 1;
            continue;
        }
        if rows[k] != local {
            return false;
        }
        if !has_row(symbol) {
            continue;
        }
        local += 1;
    }
    true
}
