//! The orders of sections and symbols, their numbers, and the addresses of sections.

ghost use Rattle.std.specs.Prelude.{◌≡◌, ◌+◌, ◌<◌, ◌^◌, ◌++◌, ◌&&◌, not, IfOk, OnOk, length, count_by};
ghost use Rattle.std.specs.Int.{next_multiple_of};
ghost use Rattle.object_core.specs.MachRows.{is_mach_local, addresses_in};
ghost use Rattle.object_core.specs.Object.{is_local_symbol};
ghost use Rattle.object_core.specs.WellFormed.{is_file};
ghost use Rattle.object_macho.specs.Orders.{is_flags_in, is_section_in, is_row_in, is_symbol_in};
ghost use Rattle.object_macho.specs.Plan.{numbers_of, section_order, symbol_order, section_numbers, rows_of};
ghost use Rattle.object_macho.specs.PlainCounts.{has_row};

use crate::fill::stored_count;
use crate::limits::has_row;
use crate::rows::is_local;
use crate::sections::{is_stored, number_at};
use object_core::{Object, Section, SectionId, Symbol};
use std::alloc::{AllocError, Global};

/// The sections by their numbers in the object, in the order of their headers.
#[tactic(auto, unfolding(crate::specs::Plan::section_order))]
pub(crate) fn section_order(alloc: Global, object: &Object) -> Result<Vec<usize>, AllocError>
    ensures { IfOk result (λ order. order.items ≡ section_order (object.now).sections) }
{
    let mut order = Vec::with_capacity(alloc, object.sections().len())?;
    push_sections(&mut order, object, true)?;
    push_sections(&mut order, object, false)?;
    Ok(order)
}

/// Appends the numbers of the sections that take bytes of the file, or of the others.
fn push_sections(order: &mut Vec<usize>, object: &Object, stored: bool) -> Result<(), AllocError>
    ensures { OnOk result (order.new.items ≡ order.old.items ++ numbers_of (is_section_in stored) (object.now).sections) }
{
    let sections = object.sections();
    for (k, section) in sections.iter().enumerate() {
        if !is_section_in(section, stored) {
            continue;
        }
        order.push(k)?;
    }
    Ok(())
}

/// The section takes bytes of the file, or it doesn't.
pub(crate) fn is_section_in(section: &Section, stored: bool) -> bool
    ensures { result ≡ is_flags_in stored (section.now).macho_flags }
{
    if stored {
        is_stored(section)
    } else {
        !is_stored(section)
    }
}

/// The number of each section's header, in order of creation.
pub(crate) fn section_numbers(alloc: Global, object: &Object) -> Result<Vec<usize>, AllocError>
    ensures { IfOk result (λ numbers. numbers.items ≡ section_numbers (object.now).sections) }
{
    let sections = object.sections();
    let mut stored = 0;
    let mut other = stored_count(object);
    let mut numbers = Vec::with_capacity(alloc, sections.len())?;
    for section in sections {
        if is_stored(section) {
            numbers.push(stored)?;
            stored += 1;
            continue;
        }
        numbers.push(other)?;
        other += 1;
    }
    Ok(numbers)
}

/// The addresses of the sections, in the order of their headers.
pub(crate) fn addresses_of(
    alloc: Global,
    object: &Object,
    order: &[usize],
) -> Result<Vec<u64>, AllocError>
    requires sections { length (object.now).sections < 256 }
    requires contents { (object.now).content_sum < 2 ^ 31 }
    requires order { order.now ≡ section_order (object.now).sections }
    ensures { IfOk result (λ addresses. addresses.items ≡ addresses_in (object.now).sections) }
{
    let mut addresses = Vec::with_capacity(alloc, object.sections().len())?;
    let mut end = 0;
    for n in 0..order.len() {
        let section = object.section(SectionId::from_number(number_at(order, n)));
        let address = address_behind(end, section);
        addresses.push(address)?;
        end = end_of_section(address, section);
    }
    Ok(addresses)
}

/// The address of a section behind one that ends here.
pub(crate) fn address_behind(end: u64, section: &Section) -> u64
    requires end { end < 2 ^ 60 }
    requires some { 0 < (section.now).align }
    requires align { (section.now).align < 2 ^ 32 }
    ensures value { result ≡ next_multiple_of end (section.now).align }
    ensures bound { result < end + 2 ^ 32 }
{
    end.next_multiple_of(section.align())
}

/// Where a section at this address ends in memory.
pub(crate) fn end_of_section(address: u64, section: &Section) -> u64
    requires address { address < 2 ^ 61 }
    requires size { (section.now).size < 2 ^ 32 }
    ensures { result ≡ address + (section.now).size }
{
    address + section.size() as u64
}

/// The symbols by their numbers in the object, in the order of their rows.
#[tactic(auto, unfolding(crate::specs::Plan::symbol_order))]
pub(crate) fn symbol_order(alloc: Global, object: &Object) -> Result<Vec<usize>, AllocError>
    ensures { IfOk result (λ order. order.items ≡ symbol_order (object.now).symbols) }
{
    let mut order = Vec::with_capacity(alloc, object.symbols().len())?;
    push_symbols(&mut order, object, true)?;
    push_symbols(&mut order, object, false)?;
    Ok(order)
}

/// Appends the numbers of the local symbols that are no files, or of the others.
fn push_symbols(order: &mut Vec<usize>, object: &Object, local: bool) -> Result<(), AllocError>
    ensures { OnOk result (order.new.items ≡ order.old.items ++ numbers_of (is_symbol_in local) (object.now).symbols) }
{
    let symbols = object.symbols();
    for (k, symbol) in symbols.iter().enumerate() {
        if !is_row_in(symbol, local) {
            continue;
        }
        order.push(k)?;
    }
    Ok(())
}

/// The symbol is a local one that is no file, or one of the others.
pub(crate) fn is_row_in(symbol: &Symbol, local: bool) -> bool
    ensures { result ≡ is_row_in local symbol.now }
{
    if local {
        is_local_row(symbol)
    } else {
        !is_local(symbol)
    }
}

/// The symbol is local, and no file.
fn is_local_row(symbol: &Symbol) -> bool
    ensures { result ≡ (is_local_symbol symbol.now && not (is_file (symbol.now).kind)) }
{
    is_local(symbol) && has_row(symbol)
}

/// How many rows are those of local symbols.
#[tactic(auto, using(crate::proofs::Counting::count_local_rows))]
pub(crate) fn local_count(object: &Object) -> usize
    ensures { result ≡ count_by is_mach_local (object.now).symbols }
{
    object
        .symbols()
        .iter()
        .filter(|symbol| is_local_row(symbol))
        .count()
}

/// The row of each symbol, in order of creation.
pub(crate) fn rows_of(alloc: Global, object: &Object) -> Result<Vec<u32>, AllocError>
    requires { count_by has_row (object.now).symbols < 2 ^ 24 }
    ensures { IfOk result (λ rows. rows.items ≡ rows_of (object.now).symbols) }
{
    let symbols = object.symbols();
    let mut local: u32 = 0;
    let mut other = local_count(object) as u32;
    let mut rows = Vec::with_capacity(alloc, symbols.len())?;
    for symbol in symbols {
        if !is_local(symbol) {
            rows.push(other)?;
            other += 1;
            continue;
        }
        rows.push(local)?;
        if !has_row(symbol) {
            continue;
        }
        local += 1;
    }
    Ok(rows)
}
