//! The numbers of an object's Mach-O file, which are counted before the file is written.

ghost use Rattle.std.specs.Prelude.{◌≡◌, ◌↔◌, true, IfOk};
ghost use Rattle.ir_core.specs.declared.target.BinaryFormat.TheVariants.{Macho};
ghost use Rattle.object_core.specs.Limits.{IsJudgedBy};
ghost use Rattle.object_core.specs.MachRows.{macho_table_of};
ghost use Rattle.object_core.specs.WellFormed.{IsFormedMacho};
ghost use Rattle.object_macho.specs.Counts.{mach_counts};
ghost use Rattle.object_macho.specs.Limits.{mach_limit_cause};
ghost use Rattle.object_macho.specs.Plan.{IsWithinLimits, HasNumbers, IsPlanOf, plan_of};
ghost use Rattle.object_macho.specs.PlainCounts.{plain_counts};

use crate::counted::{addresses_of, rows_of, section_numbers, section_order, symbol_order};
use crate::limits::{check_limits, file_size, record_count};
use crate::plan_check::{has_addresses, has_numbers, has_rows, has_sections, has_symbols};
use object_core::{EmitError, Object};
use std::alloc::{AllocError, Global};
use std::marker::Model;

/// The numbers of an object's Mach-O file that are counted before it is written: the orders of sections and symbols, the
/// numbers of headers and rows, the addresses of sections, how many records there are, and the length of the file, in
/// bytes. A contract sees them as lists.
#[derive(Debug, Drop)]
pub struct MachoPlan {
    sections: Vec<usize>,
    numbers: Vec<usize>,
    addresses: Vec<u64>,
    symbols: Vec<usize>,
    rows: Vec<u32>,
    records: u64,
    length: u64,
}

impl Model for MachoPlan {
    ghost use Rattle.object_macho.specs.Plan.{PlanData};

    ghost Value = { PlanData };

    ghost view = { λ plan. record { sections = plan.sections.items; numbers = plan.numbers.items; addresses = plan.addresses.items; symbols = plan.symbols.items; rows = plan.rows.items; records = plan.records; length = plan.length } };
}

/// Counts the numbers of the object's Mach-O file. TooMany and TooLarge name the first limit of the format that is
/// reached, and no memory is taken before they are judged.
pub fn macho_plan(alloc: Global, object: &Object) -> Result<MachoPlan, EmitError>
    requires format { (object.now).format ≡ Macho }
    requires formed { IsFormedMacho object.now }
    ensures ok { IfOk result (λ plan. IsPlanOf plan object.now) }
    ensures cause { IsJudgedBy result (mach_limit_cause (mach_counts (macho_table_of object.now) (object.now).content_sum)) }
{
    check_limits(object)?;
    let plan = counted_plan(alloc, object)?;
    Ok(plan)
}

/// The plan of an object that reaches no limit.
fn counted_plan(alloc: Global, object: &Object) -> Result<MachoPlan, AllocError>
    requires { IsWithinLimits (plain_counts object.now) }
    ensures { IfOk result (λ plan. plan ≡ plan_of object.now) }
{
    let sections = section_order(alloc, object)?;
    let numbers = section_numbers(alloc, object)?;
    let addresses = addresses_of(alloc, object, &sections)?;
    let symbols = symbol_order(alloc, object)?;
    let rows = rows_of(alloc, object)?;
    let records = record_count(object) as u64;
    let length = file_size(object) as u64;
    Ok(MachoPlan {
        sections,
        numbers,
        addresses,
        symbols,
        rows,
        records,
        length,
    })
}

/// The numbers that are kept are those of an object that reaches no limit.
fn has_plan(plan: &MachoPlan, object: &Object) -> bool
    requires { IsWithinLimits (plain_counts object.now) }
    ensures yes { result ≡ true → HasNumbers plan.now object.now }
    ensures all { HasNumbers plan.now object.now → result ≡ true }
{
    let order = plan.sections();
    if !has_sections(order, object) {
        return false;
    }
    if !has_numbers(plan.numbers(), object) {
        return false;
    }
    if !has_addresses(plan.addresses(), object, order) {
        return false;
    }
    if !has_symbols(plan.symbols(), object) {
        return false;
    }
    if !has_rows(plan.rows(), object) {
        return false;
    }
    if u128::from(plan.records()) != record_count(object) {
        return false;
    }
    u128::from(plan.len()) == file_size(object)
}

impl MachoPlan {
    /// The length of the file, in bytes.
    pub fn len(&self) -> u64
        ensures { result ≡ (self.now).length }
    {
        self.length
    }

    /// The plan is the object's own: the object reaches no limit, and the numbers that are kept are its numbers. It takes
    /// no memory.
    pub fn fits(&self, object: &Object) -> bool
        ensures { (result ≡ true) ↔ IsPlanOf self.now object.now }
    {
        if check_limits(object).is_err() {
            return false;
        }
        has_plan(self, object)
    }

    /// The sections by their numbers in the object, in the order of their headers.
    pub(crate) fn sections(&self) -> &[usize]
        ensures { result.now ≡ (self.now).sections }
    {
        &self.sections
    }

    /// The number of each section's header, in order of creation.
    pub(crate) fn numbers(&self) -> &[usize]
        ensures { result.now ≡ (self.now).numbers }
    {
        &self.numbers
    }

    /// The addresses of the sections, in the order of their headers.
    pub(crate) fn addresses(&self) -> &[u64]
        ensures { result.now ≡ (self.now).addresses }
    {
        &self.addresses
    }

    /// The symbols by their numbers in the object, in the order of their rows.
    pub(crate) fn symbols(&self) -> &[usize]
        ensures { result.now ≡ (self.now).symbols }
    {
        &self.symbols
    }

    /// The row of each symbol, in order of creation.
    pub(crate) fn rows(&self) -> &[u32]
        ensures { result.now ≡ (self.now).rows }
    {
        &self.rows
    }

    /// How many records all sections have.
    pub(crate) fn records(&self) -> u64
        ensures { result ≡ (self.now).records }
    {
        self.records
    }
}
