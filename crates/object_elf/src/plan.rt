//! The places of an object's ELF64 file, which are counted before the file is written.

ghost use Rattle.std.specs.Prelude.{◌≡◌, ◌+◌, ◌*◌, ◌<◌, ◌≤◌, ◌^◌, ◌↔◌, true, IfOk, MatchOption, map, length};
ghost use Rattle.std.specs.Int.{next_multiple_of};
ghost use Rattle.ir_core.specs.declared.target.BinaryFormat.TheVariants.{Elf};
ghost use Rattle.object_core.specs.ElfRows.{elf_table_of};
ghost use Rattle.object_core.specs.WellFormed.{IsFormedElf};
ghost use Rattle.object_elf.specs.Counts.{elf_counts};
ghost use Rattle.object_elf.specs.Layout.{parts_of};
ghost use Rattle.object_elf.specs.Limits.{IsJudged, IsWithinLimits};
ghost use Rattle.object_elf.specs.PartView.{part_view, content_part_of, relocation_parts_from, PushesPlaces};
ghost use Rattle.object_elf.specs.PlainCounts.{plain_counts};
ghost use Rattle.object_elf.specs.Plan.{IsPlanOf, plan_of};

use crate::layout::{
    PartHeader, content_part, end_behind, relocation_part, row_of_symbol_table, stack_note,
    start_behind, table_parts,
};
use crate::limits::check_limits;
use crate::object_names::section_name;
use crate::plan_check::{has_rows, length_at};
use crate::relocation_rows::rows_of_symbols;
use byte_core::align_up;
use object_core::{EmitError, Object, Section};
use std::alloc::{AllocError, Global};
use std::marker::Model;

/// The numbers of an object's ELF64 file that are counted before it is written: the row of each symbol, where each part
/// of the file starts, and the length of the file, in bytes. A contract sees them as lists.
#[derive(Debug, Drop)]
pub struct ElfPlan {
    rows: Vec<u32>,
    places: Vec<u64>,
    length: u64,
}

impl Model for ElfPlan {
    ghost use Rattle.object_elf.specs.Plan.{PlanData};

    ghost Value = { PlanData };

    ghost view = { λ plan. record { rows = plan.rows.items; places = plan.places.items; length = plan.length } };
}

/// Counts the places of the object's ELF64 file. TooMany and TooLarge name the first limit of the format that is
/// reached, and no memory is taken before they are judged.
pub fn elf_plan(alloc: Global, object: &Object) -> Result<ElfPlan, EmitError>
    requires format { (object.now).format ≡ Elf }
    requires formed { IsFormedElf object.now }
    ensures ok { IfOk result (λ plan. IsPlanOf plan object.now) }
    ensures cause { IsJudged result (elf_counts (elf_table_of object.now) (object.now).content_sum) }
{
    check_limits(object)?;
    let plan = counted_plan(alloc, object)?;
    Ok(plan)
}

/// The plan of an object that reaches no limit.
fn counted_plan(alloc: Global, object: &Object) -> Result<ElfPlan, AllocError>
    requires { IsWithinLimits (plain_counts object.now) }
    ensures { IfOk result (λ plan. plan ≡ plan_of object.now) }
{
    let rows = rows_of_symbols(alloc, object)?;
    let mut places = Vec::new(alloc);
    let end = push_all_places(&mut places, object)?;
    let length = file_length(end, places.len() as u64).ok_or(AllocError)?;
    Ok(ElfPlan {
        rows,
        places,
        length,
    })
}

/// The length of a file whose parts end here, with a null header and so many more. None past the numbers of 64 bits.
pub(crate) fn file_length(end: u64, count: u64) -> Option<u64>
    requires { count < 65280 }
    ensures { MatchOption result (2 ^ 64 ≤ next_multiple_of end 8 + 64 * (count + 1)) (λ length. length ≡ next_multiple_of end 8 + 64 * (count + 1)) }
{
    align_up(end, 8)?.checked_add(64 * (count + 1))
}

/// Appends where each part of the file starts, and answers where the last one ends.
fn push_all_places(places: &mut Vec<u64>, object: &Object) -> Result<u64, AllocError>
    requires { IsWithinLimits (plain_counts object.now) }
    ensures { IfOk result (λ end. PushesPlaces places.old.items places.new.items 64 end (parts_of (elf_table_of object.now))) }
{
    let table = row_of_symbol_table(object);
    let end = push_content_places(places, 64, object)?;
    let end = push_places(places, end, &[stack_note()])?;
    let end = push_relocation_places(places, end, object, table)?;
    let parts = table_parts(object, table);
    let end = push_places(places, end, &parts)?;
    Ok(end)
}

/// Appends where the sections of the object start.
fn push_content_places(places: &mut Vec<u64>, end: u64, object: &Object) -> Result<u64, AllocError>
    requires { (object.now).content_sum < 2 ^ 63 }
    ensures { IfOk result (λ next. PushesPlaces places.old.items places.new.items end next (map content_part_of (object.now).sections)) }
{
    let sections = object.sections();
    let mut next = end;
    for (k, section) in sections.iter().enumerate() {
        let part = content_part(section, section_name(object, k));
        next = push_places(places, next, &[part])?;
    }
    Ok(next)
}

/// Appends where the relocations of sections that have some start. The symbol table has the header row `link`.
fn push_relocation_places(
    places: &mut Vec<u64>,
    end: u64,
    object: &Object,
    link: u32,
) -> Result<u64, AllocError>
    requires { length (object.now).sections < 65280 }
    ensures { IfOk result (λ next. PushesPlaces places.old.items places.new.items end next (relocation_parts_from link 1 (object.now).sections)) }
{
    let sections = object.sections();
    let mut next = end;
    for (k, section) in sections.iter().enumerate() {
        if section.relocations().is_empty() {
            continue;
        }
        let size = records_size(section).ok_or(AllocError)?;
        let part = relocation_part(section_name(object, k), size, k as u32 + 1, link);
        next = push_places(places, next, &[part])?;
    }
    Ok(next)
}

/// How many bytes the relocations of a section take. None past the numbers of 64 bits.
pub(crate) fn records_size(section: &Section) -> Option<u64>
    ensures { MatchOption result (2 ^ 64 ≤ 24 * length (section.now).relocations) (λ size. size ≡ 24 * length (section.now).relocations) }
{
    (section.relocations().len() as u64).checked_mul(24)
}

/// Appends where parts start behind one that ends here, and answers where they end. A place past the numbers of 64 bits
/// is want of memory.
fn push_places(places: &mut Vec<u64>, end: u64, parts: &[PartHeader<'_>]) -> Result<u64, AllocError>
    ensures { IfOk result (λ next. PushesPlaces places.old.items places.new.items end next (map part_view parts.now)) }
{
    let mut next = end;
    for part in parts {
        let start = start_behind(next, part).ok_or(AllocError)?;
        next = end_behind(next, part).ok_or(AllocError)?;
        places.push(start)?;
    }
    Ok(next)
}

impl ElfPlan {
    /// The length of the file, in bytes.
    pub fn len(&self) -> u64
        ensures { result ≡ (self.now).length }
    {
        self.length
    }

    /// The plan is the object's own: the object reaches no limit, and the numbers that are kept are its numbers. It takes
    /// no memory.
    pub fn fits(&self, object: &Object) -> bool
        ensures { (result ≡ true) ↔ IsPlanOf self.now object.now }
    {
        if check_limits(object).is_err() {
            return false;
        }
        if !has_rows(self.rows(), object) {
            return false;
        }
        let length = self.len();
        match length_at(self.places(), object) {
            Some(found) => found == length,
            None => false,
        }
    }

    /// The row of each symbol.
    pub(crate) fn rows(&self) -> &[u32]
        ensures { result.now ≡ (self.now).rows }
    {
        &self.rows
    }

    /// Where each part of the file starts.
    pub(crate) fn places(&self) -> &[u64]
        ensures { result.now ≡ (self.now).places }
    {
        &self.places
    }
}
