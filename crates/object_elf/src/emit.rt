//! The file of an object.

ghost use Rattle.std.specs.Prelude.{◌≡◌, IfOk, length};
ghost use Rattle.ir_core.specs.declared.target.BinaryFormat.TheVariants.{Elf};
ghost use Rattle.object_core.specs.ElfRows.{elf_table_of};
ghost use Rattle.object_core.specs.WellFormed.{IsFormedElf};
ghost use Rattle.object_elf.specs.Counts.{elf_counts};
ghost use Rattle.object_elf.specs.ElfHolds.{ElfHolds};
ghost use Rattle.object_elf.specs.Limits.{IsJudged};
ghost use Rattle.object_elf.specs.Plan.{IsPlanOf};

use crate::body::place_body;
use crate::header::place_header;
use crate::plan::{ElfPlan, elf_plan};
use crate::section_rows::place_section_rows;
use crate::strings::place_section_strings;
use byte_core::place_padding;
use object_core::{EmitError, Object};
use std::alloc::{AllocError, Global};

/// The bytes of the object's ELF64 file. They hold exactly its link table, read by positions. TooMany and TooLarge name
/// the first limit of the format that is reached, and no memory is taken before they are judged.
pub fn emit_elf(alloc: Global, object: &Object) -> Result<Vec<u8>, EmitError>
    requires format { (object.now).format ≡ Elf }
    requires formed { IsFormedElf object.now }
    ensures ok { IfOk result (λ file. ElfHolds file.items (elf_table_of object.now)) }
    ensures cause { IsJudged result (elf_counts (elf_table_of object.now) (object.now).content_sum) }
{
    let plan = elf_plan(alloc, object)?;
    let mut file = zeros(alloc, plan.len())?;
    fill_elf(object, &plan, &mut file);
    Ok(file)
}

/// So many zeros.
fn zeros(alloc: Global, len: u64) -> Result<Vec<u8>, AllocError>
    ensures { IfOk result (λ bytes. length bytes.items ≡ len) }
{
    let bytes = vec![in alloc; 0u8; len as usize]?;
    Ok(bytes)
}

/// Writes the object's ELF64 file into a slice of its length, by a plan that is the object's own. It takes no memory.
/// The bytes hold exactly the object's link table, read by positions.
pub fn fill_elf(object: &Object, plan: &ElfPlan, out: &mut [u8])
    requires format { (object.now).format ≡ Elf }
    requires formed { IsFormedElf object.now }
    requires plan { IsPlanOf plan.now object.now }
    requires room { length out.old ≡ (plan.now).length }
    ensures { ElfHolds out.new (elf_table_of object.now) }
{
    let places = plan.places();
    let count = places.len() as u16;
    let start = plan.len() - 64 * (u64::from(count) + 1);
    let at = place_header(out, object.architecture(), object.e_flags(), start, count);
    let at = place_body(out, at, object, plan.rows());
    let at = place_section_strings(out, at, object);
    let at = place_padding(out, at, 8);
    place_section_rows(out, at, object, places);
}
