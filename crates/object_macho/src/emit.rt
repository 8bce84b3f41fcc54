//! The file of an object.

ghost use Rattle.std.specs.Prelude.{◌≡◌, IfOk, length};
ghost use Rattle.ir_core.specs.declared.target.BinaryFormat.TheVariants.{Macho};
ghost use Rattle.object_core.specs.Limits.{IsJudgedBy};
ghost use Rattle.object_core.specs.MachRows.{macho_table_of};
ghost use Rattle.object_core.specs.WellFormed.{IsFormedMacho};
ghost use Rattle.object_macho.specs.Counts.{mach_counts};
ghost use Rattle.object_macho.specs.Limits.{mach_limit_cause};
ghost use Rattle.object_macho.specs.MachHolds.{MachHolds};

use crate::fill::fill_macho;
use crate::plan::macho_plan;
use object_core::{EmitError, Object};
use std::alloc::{AllocError, Global};

/// The bytes of the object's Mach-O file. They hold exactly its link table, read by positions. TooMany and TooLarge name
/// the first limit of the format that is reached, and no memory is taken before they are judged.
pub fn emit_macho(alloc: Global, object: &Object) -> Result<Vec<u8>, EmitError>
    requires format { (object.now).format ≡ Macho }
    requires formed { IsFormedMacho object.now }
    ensures ok { IfOk result (λ file. MachHolds file.items (macho_table_of object.now)) }
    ensures cause { IsJudgedBy result (mach_limit_cause (mach_counts (macho_table_of object.now) (object.now).content_sum)) }
{
    let plan = macho_plan(alloc, object)?;
    let mut file = zeros(alloc, plan.len())?;
    fill_macho(object, &plan, &mut file);
    Ok(file)
}

/// So many zeros.
fn zeros(alloc: Global, len: u64) -> Result<Vec<u8>, AllocError>
    ensures { IfOk result (λ bytes. length bytes.items ≡ len) }
{
    let bytes = vec![in alloc; 0u8; len as usize]?;
    Ok(bytes)
}
