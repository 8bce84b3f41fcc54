//! Tests of relocations that a back end makes before it accepts a definition, exact for their causes and their order.

ghost use Rattle.std.specs.Prelude.{◌≡◌, ◌++◌, ◌∷◌, ◌+◌, ◌≤◌, Some, None, OnOk, IfErr, IfOk, true, false, length, List, [], Option, ℕ, replicate, take, drop, ◌-◌};
ghost use Rattle.std.specs.List.{list_any};
ghost use Rattle.cranelift_module.specs.Refusal.{Tells, is_outside, is_refused_in, is_bad_field, addend_fits, reloc_cause, bad_reloc_from};
ghost use Rattle.cranelift_module.specs.TakenBytes.{AreTaken, is_marked};
ghost use Rattle.cranelift_module.specs.Kind.{field_width};
ghost use Rattle.cranelift_module.specs.MachO.{mach_cputype};
ghost use Rattle.cranelift_module.specs.MachKind.{mach_number};
ghost use Rattle.cranelift_module.specs.declared.reloc.ModuleReloc.{ModuleReloc};

use crate::{BackendCause, ModuleError, ModuleReloc, ModuleResult};
use ir_core::{
    Architecture, BinaryFormat, TargetIsa, field_width, has_kind_in, has_room, mach_cputype,
    mach_number,
};
use std::alloc::{AllocError, Global};

/// Refuses the first relocation of a kind that the target lacks, or whose field is refused: it leaves so many bytes of
/// contents, and where there are none, as zeros have none, each field leaves them; in Mach-O also where it shares a byte
/// with the field of a relocation before it, and where the addend has no room.
pub fn check_relocs(
    alloc: Global,
    isa: &TargetIsa,
    size: Option<usize>,
    relocs: &[ModuleReloc],
) -> ModuleResult<()>
    ensures accepted { OnOk result (bad_reloc_from isa.now size [] relocs.now ≡ None) }
    ensures refused { IfErr result (λ e. Tells e (bad_reloc_from isa.now size [] relocs.now)) }
{
    let mut taken = room_for_marks(alloc, isa.triple().binary_format, size)?;
    for (index, reloc) in relocs.iter().enumerate() {
        if let Err(error) = check_reloc(isa, size, &taken, index, reloc) {
            return Err(error);
        }
        take_field(&mut taken, reloc);
    }
    Ok(())
}

// A mark for each byte of the contents, where the format asks for fields that are apart.
fn room_for_marks(
    alloc: Global,
    format: BinaryFormat,
    size: Option<usize>,
) -> Result<Vec<bool>, AllocError>
    ensures { IfOk result (λ taken. AreTaken format size taken.items []) }
{
    match format {
        BinaryFormat::Macho => unmarked(alloc, size.unwrap_or(0)),
        _ => Ok(Vec::new(alloc)),
    }
}

fn unmarked(alloc: Global, count: usize) -> Result<Vec<bool>, AllocError>
    ensures { IfOk result (λ taken. taken.items ≡ replicate count false) }
{
    let mut taken = Vec::new(alloc);
    taken.resize(count, false)?;
    Ok(taken)
}

// Refuses the relocation of this number, by its kind or its field.
fn check_reloc(
    isa: &TargetIsa,
    size: Option<usize>,
    taken: &[bool],
    index: usize,
    reloc: &ModuleReloc,
) -> ModuleResult<()>
    ensures accepted { (before : List ModuleReloc) → length before ≡ index → AreTaken (isa.now).triple.binary_format size taken.now before → OnOk result (reloc_cause isa.now size before reloc.now ≡ None) }
    ensures refused { (before : List ModuleReloc) → length before ≡ index → AreTaken (isa.now).triple.binary_format size taken.now before → IfErr result (λ e. Tells e (reloc_cause isa.now size before reloc.now)) }
{
    let triple = isa.triple();
    if !has_kind_in(triple.binary_format, triple.architecture, reloc.kind) {
        return Err(ModuleError::Backend(BackendCause::UnsupportedReloc {
            index,
            kind: reloc.kind,
        }));
    }
    if is_bad_field(isa, size, taken, reloc) {
        return Err(ModuleError::Backend(BackendCause::BadReloc {
            index,
            offset: reloc.offset,
        }));
    }
    Ok(())
}

// Whether the field of a relocation is refused.
fn is_bad_field(isa: &TargetIsa, size: Option<usize>, taken: &[bool], reloc: &ModuleReloc) -> bool
    ensures { (before : List ModuleReloc) → AreTaken (isa.now).triple.binary_format size taken.now before → result ≡ is_bad_field isa.now size before reloc.now }
{
    is_outside(size, reloc) || is_refused(isa, taken, reloc)
}

// Whether the format alone refuses a field that lies in the contents.
fn is_refused(isa: &TargetIsa, taken: &[bool], reloc: &ModuleReloc) -> bool
    ensures { (size : Option ℕ) (before : List ModuleReloc) → is_outside size reloc.now ≡ false
        → AreTaken (isa.now).triple.binary_format size taken.now before → result ≡ is_refused_in (isa.now).triple.binary_format (isa.now).triple.architecture before reloc.now }
{
    match isa.triple().binary_format {
        BinaryFormat::Macho => {
            is_taken(taken, reloc) || !addend_fits(isa.triple().architecture, reloc)
        }
        _ => false,
    }
}

// Whether a byte of a field is marked.
fn is_taken(taken: &[bool], reloc: &ModuleReloc) -> bool
    ensures { (reloc.now).offset + field_width (reloc.now).kind ≤ length taken.now → result ≡ is_marked taken.now (reloc.now).offset (field_width (reloc.now).kind) }
{
    let start = reloc.offset as usize;
    let end = start + field_width(reloc.kind) as usize;
    end <= taken.len() && is_any_marked(&taken[start..end])
}

fn is_any_marked(field: &[bool]) -> bool
    ensures { result ≡ list_any (λ mark. mark) field.now }
{
    field.iter().any(|mark| *mark)
}

// Whether an addend has room where a Mach-O file of the processor keeps it.
fn addend_fits(architecture: Architecture, reloc: &ModuleReloc) -> bool
    ensures { result ≡ addend_fits (mach_cputype architecture) (mach_number architecture (reloc.now).kind) (reloc.now).addend }
{
    match mach_number(architecture, reloc.kind) {
        Some(number) => has_room(mach_cputype(architecture), number, reloc.addend),
        None => false,
    }
}

// Marks the bytes of a field.
fn take_field(taken: &mut Vec<bool>, reloc: &ModuleReloc)
    ensures { (format : BinaryFormat) (size : Option ℕ) (before : List ModuleReloc) → is_outside size reloc.now ≡ false → AreTaken format size taken.old.items before → AreTaken format size taken.new.items (before ++ reloc.now ∷ []) }
{
    let start = reloc.offset as usize;
    let end = start + field_width(reloc.kind) as usize;
    if end <= taken.len() {
        mark(taken, start, end);
    }
}

fn mark(taken: &mut Vec<bool>, start: usize, end: usize)
    requires order { start ≤ end }
    requires inside { end ≤ length taken.old.items }
    ensures { taken.new.items ≡ take start taken.old.items ++ (replicate (end - start) true ++ drop end taken.old.items) }
{
    taken[start..end].fill(true);
}

// Whether the field of a relocation leaves so many bytes.
fn is_outside(size: Option<usize>, reloc: &ModuleReloc) -> bool
    ensures { result ≡ is_outside size reloc.now }
{
    match size {
        Some(size) => (size as u64) < u64::from(reloc.offset) + u64::from(field_width(reloc.kind)),
        None => true,
    }
}
