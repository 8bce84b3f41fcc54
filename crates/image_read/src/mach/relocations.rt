//! Relocations: `relocation_info`.

ghost use Rattle.std.specs.Prelude.{◌≡◌, ◌≤◌, ◌<◌, ◌+◌, ◌*◌, ◌^◌, ◌↔◌, map, length, IsTrue, IfOk};
ghost use Rattle.std.specs.List.{range_with_len};
ghost use Rattle.image_read.specs.ElfRows.{EachRow};
ghost use Rattle.image_read.specs.MachFile.{symtab_of, mach_relocation_row_at};
ghost use Rattle.image_read.specs.MachImage.{IsMachRelocation};
ghost use Rattle.image_read.specs.MachRows.{IsSoundRecord, record_at};
ghost use Rattle.image_read.specs.MachViews.{mach_relocation_of};

use crate::mach::MachReloc64;
use crate::mach::file::MachFile;
use crate::mach::rows::{RELOCATION_SIZE, SectionNumbers};
use std::alloc::{AllocError, Global};

// The bit of a scattered relocation.
const R_SCATTERED: u32 = 0x8000_0000;

/// Whether each relocation of a section meets its conditions, in a file of so many symbols.
#[tactic(auto, using(crate::proofs::Rows::each_none, crate::proofs::Rows::each_next, crate::proofs::Rows::each_end))]
pub fn are_relocations(file: &MachFile<'_>, row: &SectionNumbers, symbols: u32) -> bool
    requires inside { row.now.reloff + 8 * row.now.nreloc ≤ length file.now }
    requires symbols { symbols ≡ (symtab_of file.now).nsyms }
    ensures { IsTrue result ↔ EachRow (IsSoundRecord file.now row.now.reloff) 0 row.now.nreloc }
{
    for m in 0..row.nreloc {
        if !is_relocation(
            file,
            row.reloff as usize + RELOCATION_SIZE * m as usize,
            symbols,
        ) {
            return false;
        }
    }
    true
}

fn is_relocation(file: &MachFile<'_>, at: usize, symbols: u32) -> bool
    requires inside { at + 8 ≤ length file.now }
    requires symbols { symbols ≡ (symtab_of file.now).nsyms }
    ensures { IsTrue result ↔ IsMachRelocation file.now (mach_relocation_row_at file.now at) }
{
    let relocation = file.relocation(at);
    relocation.address < R_SCATTERED && (!relocation.is_extern || relocation.symbolnum < symbols)
}

/// The relocations of a section, in the order of the file.
pub fn relocations_of(
    alloc: Global,
    file: &MachFile<'_>,
    row: &SectionNumbers,
) -> Result<Vec<MachReloc64>, AllocError>
    requires { row.now.reloff + 8 * row.now.nreloc ≤ length file.now }
    ensures { IfOk result (λ relocations. map mach_relocation_of relocations.items ≡ map (record_at file.now row.now.reloff) (range_with_len 0 row.now.nreloc)) }
{
    let mut relocations = Vec::with_capacity(alloc, row.nreloc as usize)?;
    for m in 0..row.nreloc {
        relocations.push(file.relocation(row.reloff as usize + RELOCATION_SIZE * m as usize))?;
    }
    Ok(relocations)
}
