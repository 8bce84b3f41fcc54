//! Addends of a written file.

ghost use Rattle.std.specs.Prelude.{◌≡◌, ℕ, slice_get, Some};
ghost use Rattle.ir_core.specs.MachO.{mach_cputype};
ghost use Rattle.object_core.specs.Object.{ObjectData};
ghost use Rattle.object_core.specs.WellFormed.{IsFormedMacho};
ghost use Rattle.object_core.specs.LinkTable.{MachTableSection};
ghost use Rattle.object_core.specs.MachRows.{macho_table_of};
ghost use Rattle.object_macho.specs.AddendLaw.{KeepsAddends, AddendsAreReadBack};

/// The addends of a table are read back from its file: in the image as which the file is read, the record of each
/// relocation of a section that keeps its addends stands at its number, and what is read there as its addend is the
/// relocation's (`back`). Each section of a formed object keeps them (`kept`).
pub fn addends_are_read_back()
    ensures back { AddendsAreReadBack }
    ensures kept { (o : ObjectData) → IsFormedMacho o → (k : ℕ) (s : MachTableSection) → slice_get (macho_table_of o).sections k ≡ Some s → KeepsAddends (mach_cputype o.architecture) s }
{}
