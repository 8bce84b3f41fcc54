//! Laws of files and tables.

ghost use Rattle.std.specs.Prelude.{◌≡◌, ◌<◌, List, ℕ};
ghost use Rattle.std.specs.List.{All};
ghost use Rattle.object_core.specs.LinkTable.{MachTable};
ghost use Rattle.object_core.specs.MachRows.{macho_table_of};
ghost use Rattle.object_core.specs.Object.{ObjectData};
ghost use Rattle.object_macho.specs.File.{mach_file};
ghost use Rattle.object_macho.specs.Fitting.{FitsMach, IsOfBytes};
ghost use Rattle.object_macho.specs.MachHolds.{MachHolds};
ghost use Rattle.object_macho.specs.TableImage.{image_for, ReadsOnly};
ghost use Rattle.object_macho.specs.Whole.{IsWritable};

/// Each link table that fits has a file, with any number of sections, symbols and relocations; and the table of each
/// formed object that reaches no limit fits. Where the contents and the names of a table are bytes, so is each number of
/// its file.
pub fn mach_tables_have_files()
    ensures held { (t : MachTable) → FitsMach t → MachHolds (mach_file t) t }
    ensures fits { (o : ObjectData) → IsWritable o → FitsMach (macho_table_of o) }
    ensures bytes { (t : MachTable) → IsOfBytes t → All (λ x. x < 256) (mach_file t) }
{}

/// A link table that fits has one file alone: two files of bytes that hold it are equal, byte for byte. Each such file is
/// read as the image of the table, and as no other: the table's sections and symbols row for row, with the addends that
/// fields keep written into the contents.
pub fn files_of_mach_tables()
    ensures file { (t : MachTable) (b c : List ℕ) → FitsMach t → All (λ x. x < 256) b → All (λ x. x < 256) c → MachHolds b t → MachHolds c t → b ≡ c }
    ensures image { (t : MachTable) (b : List ℕ) → FitsMach t → All (λ x. x < 256) b → MachHolds b t → ReadsOnly b (image_for t) }
{}
