//! Laws of files and tables.

ghost use Rattle.std.specs.Prelude.{◌≡◌, ◌<◌, List, ℕ};
ghost use Rattle.std.specs.List.{All};
ghost use Rattle.object_core.specs.LinkTable.{ElfTable};
ghost use Rattle.object_elf.specs.ElfHolds.{ElfHolds};
ghost use Rattle.object_elf.specs.File.{elf_file};
ghost use Rattle.object_elf.specs.Fitting.{FitsElf, IsOfBytes};
ghost use Rattle.object_elf.specs.TableImage.{image_for, ReadsOnly};

/// Each link table that fits has a file, with any number of sections, symbols and relocations. Where the contents and
/// the names of a table are bytes, so is each number of its file.
pub fn tables_have_files()
    ensures held { (t : ElfTable) → FitsElf t → ElfHolds (elf_file t) t }
    ensures bytes { (t : ElfTable) → IsOfBytes t → All (λ x. x < 256) (elf_file t) }
{}

/// A link table that fits has one file alone: two files of bytes that hold it are equal, byte for byte. Each such file is
/// read as the image of the table, and as no other: the table's sections and symbols row for row, then the sections
/// that stand behind them in a file.
pub fn files_of_tables()
    ensures file { (t : ElfTable) (b c : List ℕ) → FitsElf t → All (λ x. x < 256) b → All (λ x. x < 256) c → ElfHolds b t → ElfHolds c t → b ≡ c }
    ensures image { (t : ElfTable) (b : List ℕ) → FitsElf t → All (λ x. x < 256) b → ElfHolds b t → ReadsOnly b (image_for t) }
{}
