//! Laws of parts and their files. Each function does nothing; its contract is the law.

ghost use Rattle.std.specs.Prelude.{◌≡◌, ◌<◌, List, ℕ};
ghost use Rattle.std.specs.List.{All};
ghost use Rattle.ir_core.specs.Target.{Target};
ghost use Rattle.image_read.specs.ElfImage.{ElfImageData, ElfReads};
ghost use Rattle.image_read.specs.MachImage.{MachImageData, MachReads};
ghost use Rattle.object_elf.specs.ElfHolds.{ElfHolds};
ghost use Rattle.object_elf.specs.Fitting.{FitsElf};
ghost use Rattle.object_elf.specs.TableImage.{image_for};
ghost use Rattle.object_macho.specs.MachHolds.{MachHolds};
ghost use Rattle.object_macho.specs.Fitting.{FitsMach};
ghost use Rattle.object_macho.specs.TableImage as mach;
ghost use Rattle.cranelift_module.specs.Call.{Call};
ghost use Rattle.cranelift_object.specs.Settings.{Settings};
ghost use Rattle.cranelift_object.specs.ShownLinkage.{IsFinished, ShowLinkages, table_for, table_rows};
ghost use Rattle.cranelift_object.specs.ShownMach.{MachShowLinkages, mach_table_for, mach_table_rows};

/// The linkage of each declared identifier can be told from its row in the link table of an ELF part, which has its
/// name: binding, visibility and whether the symbol is defined differ from each linkage to each other.
pub fn linkage_laws()
    ensures shown { (settings : Settings) (target : Target) (calls : List Call) → IsFinished target calls → ShowLinkages settings target calls (table_rows settings target calls) }
{}

/// A file of bytes that holds the link table of an ELF part is read as the image of that table, and as no other. So the
/// linkage of each declared identifier can be read back from the file.
pub fn file_laws()
    ensures read { (settings : Settings) (target : Target) (calls : List Call) (file : List ℕ) (image : ElfImageData) → FitsElf (table_for settings target calls) → All (λ x. x < 256) file
        → ElfHolds file (table_for settings target calls) → ElfReads file image → image ≡ image_for (table_for settings target calls) }
    ensures linkages { (settings : Settings) (target : Target) (calls : List Call) (file : List ℕ) (image : ElfImageData) → IsFinished target calls → FitsElf (table_for settings target calls) → All (λ x. x < 256) file
        → ElfHolds file (table_for settings target calls) → ElfReads file image → ShowLinkages settings target calls image.symbols }
{}

/// The linkage of each declared identifier can be told from its row in the link table of a Mach-O part, which has its name
/// behind an underscore: type, weak bit and whether the symbol is defined differ from each linkage to each other.
pub fn mach_linkage_laws()
    ensures shown { (settings : Settings) (target : Target) (calls : List Call) → IsFinished target calls → MachShowLinkages settings target calls (mach_table_rows settings target calls) }
{}

/// A file of bytes that holds the link table of a Mach-O part is read as the image of that table, and as no other. So the
/// linkage of each declared identifier can be read back from the file.
pub fn mach_file_laws()
    ensures read { (settings : Settings) (target : Target) (calls : List Call) (file : List ℕ) (image : MachImageData) → FitsMach (mach_table_for settings target calls) → All (λ x. x < 256) file
        → MachHolds file (mach_table_for settings target calls) → MachReads file image → image ≡ mach.image_for (mach_table_for settings target calls) }
    ensures linkages { (settings : Settings) (target : Target) (calls : List Call) (file : List ℕ) (image : MachImageData) → IsFinished target calls → FitsMach (mach_table_for settings target calls) → All (λ x. x < 256) file
        → MachHolds file (mach_table_for settings target calls) → MachReads file image → MachShowLinkages settings target calls image.symbols }
{}
