//! String sections: System V gABI, "String Table".

ghost use Rattle.std.specs.Prelude.{IfSome, IfNone};
ghost use Rattle.image_read.specs.ElfRows.{HasStrings, HoldsStrings};

use crate::elf::file::ElfFile;
use crate::elf::rows::SHT_STRTAB;

/// The bytes of string section `k`, None where it isn't one or leaves the file.
pub fn strings_of<'a>(file: &ElfFile<'a>, k: usize) -> Option<&'a [u8]>
    ensures found { IfSome result (λ strings. HoldsStrings file.now k strings.now) }
    ensures none { IfNone result (HasStrings file.now k → ⊥) }
{
    if k == 0 || k >= file.count() {
        return None;
    }
    let row = file.section_row(k);
    if row.sh_type != SHT_STRTAB || !file.has_inside(&row) {
        return None;
    }
    Some(file.range(row.offset, row.size))
}
