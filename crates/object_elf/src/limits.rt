//! The limits of the format, which are this project's own choice.

ghost use Rattle.std.specs.Prelude.{[], ◌≡◌, ◌+◌, ◌<◌, ◌≤◌, ◌^◌, IsOk, length, count_by, sum_by};
ghost use Rattle.object_core.specs.Object.{with_texts};
ghost use Rattle.object_elf.specs.Writing.{has_relocations, plain};
ghost use Rattle.object_elf.specs.Limits.{IsJudged, IsWithinLimits};
ghost use Rattle.object_elf.specs.PlainCounts.{plain_counts, symbol_name_size, section_name_size};

use crate::object_names::{section_name, symbol_name};
use object_core::{EmitError, Object, Section, What};

const SECTIONS: u128 = 65_280;

const SYMBOLS: u64 = 1 << 32;

const CONTENTS: u128 = 1 << 63;

const NAMES: u128 = 1 << 32;

/// The first limit that the object reaches. It takes no memory.
pub(crate) fn check_limits(object: &Object) -> Result<(), EmitError>
    ensures judged { IsJudged result (plain_counts object.now) }
    ensures within { IsWithinLimits (plain_counts object.now) → IsOk result }
{
    let sections = object.sections();
    let rows = sections.len() as u128 + relocated_count(object) as u128 + 5;
    if rows >= SECTIONS {
        return Err(too_many_sections(rows));
    }
    let count = object.symbols().len() as u64 + 1;
    if count >= SYMBOLS {
        let what = What::Symbols;
        return Err(EmitError::TooMany { what, count });
    }
    let amount = object.content_sum();
    if amount >= CONTENTS {
        let what = What::Contents;
        return Err(EmitError::TooLarge { what, amount });
    }
    let amount = symbol_names_size(object) + section_names_size(object);
    if amount >= NAMES {
        let what = What::Names;
        return Err(EmitError::TooLarge { what, amount });
    }
    Ok(())
}

/// So many section headers are too many.
fn too_many_sections(rows: u128) -> EmitError
    ensures told { rows < 2 ^ 64 → result ≡ EmitError.TooMany What.Sections rows }
    ensures none { 2 ^ 64 ≤ rows → result ≡ EmitError.OutOfMemory }
{
    match u64::try_from(rows) {
        Ok(count) => EmitError::TooMany {
            what: What::Sections,
            count,
        },
        Err(_) => EmitError::OutOfMemory,
    }
}

/// How many sections have relocations.
#[tactic(auto, using(crate::proofs::Items::count_relocated))]
pub(crate) fn relocated_count(object: &Object) -> usize
    ensures { result ≡ count_by has_relocations (object.now).sections }
{
    object
        .sections()
        .iter()
        .filter(|section| has_relocations(section))
        .count()
}

pub(crate) fn has_relocations(section: &Section) -> bool
    ensures { result ≡ has_relocations (plain section.now) }
{
    !section.relocations().is_empty()
}

/// The bytes of the string section of the symbols.
pub(crate) fn symbol_names_size(object: &Object) -> u128
    requires { length (object.now).symbols < 2 ^ 32 }
    ensures value { result ≡ 1 + sum_by symbol_name_size (object.now).symbols }
    ensures bound { result < 2 ^ 97 }
{
    let count = object.symbols().len();
    let mut size = 1;
    for k in 0..count {
        size += symbol_name(object, k).len() as u128 + 1;
    }
    size
}

/// The bytes of the string section of the sections.
pub(crate) fn section_names_size(object: &Object) -> u128
    requires { length (object.now).sections < 65280 }
    ensures value { result ≡ 43 + sum_by section_name_size (object.now).sections }
    ensures bound { result < 2 ^ 97 }
{
    let sections = object.sections();
    let mut size = 43;
    for (k, section) in sections.iter().enumerate() {
        size += section_name_size(section, section_name(object, k));
    }
    size
}

fn section_name_size(section: &Section, name: &[u8]) -> u128
    ensures value { result ≡ section_name_size (with_texts [] name.now section.now) }
    ensures bound { result < 2 ^ 66 }
{
    let size = name.len() as u128;
    if has_relocations(section) {
        size + 1 + (size + 6)
    } else {
        size + 1
    }
}
