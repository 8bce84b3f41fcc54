//! The limits of a file, and the numbers that are compared with them. Nothing here takes memory.

ghost use Rattle.std.specs.Prelude.{◌≡◌, ◌+◌, ◌*◌, ◌<◌, ◌≤◌, ◌^◌, IsOk, length, count_by, sum_by, slice_get, Some, not};
ghost use Rattle.std.specs.Int.{next_multiple_of};
ghost use Rattle.ir_core.specs.MachO.{mach_cputype};
ghost use Rattle.object_core.specs.Limits.{IsJudgedBy};
ghost use Rattle.object_core.specs.MachRows.{mach_symbol_name_of};
ghost use Rattle.object_core.specs.Object.{SymbolData};
ghost use Rattle.object_core.specs.WellFormed.{is_file};
ghost use Rattle.object_macho.specs.Limits.{mach_limit_cause};
ghost use Rattle.object_macho.specs.Orders.{record_count_of, record_counts};
ghost use Rattle.object_macho.specs.Plan.{IsWithinLimits};
ghost use Rattle.object_macho.specs.PlainCounts.{has_row, row_name_size, section_records, stored_end, records_place, file_size, plain_counts};

use crate::commands::version_size;
use crate::records::count_of;
use crate::sections::is_stored;
use crate::symbols::name_size;
use ir_core::mach_cputype;
use object_core::{EmitError, Object, Relocation, Section, Symbol, SymbolId, SymbolKind, What};

const SECTIONS: u64 = 256;

const SYMBOLS: u64 = 1 << 24;

const CONTENTS: u128 = 1 << 31;

const FILE: u128 = 1 << 32;

/// The first limit that the object reaches. It takes no memory.
#[tactic(auto, unfolding(crate::specs::PlainCounts::plain_counts))]
pub(crate) fn check_limits(object: &Object) -> Result<(), EmitError>
    ensures judged { IsJudgedBy result (mach_limit_cause (plain_counts object.now)) }
    ensures within { IsWithinLimits (plain_counts object.now) → IsOk result }
{
    let count = object.sections().len() as u64;
    if count >= SECTIONS {
        let what = What::Sections;
        return Err(EmitError::TooMany { what, count });
    }
    let count = row_count(object) as u64;
    if count >= SYMBOLS {
        let what = What::Symbols;
        return Err(EmitError::TooMany { what, count });
    }
    let amount = object.content_sum();
    if amount >= CONTENTS {
        let what = What::Contents;
        return Err(EmitError::TooLarge { what, amount });
    }
    let amount = file_size(object);
    if amount >= FILE {
        let what = What::File;
        return Err(EmitError::TooLarge { what, amount });
    }
    Ok(())
}

/// The symbol has a row in the table: it is no file.
pub(crate) fn has_row(symbol: &Symbol) -> bool
    ensures { result ≡ not (is_file (symbol.now).kind) }
{
    !matches!(symbol.kind, SymbolKind::File)
}

/// How many symbols have a row.
#[tactic(auto, using(crate::proofs::Counting::count_with_rows))]
pub(crate) fn row_count(object: &Object) -> usize
    ensures { result ≡ count_by has_row (object.now).symbols }
{
    object
        .symbols()
        .iter()
        .filter(|symbol| has_row(symbol))
        .count()
}

/// The length of the file, in bytes.
pub(crate) fn file_size(object: &Object) -> u128
    requires sections { length (object.now).sections < 256 }
    requires contents { (object.now).content_sum < 2 ^ 31 }
    ensures { result ≡ file_size object.now }
{
    let records = 8 * record_count(object);
    let rows = 16 * row_count(object) as u128;
    records_place(object) + records + rows + names_size(object)
}

/// Where the records start, behind the contents.
fn records_place(object: &Object) -> u128
    requires sections { length (object.now).sections < 256 }
    requires contents { (object.now).content_sum < 2 ^ 31 }
    ensures value { result ≡ records_place object.now }
    ensures bound { result < 2 ^ 60 }
{
    let count = object.sections().len() as u128;
    let version = u128::from(version_size(object.macho_build_version()));
    (128 + 80 * count + version + stored_end(object)).next_multiple_of(8)
}

/// Where the sections that take bytes of the file end, counted from the first of them.
fn stored_end(object: &Object) -> u128
    requires sections { length (object.now).sections < 256 }
    requires contents { (object.now).content_sum < 2 ^ 31 }
    ensures value { result ≡ stored_end (object.now).sections }
    ensures bound { result < 2 ^ 50 }
{
    let mut end = 0;
    for section in object.sections() {
        if !is_stored(section) {
            continue;
        }
        end = end_behind(end, section);
    }
    end
}

/// Where a section ends that stands behind this place.
fn end_behind(end: u128, section: &Section) -> u128
    requires end { end < 2 ^ 60 }
    requires some { 0 < (section.now).align }
    requires align { (section.now).align < 2 ^ 32 }
    requires size { (section.now).size < 2 ^ 32 }
    ensures value { result ≡ next_multiple_of end (section.now).align + (section.now).size }
    ensures bound { result < end + 2 ^ 33 }
{
    end.next_multiple_of(u128::from(section.align())) + section.size()
}

/// How many records all sections have.
pub(crate) fn record_count(object: &Object) -> u128
    requires { length (object.now).sections < 256 }
    ensures value { result ≡ sum_by (section_records (mach_cputype (object.now).architecture)) (object.now).sections }
    ensures bound { result < 2 ^ 80 }
{
    let cputype = mach_cputype(object.architecture());
    let mut count = 0;
    for section in object.sections() {
        count += section_records(cputype, section.relocations());
    }
    count
}

/// How many records these relocations have.
fn section_records(cputype: u32, relocations: &[Relocation]) -> u128
    ensures value { result ≡ record_counts cputype relocations.now }
    ensures bound { result < 2 ^ 66 }
{
    let mut count = 0;
    for relocation in relocations {
        count += u128::from(count_of(cputype, relocation));
    }
    count
}

/// The bytes of the string table.
fn names_size(object: &Object) -> u128
    ensures value { result ≡ 1 + sum_by row_name_size (object.now).symbols }
    ensures bound { result < 2 ^ 127 }
{
    let symbols = object.symbols();
    let mut size = 1;
    for (k, symbol) in symbols.iter().enumerate() {
        if !has_row(symbol) {
            continue;
        }
        size += row_name_size(object, k, symbol.kind);
    }
    size
}

/// The bytes of the name of the symbol of this number, which is of this kind.
fn row_name_size(object: &Object, number: usize, kind: SymbolKind) -> u128
    requires { number < length (object.now).symbols }
    ensures value { (s : SymbolData) → slice_get (object.now).symbols number ≡ Some s → result ≡ length (mach_symbol_name_of kind s.name) + 1 }
    ensures bound { result < 2 ^ 64 }
{
    name_size(kind, object.symbol_name(SymbolId::from_number(number))) as u128
}
