//! The file of an object, written into a slice.

ghost use Rattle.std.specs.Prelude.{◌≡◌, ℕ, ◌+◌, ◌*◌, ◌<◌, ◌≤◌, ◌^◌, take, length, count_by, slice_get, Some};
ghost use Rattle.std.specs.Int.{next_multiple_of};
ghost use Rattle.ir_core.specs.declared.target.BinaryFormat.TheVariants.{Macho};
ghost use Rattle.object_core.specs.Object.{SectionData};
ghost use Rattle.object_core.specs.MachRows.{is_mach_stored, macho_table_of, addresses_in};
ghost use Rattle.object_core.specs.WellFormed.{IsFormedMacho};
ghost use Rattle.object_macho.specs.Layout.{end_of_sections, contents_size, data_start};
ghost use Rattle.object_macho.specs.File.{mach_file};
ghost use Rattle.object_macho.specs.Fitting.{FitsMach};
ghost use Rattle.object_macho.specs.MachHolds.{MachHolds};
ghost use Rattle.object_macho.specs.Plan.{section_order, HasNumbers, IsPlanOf};
ghost use Rattle.object_macho.specs.Starts.{AreStarts};

use crate::commands::{Starts, place_commands, version_fits, version_size};
use crate::names::place_strings;
use crate::plan::MachoPlan;
use crate::sections::{address_at, is_stored, number_at, place_all_contents, place_all_records};
use crate::symbols::place_symbols;
use byte_core::place_padding;
use ir_core::mach_cputype;
use object_core::{Object, SectionId};

/// Writes the object's Mach-O file into a slice of its length, by a plan that is the object's own. It takes no memory.
/// The bytes hold exactly the object's link table, read by positions.
pub fn fill_macho(object: &Object, plan: &MachoPlan, out: &mut [u8])
    requires format { (object.now).format ≡ Macho }
    requires formed { IsFormedMacho object.now }
    requires plan { IsPlanOf plan.now object.now }
    requires room { length out.old ≡ (plan.now).length }
    ensures { MachHolds out.new (macho_table_of object.now) }
{
    flags_fit(object);
    version_fits(object.macho_build_version());
    let _sections = object.sections();
    fill_parts(object, plan, out);
}

/// Writes all parts of the file, one behind the other.
fn fill_parts(object: &Object, plan: &MachoPlan, out: &mut [u8])
    requires formed { IsFormedMacho object.now }
    requires fits { FitsMach (macho_table_of object.now) }
    requires plan { HasNumbers plan.now object.now }
    requires room { length out.old ≡ (plan.now).length }
    ensures { out.new ≡ mach_file (macho_table_of object.now) }
{
    let cputype = mach_cputype(object.architecture());
    let count = stored_count(object);
    let starts = starts_of(object, plan, count);
    let symbols = few(plan.symbols());
    let at = place_commands(
        out,
        object,
        plan.sections(),
        plan.addresses(),
        symbols,
        starts,
    );
    let at = place_all_contents(out, at, object, count, plan.sections(), plan.addresses());
    let at = place_padding(out, at, 8);
    let at = place_all_records(out, at, object, cputype, plan.sections(), plan.rows());
    let at = place_symbols(
        out,
        at,
        object,
        plan.symbols(),
        plan.numbers(),
        plan.addresses(),
    );
    place_strings(out, at, object, plan.symbols());
}

/// How many symbols there are.
fn few(symbols: &[usize]) -> u32
    requires { length symbols.now < 2 ^ 24 }
    ensures { result ≡ length symbols.now }
{
    symbols.len() as u32
}

/// The flags of each section have 32 bits.
fn flags_fit(object: &Object)
    ensures { (k : ℕ) (s : SectionData) → slice_get (object.now).sections k ≡ Some s → s.macho_flags < 2 ^ 32 }
{
    for section in object.sections() {
        let _flags = section.macho_flags();
    }
}

/// How many sections take bytes of the file.
#[tactic(auto, using(crate::proofs::Filling::count_stored))]
pub(crate) fn stored_count(object: &Object) -> usize
    ensures { result ≡ count_by is_mach_stored (object.now).sections }
{
    object
        .sections()
        .iter()
        .filter(|section| is_stored(section))
        .count()
}

/// Where the first `n` sections of the order end in memory.
fn end_of(object: &Object, order: &[usize], addresses: &[u64], n: usize) -> u64
    requires fits { FitsMach (macho_table_of object.now) }
    requires order { order.now ≡ section_order (object.now).sections }
    requires addresses { addresses.now ≡ addresses_in (object.now).sections }
    requires n { n ≤ length order.now }
    ensures { result ≡ end_of_sections (take n (macho_table_of object.now).sections) }
{
    if n == 0 {
        return 0;
    }
    let last = n - 1;
    let section = object.section(SectionId::from_number(number_at(order, last)));
    address_at(addresses, last) + section.size() as u64
}

/// Where the parts of the file start.
fn starts_of(object: &Object, plan: &MachoPlan, count: usize) -> Starts
    requires fits { FitsMach (macho_table_of object.now) }
    requires plan { HasNumbers plan.now object.now }
    requires count { count ≡ count_by is_mach_stored (object.now).sections }
    ensures { AreStarts (macho_table_of object.now) result }
{
    let order = plan.sections();
    let memory = end_of(object, order, plan.addresses(), order.len());
    let contents = end_of(object, order, plan.addresses(), count);
    let start = start_of_data(order.len(), version_size(object.macho_build_version()));
    let relocations = (start + contents).next_multiple_of(8);
    let symbols = relocations + 8 * plan.records();
    let strings = symbols + 16 * plan.symbols().len() as u64;
    Starts {
        memory,
        contents,
        start,
        relocations,
        symbols,
        strings,
        length: plan.len(),
    }
}

/// Where the contents start, behind the header and the commands.
fn start_of_data(sections: usize, version: u64) -> u64
    requires sections { sections < 256 }
    requires version { version < 25 }
    ensures { result ≡ 32 + (72 + 80 * sections) + version + 24 }
{
    128 + 80 * sections as u64 + version
}
