//! The header and the load commands of an object.

ghost use Rattle.std.specs.Prelude.{◌≡◌, ◌+◌, ◌<◌, ◌≤◌, ◌++◌, take, length, Some};
ghost use Rattle.object_core.specs.declared.kinds.MachOBuildVersion.{MachOBuildVersion};
ghost use Rattle.object_core.specs.MachRows.{mach_cpusubtype, macho_table_of, addresses_in};
ghost use Rattle.object_core.specs.WellFormed.{IsFormedMacho};
ghost use Rattle.object_macho.specs.Layout.{version_size, command_count, data_start};
ghost use Rattle.object_macho.specs.File.{version_bytes, commands_bytes};
ghost use Rattle.object_macho.specs.Fitting.{FitsMach, FitsVersion};
ghost use Rattle.object_macho.specs.Plan.{section_order};
ghost use Rattle.object_macho.specs.Starts.{AreStarts};

use crate::rows::{place_command, place_header, place_segment, place_symtab, place_version};
use crate::sections::place_section_rows;
use ir_core::{Architecture, mach_cputype};
use object_core::{MachOBuildVersion, Object};

/// Where the parts of a file start, and what the sections take of memory and of the file.
#[derive(Clone, Copy)]
pub(crate) struct Starts {
    pub(crate) memory: u64,
    pub(crate) contents: u64,
    pub(crate) start: u64,
    pub(crate) relocations: u64,
    pub(crate) symbols: u64,
    pub(crate) strings: u64,
    pub(crate) length: u64,
}

/// CPU_SUBTYPE_X86_64_ALL 3, CPU_SUBTYPE_ARM64_ALL 0.
fn cpusubtype(architecture: Architecture) -> u32
    ensures { result ≡ mach_cpusubtype architecture }
{
    match architecture {
        Architecture::X86_64 => 3,
        _ => 0,
    }
}

/// How many load commands there are.
fn command_count(version: Option<MachOBuildVersion>) -> u32
    ensures value { result ≡ command_count version }
    ensures bound { result < 4 }
{
    match version {
        Some(_) => 3,
        None => 2,
    }
}

/// How many bytes LC_BUILD_VERSION has, where there is one.
pub(crate) fn version_size(version: Option<MachOBuildVersion>) -> u64
    ensures value { result ≡ version_size version }
    ensures bound { result < 25 }
{
    match version {
        Some(_) => 24,
        None => 0,
    }
}

/// Writes LC_BUILD_VERSION, where there is one.
fn place_version_of(out: &mut [u8], at: usize, version: Option<MachOBuildVersion>) -> usize
    requires { at + version_size version ≤ length out.old }
    ensures bytes { take result out.new ≡ take at out.old ++ version_bytes version }
    ensures end { result ≡ at + version_size version }
    ensures len { length out.new ≡ length out.old }
{
    match version {
        Some(version) => place_version(out, at, version),
        None => at,
    }
}

/// Each version has 32 bits.
pub(crate) fn version_fits(version: Option<MachOBuildVersion>)
    ensures { (v : MachOBuildVersion) → version ≡ Some v → FitsVersion v }
{
    if let Some(version) = version {
        let _platform = version.platform;
        let _minos = version.minos;
        let _sdk = version.sdk;
    }
}

/// Writes the header and the load commands.
pub(crate) fn place_commands(
    out: &mut [u8],
    object: &Object,
    order: &[usize],
    addresses: &[u64],
    symbols: u32,
    starts: Starts,
) -> usize
    requires formed { IsFormedMacho object.now }
    requires fits { FitsMach (macho_table_of object.now) }
    requires order { order.now ≡ section_order (object.now).sections }
    requires addresses { addresses.now ≡ addresses_in (object.now).sections }
    requires symbols { symbols ≡ length (macho_table_of object.now).symbols }
    requires starts { AreStarts (macho_table_of object.now) starts }
    requires room { data_start (macho_table_of object.now) ≤ length out.old }
    ensures bytes { take result out.new ≡ commands_bytes (macho_table_of object.now) }
    ensures end { result ≡ data_start (macho_table_of object.now) }
    ensures len { length out.new ≡ length out.old }
{
    let architecture = object.architecture();
    let version = object.macho_build_version();
    let count = order.len() as u32;
    let size = starts.start as u32 - 32;
    let cputype = mach_cputype(architecture);
    let at = place_header(
        out,
        cputype,
        cpusubtype(architecture),
        command_count(version),
        size,
    );
    let at = place_command(out, at, 0x19, 72 + 80 * count);
    let at = place_segment(out, at, starts.memory, starts.start, starts.contents, count);
    let at = place_section_rows(
        out,
        at,
        object,
        order,
        addresses,
        starts.start,
        starts.relocations,
    );
    let at = place_version_of(out, at, version);
    let strsize = starts.length - starts.strings;
    place_symtab(
        out,
        at,
        starts.symbols as u32,
        symbols,
        starts.strings as u32,
        strsize as u32,
    )
}
