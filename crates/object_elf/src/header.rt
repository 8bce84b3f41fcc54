//! The file header: System V gABI, "ELF Header".

ghost use Rattle.std.specs.Prelude.{◌≡◌, ◌+◌, ◌<◌, ◌≤◌, ◌^◌, ◌++◌, take, length};
ghost use Rattle.byte_core.specs.Fields.{field_bytes};
ghost use Rattle.object_core.specs.ElfRows.{elf_machine};
ghost use Rattle.object_elf.specs.ElfHolds.{header_with};
ghost use Rattle.object_elf.specs.File.{header_bytes, header_fields};

use byte_core::{Field, place_bytes, place_fields};
use ir_core::{Architecture, elf_machine};

/// Magic number, ELFCLASS64, ELFDATA2LSB, EV_CURRENT, and zeros.
const IDENT: [u8; 16] = [0x7f, 0x45, 0x4c, 0x46, 2, 1, 1, 0, 0, 0, 0, 0, 0, 0, 0, 0];

/// Writes the header of a relocatable file whose `count` section headers and one null header begin at `start`. The
/// last section has the names.
pub(crate) fn place_header(
    out: &mut [u8],
    architecture: Architecture,
    flags: u32,
    start: u64,
    count: u16,
) -> usize
    requires count { count + 1 < 65536 }
    requires room { 64 ≤ length out.old }
    ensures bytes { take result out.new ≡ header_bytes (header_with (elf_machine architecture) flags start count) }
    ensures end { result ≡ 64 }
    ensures len { length out.new ≡ length out.old }
    ensures flags { flags < 2 ^ 32 }
{
    let at = place_bytes(out, 0, &IDENT);
    place_numbers(out, at, architecture, flags, start, count)
}

/// Writes the numbers of the header behind e_ident.
fn place_numbers(
    out: &mut [u8],
    at: usize,
    architecture: Architecture,
    flags: u32,
    start: u64,
    count: u16,
) -> usize
    requires count { count + 1 < 65536 }
    requires room { at + 48 ≤ length out.old }
    ensures bytes { take result out.new ≡ take at out.old ++ field_bytes (header_fields (header_with (elf_machine architecture) flags start count)) }
    ensures end { result ≡ at + 48 }
    ensures len { length out.new ≡ length out.old }
{
    place_fields(
        out,
        at,
        &[
            Field::of_u16(1),
            Field::of_u16(elf_machine(architecture)),
            Field::of_u32(1),
            Field::of_u64(0),
            Field::of_u64(0),
            Field::of_u64(start),
            Field::of_u32(flags),
            Field::of_u16(64),
            Field::of_u16(0),
            Field::of_u16(0),
            Field::of_u16(64),
            Field::of_u16(count + 1),
            Field::of_u16(count),
        ],
    )
}
