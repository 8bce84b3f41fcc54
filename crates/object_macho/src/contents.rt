//! The contents of sections, with the numbers that fields keep.

ghost use Rattle.std.specs.Prelude.{◌≡◌, ◌+◌, ◌-◌, ◌*◌, ◌<◌, ◌≤◌, ◌^◌, ◌⊎◌, ◌++◌, List, take, drop, length, true, false};
ghost use Rattle.std.specs.Int.{cast_unsigned};
ghost use Rattle.byte_core.specs.Number.{little_bytes};
ghost use Rattle.ir_core.specs.MachO.{is_in_field, stored_number, is_within};
ghost use Rattle.object_core.specs.LinkTable.{MachTableSection};
ghost use Rattle.object_core.specs.Object.{SymbolData};
ghost use Rattle.object_core.specs.MachRows.{mach_type_of, mach_pcrel_of, mach_length_of};
ghost use Rattle.object_macho.specs.Layout.{number_width, stored_bytes, stored_contents};
ghost use Rattle.object_macho.specs.Rows.{put_over, relocation_with, FitsField, FitFields, FieldsApart, IsRowOf};

use byte_core::{place_bytes, place_number};
use ir_core::{MachNumber, is_in_field, stored_number};
use object_core::{Relocation, RelocationFlags, Section};

/// Writes the contents of a section, with the numbers that the fields of its relocations keep.
pub(crate) fn place_contents(out: &mut [u8], at: usize, cputype: u32, section: &Section) -> usize
    requires fields { FitFields cputype (length (section.now).contents) (section.now).relocations }
    requires apart { FieldsApart (section.now).relocations }
    requires room { at + length (section.now).contents ≤ length out.old }
    ensures bytes { (symbols : List SymbolData) (s : MachTableSection) → IsRowOf (section.now).contents (section.now).relocations symbols s → take result out.new ≡ take at out.old ++ stored_contents cputype s }
    ensures end { result ≡ at + length (section.now).contents }
    ensures len { length out.new ≡ length out.old }
{
    let size = section.contents().len();
    let end = place_bytes(out, at, section.contents());
    for relocation in section.relocations() {
        patch_field(out, at, size, cputype, relocation);
    }
    end
}

/// Writes the number that the field of a relocation keeps, if it keeps one, over the contents at `start`.
fn patch_field(out: &mut [u8], start: usize, size: usize, cputype: u32, relocation: &Relocation)
    requires room { start + size ≤ length out.old }
    requires fits { FitsField cputype size relocation.now }
    ensures kept { is_in_field cputype (mach_type_of (relocation.now).flags) ≡ false → out.new ≡ out.old }
    ensures put { is_in_field cputype (mach_type_of (relocation.now).flags) ≡ true → out.new ≡ put_over out.old (start + (relocation.now).offset) (stored_bytes (relocation_with 0 relocation.now)) }
    ensures len { length out.new ≡ length out.old }
{
    let field = field_of(relocation.flags);
    if !is_in_field(cputype, field.r_type) {
        return;
    }
    let offset = relocation.offset as usize;
    let number = number_of(field.pcrel, field.length, relocation.addend);
    put_number(out, start + offset, width_of(field.length), number);
}

/// The numbers of a relocation's kind.
pub(crate) fn field_of(flags: RelocationFlags) -> MachNumber
    ensures { result ≡ record { r_type = mach_type_of flags; pcrel = mach_pcrel_of flags; length = mach_length_of flags } }
{
    match flags {
        RelocationFlags::Elf { .. } => MachNumber {
            r_type: 0,
            pcrel: false,
            length: 0,
        },
        RelocationFlags::MachO {
            r_type,
            r_pcrel,
            r_length,
        } => MachNumber {
            r_type,
            pcrel: r_pcrel,
            length: r_length,
        },
    }
}

fn width_of(length: u8) -> usize
    requires { (length ≡ 2) ⊎ (length ≡ 3) }
    ensures value { result ≡ 2 ^ length }
    ensures bound { result ≤ 8 }
{
    if length == 3 { 8 } else { 4 }
}

/// The number that the field keeps, in two's complement.
fn number_of(pcrel: bool, length: u8, addend: i64) -> u64
    requires length { (length ≡ 2) ⊎ (length ≡ 3) }
    requires room { is_within (2 ^ (8 * 2 ^ length - 1)) (stored_number pcrel addend) ≡ true }
    ensures { result ≡ cast_unsigned (number_width length) (stored_number pcrel addend) }
{
    let number = stored_number(pcrel, addend);
    if length == 3 {
        (number as i64).cast_unsigned()
    } else {
        u64::from((number as i32).cast_unsigned())
    }
}

/// Writes a number over the bytes of a field.
fn put_number(out: &mut [u8], at: usize, width: usize, value: u64)
    requires room { at + width ≤ length out.old }
    requires width { width ≤ 8 }
    ensures { out.new ≡ take at out.old ++ (little_bytes width value ++ drop (at + width) out.old) }
{
    let mut number = [0u8; 8];
    let end = place_number(&mut number, 0, width, value);
    put_bytes(out, at, &number[..end]);
}

/// Writes bytes over others.
fn put_bytes(out: &mut [u8], at: usize, bytes: &[u8])
    requires { at + length bytes.now ≤ length out.old }
    ensures { out.new ≡ put_over out.old at bytes.now }
{
    let end = at + bytes.len();
    out[at..end].copy_from_slice(bytes);
}
