//! Relocation kinds in Mach-O files, and where the addend of a relocation is kept: Apple's `mach/machine.h`,
//! `mach-o/x86_64/reloc.h` and `mach-o/arm64/reloc.h`.

ghost use Rattle.std.specs.Prelude.{◌≡◌, ◌<◌, ◌-◌, ◌*◌, ◌^◌, ◌+ℤ◌, pos};
ghost use Rattle.ir_core.specs.MachKind.{mach_x86_64_number, mach_aarch64_number, mach_number, has_kind_in};
ghost use Rattle.ir_core.specs.MachO.{mach_cputype, is_in_field, is_in_record, stored_number, is_within, is_zero_addend, has_room, is_zero_fill_type};

use crate::{Architecture, BinaryFormat, Reloc, elf_number};

/// What a relocation record says of its kind: "struct relocation_info".
#[derive(Clone, Copy, Debug, PartialEq, Eq)]
pub struct MachNumber {
    /// The type, a number of the processor's.
    pub r_type: u8,
    /// The field is relative to its place.
    pub pcrel: bool,
    /// The power of two of the field's size in bytes.
    pub length: u8,
}

/// CPU_TYPE_X86_64.
const CPU_TYPE_X86_64: u32 = 0x0100_0007;
/// CPU_TYPE_ARM64.
const CPU_TYPE_ARM64: u32 = 0x0100_000c;

/// The number of a processor in a Mach-O header, 0 for the processors that have no Mach-O files here.
pub fn mach_cputype(architecture: Architecture) -> u32
    ensures { result ≡ mach_cputype architecture }
{
    match architecture {
        Architecture::X86_64 => CPU_TYPE_X86_64,
        Architecture::Aarch64 => CPU_TYPE_ARM64,
        _ => 0,
    }
}

/// The numbers that a kind has in a processor's Mach-O files, none where the processor lacks the kind.
pub fn mach_number(architecture: Architecture, kind: Reloc) -> Option<MachNumber>
    ensures { result ≡ mach_number architecture kind }
{
    match architecture {
        Architecture::X86_64 => x86_64_number(kind),
        Architecture::Aarch64 => aarch64_number(kind),
        _ => None,
    }
}

/// Whether a processor has the kind in files of this format.
pub fn has_kind_in(format: BinaryFormat, architecture: Architecture, kind: Reloc) -> bool
    ensures { result ≡ has_kind_in format architecture kind }
{
    match format {
        BinaryFormat::Macho => mach_number(architecture, kind).is_some(),
        _ => elf_number(architecture, kind).is_some(),
    }
}

// X86_64_RELOC_UNSIGNED 0, SIGNED 1, BRANCH 2, GOT 4, TLV 9.
fn x86_64_number(kind: Reloc) -> Option<MachNumber>
    ensures { result ≡ mach_x86_64_number kind }
{
    match kind {
        Reloc::Abs4 => numbers(0, false, 2),
        Reloc::Abs8 => numbers(0, false, 3),
        Reloc::X86PCRel4 => numbers(1, true, 2),
        Reloc::X86CallPCRel4 | Reloc::X86CallPLTRel4 => numbers(2, true, 2),
        Reloc::X86GOTPCRel4 => numbers(4, true, 2),
        Reloc::MachOX86_64Tlv => numbers(9, true, 2),
        _ => None,
    }
}

// ARM64_RELOC_UNSIGNED 0, BRANCH26 2, PAGE21 3, PAGEOFF12 4, GOT_LOAD_PAGE21 5, GOT_LOAD_PAGEOFF12 6,
// TLVP_LOAD_PAGE21 8, TLVP_LOAD_PAGEOFF12 9.
fn aarch64_number(kind: Reloc) -> Option<MachNumber>
    ensures { result ≡ mach_aarch64_number kind }
{
    match kind {
        Reloc::Abs4 => numbers(0, false, 2),
        Reloc::Abs8 => numbers(0, false, 3),
        Reloc::Arm64Call => numbers(2, true, 2),
        Reloc::Aarch64AdrPrelPgHi21 => numbers(3, true, 2),
        Reloc::Aarch64AddAbsLo12Nc => numbers(4, false, 2),
        Reloc::Aarch64AdrGotPage21 => numbers(5, true, 2),
        Reloc::Aarch64Ld64GotLo12Nc => numbers(6, false, 2),
        Reloc::MachOAarch64TlsAdrPage21 => numbers(8, true, 2),
        Reloc::MachOAarch64TlsAdrPageOff12 => numbers(9, false, 2),
        _ => None,
    }
}

fn numbers(r_type: u8, pcrel: bool, length: u8) -> Option<MachNumber>
    ensures { result ≡ Some (record { r_type = r_type; pcrel = pcrel; length = length }) }
{
    Some(MachNumber {
        r_type,
        pcrel,
        length,
    })
}

/// Whether the low byte of a section's flags is a zero-fill type: S_ZEROFILL or S_THREAD_LOCAL_ZEROFILL.
pub fn is_zero_fill_type(flags: u32) -> bool
    ensures { result ≡ is_zero_fill_type flags }
{
    flags % 256 == 1 || flags % 256 == 0x12
}

/// Whether the addend is a number in the field: of all kinds on x86_64, and of pointers elsewhere.
pub fn is_in_field(cputype: u32, r_type: u8) -> bool
    ensures { result ≡ is_in_field cputype r_type }
{
    cputype == CPU_TYPE_X86_64 || r_type == 0
}

/// Whether the addend is in a record before the relocation's own: of ARM64_RELOC_BRANCH26, PAGE21 and PAGEOFF12.
pub fn is_in_record(cputype: u32, r_type: u8) -> bool
    ensures { result ≡ is_in_record cputype r_type }
{
    !is_in_field(cputype, r_type) && (r_type == 2 || (r_type == 3 || r_type == 4))
}

/// The number that stands in the field: a relative address counts from the end of the field's four bytes.
pub fn stored_number(pcrel: bool, addend: i64) -> i128
    ensures { result ≡ stored_number pcrel addend }
{
    if pcrel {
        i128::from(addend) + 4
    } else {
        i128::from(addend)
    }
}

/// Whether an addend has room where a file keeps it: in a field of `2 ^ length` bytes, in the 24 bits of a record, or
/// nowhere.
pub fn has_room(cputype: u32, number: MachNumber, addend: i64) -> bool
    requires { number.length < 4 }
    ensures { result ≡ has_room cputype number.r_type number.pcrel number.length addend }
{
    if is_in_field(cputype, number.r_type) {
        is_within(half_of(number.length), stored_number(number.pcrel, addend))
    } else if is_in_record(cputype, number.r_type) {
        is_within(0x80_0000, i128::from(addend))
    } else {
        is_zero(addend)
    }
}

// How many numbers from 0 on a signed field has.
fn half_of(length: u8) -> u64
    requires { length < 4 }
    ensures { result ≡ 2 ^ (8 * 2 ^ length - 1) }
{
    match length {
        0 => 0x80,
        1 => 0x8000,
        2 => 0x8000_0000,
        _ => 0x8000_0000_0000_0000,
    }
}

// Whether a number is at least -half and below half.
fn is_within(half: u64, number: i128) -> bool
    ensures { result ≡ is_within half number }
{
    -i128::from(half) <= number && number < i128::from(half)
}

fn is_zero(addend: i64) -> bool
    ensures { result ≡ is_zero_addend addend }
{
    addend == 0
}
