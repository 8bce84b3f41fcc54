//! Processor types and subtypes, and the names of architectures: Apple's `mach/machine.h`. The names
//! are those that the options `-arch` of its tools take.

ghost use Rattle.std.specs.Prelude.{◌≡◌, map};
ghost use Rattle.std.specs.Option.{option_copied};
ghost use Rattle.goblin_mach.specs.Architectures.{architectures, aliases, pair_named, name_of_pair, pair_in, name_in, row_view};

/// The family of a processor.
pub type CpuType = u32;
/// The member of a family, with its feature bits.
pub type CpuSubType = u32;

/// The bits of a subtype that tell features, and not the member of the family.
pub const CPU_SUBTYPE_MASK: u32 = 0xff00_0000;
/// The bits of a type that tell the widths of its calling convention.
pub const CPU_ARCH_MASK: CpuType = 0xff00_0000;
/// Addresses of 64 bits.
pub const CPU_ARCH_ABI64: CpuType = 0x0100_0000;
/// Addresses of 32 bits on a processor of 64 bits.
pub const CPU_ARCH_ABI64_32: CpuType = 0x0200_0000;

/// Any processor.
pub const CPU_TYPE_ANY: CpuType = 0xffff_ffff;
/// VAX.
pub const CPU_TYPE_VAX: CpuType = 1;
/// Motorola 68000.
pub const CPU_TYPE_MC680X0: CpuType = 6;
/// Intel x86 with 32 bits.
pub const CPU_TYPE_X86: CpuType = 7;
/// The older name of `CPU_TYPE_X86`.
pub const CPU_TYPE_I386: CpuType = CPU_TYPE_X86;
/// Intel x86 with 64 bits.
pub const CPU_TYPE_X86_64: CpuType = CPU_TYPE_X86 | CPU_ARCH_ABI64;
/// MIPS.
pub const CPU_TYPE_MIPS: CpuType = 8;
/// Motorola 98000, as PowerPC was first named.
pub const CPU_TYPE_MC98000: CpuType = 10;
/// HP PA-RISC.
pub const CPU_TYPE_HPPA: CpuType = 11;
/// ARM with 32 bits.
pub const CPU_TYPE_ARM: CpuType = 12;
/// ARM with 64 bits.
pub const CPU_TYPE_ARM64: CpuType = CPU_TYPE_ARM | CPU_ARCH_ABI64;
/// ARM with 64 bits, and addresses of 32.
pub const CPU_TYPE_ARM64_32: CpuType = CPU_TYPE_ARM | CPU_ARCH_ABI64_32;
/// Motorola 88000.
pub const CPU_TYPE_MC88000: CpuType = 13;
/// SPARC.
pub const CPU_TYPE_SPARC: CpuType = 14;
/// Intel i860.
pub const CPU_TYPE_I860: CpuType = 15;
/// DEC Alpha.
pub const CPU_TYPE_ALPHA: CpuType = 16;
/// PowerPC with 32 bits.
pub const CPU_TYPE_POWERPC: CpuType = 18;
/// PowerPC with 64 bits.
pub const CPU_TYPE_POWERPC64: CpuType = CPU_TYPE_POWERPC | CPU_ARCH_ABI64;

/// Of any type: every member.
pub const CPU_SUBTYPE_MULTIPLE: CpuSubType = 0xffff_ffff;
/// Of any type: those that store the lowest byte first.
pub const CPU_SUBTYPE_LITTLE_ENDIAN: CpuSubType = 0;
/// Of any type: those that store the highest byte first.
pub const CPU_SUBTYPE_BIG_ENDIAN: CpuSubType = 1;

/// Every VAX.
pub const CPU_SUBTYPE_VAX_ALL: CpuSubType = 0;
/// VAX 780.
pub const CPU_SUBTYPE_VAX780: CpuSubType = 1;
/// VAX 785.
pub const CPU_SUBTYPE_VAX785: CpuSubType = 2;
/// VAX 750.
pub const CPU_SUBTYPE_VAX750: CpuSubType = 3;
/// VAX 730.
pub const CPU_SUBTYPE_VAX730: CpuSubType = 4;
/// MicroVAX I.
pub const CPU_SUBTYPE_UVAXI: CpuSubType = 5;
/// MicroVAX II.
pub const CPU_SUBTYPE_UVAXII: CpuSubType = 6;
/// VAX 8200.
pub const CPU_SUBTYPE_VAX8200: CpuSubType = 7;
/// VAX 8500.
pub const CPU_SUBTYPE_VAX8500: CpuSubType = 8;
/// VAX 8600.
pub const CPU_SUBTYPE_VAX8600: CpuSubType = 9;
/// VAX 8650.
pub const CPU_SUBTYPE_VAX8650: CpuSubType = 10;
/// VAX 8800.
pub const CPU_SUBTYPE_VAX8800: CpuSubType = 11;
/// MicroVAX III.
pub const CPU_SUBTYPE_UVAXIII: CpuSubType = 12;

/// Every 68000 from the 68030 on.
pub const CPU_SUBTYPE_MC680X0_ALL: CpuSubType = 1;
/// The 68030, by the number that stands for every member.
pub const CPU_SUBTYPE_MC68030: CpuSubType = CPU_SUBTYPE_MC680X0_ALL;
/// 68040.
pub const CPU_SUBTYPE_MC68040: CpuSubType = 2;
/// The 68030 alone.
pub const CPU_SUBTYPE_MC68030_ONLY: CpuSubType = 3;

// Of x86 with 32 bits the family stands in the lowest four bits, the model above them.

/// Every x86 from the 386 on.
pub const CPU_SUBTYPE_I386_ALL: CpuSubType = 0x03;
/// 386.
pub const CPU_SUBTYPE_386: CpuSubType = 0x03;
/// 486.
pub const CPU_SUBTYPE_486: CpuSubType = 0x04;
/// 486SX.
pub const CPU_SUBTYPE_486SX: CpuSubType = 0x84;
/// 586.
pub const CPU_SUBTYPE_586: CpuSubType = 0x05;
/// Pentium.
pub const CPU_SUBTYPE_PENT: CpuSubType = 0x05;
/// Pentium Pro.
pub const CPU_SUBTYPE_PENTPRO: CpuSubType = 0x16;
/// Pentium II, model 3.
pub const CPU_SUBTYPE_PENTII_M3: CpuSubType = 0x36;
/// Pentium II, model 5.
pub const CPU_SUBTYPE_PENTII_M5: CpuSubType = 0x56;
/// Celeron.
pub const CPU_SUBTYPE_CELERON: CpuSubType = 0x67;
/// Celeron for notebooks.
pub const CPU_SUBTYPE_CELERON_MOBILE: CpuSubType = 0x77;
/// Pentium III.
pub const CPU_SUBTYPE_PENTIUM_3: CpuSubType = 0x08;
/// Pentium III for notebooks.
pub const CPU_SUBTYPE_PENTIUM_3_M: CpuSubType = 0x18;
/// Pentium III Xeon.
pub const CPU_SUBTYPE_PENTIUM_3_XEON: CpuSubType = 0x28;
/// Pentium M.
pub const CPU_SUBTYPE_PENTIUM_M: CpuSubType = 0x09;
/// Pentium 4.
pub const CPU_SUBTYPE_PENTIUM_4: CpuSubType = 0x0a;
/// Pentium 4 for notebooks.
pub const CPU_SUBTYPE_PENTIUM_4_M: CpuSubType = 0x1a;
/// Itanium.
pub const CPU_SUBTYPE_ITANIUM: CpuSubType = 0x0b;
/// Itanium 2.
pub const CPU_SUBTYPE_ITANIUM_2: CpuSubType = 0x1b;
/// Xeon.
pub const CPU_SUBTYPE_XEON: CpuSubType = 0x0c;
/// Xeon MP.
pub const CPU_SUBTYPE_XEON_MP: CpuSubType = 0x1c;
/// The last family that a subtype can tell.
pub const CPU_SUBTYPE_INTEL_FAMILY_MAX: CpuSubType = 15;
/// The model that stands for every model of a family.
pub const CPU_SUBTYPE_INTEL_MODEL_ALL: CpuSubType = 0;
/// Every x86.
pub const CPU_SUBTYPE_X86_ALL: CpuSubType = 3;
/// Every x86 with 64 bits.
pub const CPU_SUBTYPE_X86_64_ALL: CpuSubType = 3;
/// The first revision of x86 after the 386.
pub const CPU_SUBTYPE_X86_ARCH1: CpuSubType = 4;
/// x86 with 64 bits from Haswell on.
pub const CPU_SUBTYPE_X86_64_H: CpuSubType = 8;

/// Every MIPS.
pub const CPU_SUBTYPE_MIPS_ALL: CpuSubType = 0;
/// R2300.
pub const CPU_SUBTYPE_MIPS_R2300: CpuSubType = 1;
/// R2600.
pub const CPU_SUBTYPE_MIPS_R2600: CpuSubType = 2;
/// R2800.
pub const CPU_SUBTYPE_MIPS_R2800: CpuSubType = 3;
/// R2000A.
pub const CPU_SUBTYPE_MIPS_R2000A: CpuSubType = 4;
/// R2000.
pub const CPU_SUBTYPE_MIPS_R2000: CpuSubType = 5;
/// R3000A.
pub const CPU_SUBTYPE_MIPS_R3000A: CpuSubType = 6;
/// R3000.
pub const CPU_SUBTYPE_MIPS_R3000: CpuSubType = 7;

/// Every 98000.
pub const CPU_SUBTYPE_MC98000_ALL: CpuSubType = 0;
/// 98601.
pub const CPU_SUBTYPE_MC98601: CpuSubType = 1;

/// Every PA-RISC.
pub const CPU_SUBTYPE_HPPA_ALL: CpuSubType = 0;
/// PA-RISC 7100, by the number that stands for every member.
pub const CPU_SUBTYPE_HPPA_7100: CpuSubType = CPU_SUBTYPE_HPPA_ALL;
/// PA-RISC 7100LC.
pub const CPU_SUBTYPE_HPPA_7100LC: CpuSubType = 1;

/// Every 88000.
pub const CPU_SUBTYPE_MC88000_ALL: CpuSubType = 0;
/// 88100.
pub const CPU_SUBTYPE_MC88100: CpuSubType = 1;
/// 88110.
pub const CPU_SUBTYPE_MC88110: CpuSubType = 2;

/// Every SPARC.
pub const CPU_SUBTYPE_SPARC_ALL: CpuSubType = 0;

/// Every i860.
pub const CPU_SUBTYPE_I860_ALL: CpuSubType = 0;
/// The i860 itself.
pub const CPU_SUBTYPE_I860_860: CpuSubType = 1;

/// Every PowerPC.
pub const CPU_SUBTYPE_POWERPC_ALL: CpuSubType = 0;
/// PowerPC 601.
pub const CPU_SUBTYPE_POWERPC_601: CpuSubType = 1;
/// PowerPC 602.
pub const CPU_SUBTYPE_POWERPC_602: CpuSubType = 2;
/// PowerPC 603.
pub const CPU_SUBTYPE_POWERPC_603: CpuSubType = 3;
/// PowerPC 603e.
pub const CPU_SUBTYPE_POWERPC_603E: CpuSubType = 4;
/// PowerPC 603ev.
pub const CPU_SUBTYPE_POWERPC_603EV: CpuSubType = 5;
/// PowerPC 604.
pub const CPU_SUBTYPE_POWERPC_604: CpuSubType = 6;
/// PowerPC 604e.
pub const CPU_SUBTYPE_POWERPC_604E: CpuSubType = 7;
/// PowerPC 620.
pub const CPU_SUBTYPE_POWERPC_620: CpuSubType = 8;
/// PowerPC 750.
pub const CPU_SUBTYPE_POWERPC_750: CpuSubType = 9;
/// PowerPC 7400.
pub const CPU_SUBTYPE_POWERPC_7400: CpuSubType = 10;
/// PowerPC 7450.
pub const CPU_SUBTYPE_POWERPC_7450: CpuSubType = 11;
/// PowerPC 970.
pub const CPU_SUBTYPE_POWERPC_970: CpuSubType = 100;

/// Every ARM with 32 bits.
pub const CPU_SUBTYPE_ARM_ALL: CpuSubType = 0;
/// ARMv4 with Thumb.
pub const CPU_SUBTYPE_ARM_V4T: CpuSubType = 5;
/// ARMv6.
pub const CPU_SUBTYPE_ARM_V6: CpuSubType = 6;
/// ARMv5 with Thumb, DSP instructions and Jazelle.
pub const CPU_SUBTYPE_ARM_V5TEJ: CpuSubType = 7;
/// XScale.
pub const CPU_SUBTYPE_ARM_XSCALE: CpuSubType = 8;
/// ARMv7-A.
pub const CPU_SUBTYPE_ARM_V7: CpuSubType = 9;
/// ARMv7-A of Cortex-A9.
pub const CPU_SUBTYPE_ARM_V7F: CpuSubType = 10;
/// ARMv7-A of Swift.
pub const CPU_SUBTYPE_ARM_V7S: CpuSubType = 11;
/// ARMv7-A of the first watches.
pub const CPU_SUBTYPE_ARM_V7K: CpuSubType = 12;
/// ARMv8 with 32 bits.
pub const CPU_SUBTYPE_ARM_V8: CpuSubType = 13;
/// ARMv6-M.
pub const CPU_SUBTYPE_ARM_V6M: CpuSubType = 14;
/// ARMv7-M.
pub const CPU_SUBTYPE_ARM_V7M: CpuSubType = 15;
/// ARMv7E-M.
pub const CPU_SUBTYPE_ARM_V7EM: CpuSubType = 16;

/// Every ARM with 64 bits.
pub const CPU_SUBTYPE_ARM64_ALL: CpuSubType = 0;
/// ARMv8 with 64 bits.
pub const CPU_SUBTYPE_ARM64_V8: CpuSubType = 1;
/// ARMv8.3 with signed pointers.
pub const CPU_SUBTYPE_ARM64_E: CpuSubType = 2;

/// Every ARM with 64 bits and addresses of 32.
pub const CPU_SUBTYPE_ARM64_32_ALL: CpuSubType = 0;
/// ARMv8 with 64 bits and addresses of 32.
pub const CPU_SUBTYPE_ARM64_32_V8: CpuSubType = 1;

// A name, and the type and subtype that it stands for.
type Row = (&'static str, CpuType, CpuSubType);

// The architectures, by families.
const ARCHITECTURES: [Row; 51] = [
    ("any", CPU_TYPE_ANY, CPU_SUBTYPE_MULTIPLE),
    ("little", CPU_TYPE_ANY, CPU_SUBTYPE_LITTLE_ENDIAN),
    ("big", CPU_TYPE_ANY, CPU_SUBTYPE_BIG_ENDIAN),
    ("m68k", CPU_TYPE_MC680X0, CPU_SUBTYPE_MC680X0_ALL),
    ("m68040", CPU_TYPE_MC680X0, CPU_SUBTYPE_MC68040),
    ("m68030", CPU_TYPE_MC680X0, CPU_SUBTYPE_MC68030_ONLY),
    ("i386", CPU_TYPE_I386, CPU_SUBTYPE_I386_ALL),
    ("i486", CPU_TYPE_I386, CPU_SUBTYPE_486),
    ("i486SX", CPU_TYPE_I386, CPU_SUBTYPE_486SX),
    ("i586", CPU_TYPE_I386, CPU_SUBTYPE_586),
    ("i686", CPU_TYPE_I386, CPU_SUBTYPE_PENTPRO),
    ("pentIIm3", CPU_TYPE_I386, CPU_SUBTYPE_PENTII_M3),
    ("pentIIm5", CPU_TYPE_I386, CPU_SUBTYPE_PENTII_M5),
    ("pentium4", CPU_TYPE_I386, CPU_SUBTYPE_PENTIUM_4),
    ("x86_64", CPU_TYPE_X86_64, CPU_SUBTYPE_X86_64_ALL),
    ("x86_64h", CPU_TYPE_X86_64, CPU_SUBTYPE_X86_64_H),
    ("hppa", CPU_TYPE_HPPA, CPU_SUBTYPE_HPPA_ALL),
    ("hppa7100LC", CPU_TYPE_HPPA, CPU_SUBTYPE_HPPA_7100LC),
    ("arm", CPU_TYPE_ARM, CPU_SUBTYPE_ARM_ALL),
    ("armv4t", CPU_TYPE_ARM, CPU_SUBTYPE_ARM_V4T),
    ("armv6", CPU_TYPE_ARM, CPU_SUBTYPE_ARM_V6),
    ("armv5", CPU_TYPE_ARM, CPU_SUBTYPE_ARM_V5TEJ),
    ("xscale", CPU_TYPE_ARM, CPU_SUBTYPE_ARM_XSCALE),
    ("armv7", CPU_TYPE_ARM, CPU_SUBTYPE_ARM_V7),
    ("armv7f", CPU_TYPE_ARM, CPU_SUBTYPE_ARM_V7F),
    ("armv7s", CPU_TYPE_ARM, CPU_SUBTYPE_ARM_V7S),
    ("armv7k", CPU_TYPE_ARM, CPU_SUBTYPE_ARM_V7K),
    ("armv6m", CPU_TYPE_ARM, CPU_SUBTYPE_ARM_V6M),
    ("armv7m", CPU_TYPE_ARM, CPU_SUBTYPE_ARM_V7M),
    ("armv7em", CPU_TYPE_ARM, CPU_SUBTYPE_ARM_V7EM),
    ("arm64", CPU_TYPE_ARM64, CPU_SUBTYPE_ARM64_ALL),
    ("arm64v8", CPU_TYPE_ARM64, CPU_SUBTYPE_ARM64_V8),
    ("arm64e", CPU_TYPE_ARM64, CPU_SUBTYPE_ARM64_E),
    ("arm64_32", CPU_TYPE_ARM64_32, CPU_SUBTYPE_ARM64_32_ALL),
    ("arm64_32_v8", CPU_TYPE_ARM64_32, CPU_SUBTYPE_ARM64_32_V8),
    ("m88k", CPU_TYPE_MC88000, CPU_SUBTYPE_MC88000_ALL),
    ("sparc", CPU_TYPE_SPARC, CPU_SUBTYPE_SPARC_ALL),
    ("i860", CPU_TYPE_I860, CPU_SUBTYPE_I860_ALL),
    ("ppc", CPU_TYPE_POWERPC, CPU_SUBTYPE_POWERPC_ALL),
    ("ppc601", CPU_TYPE_POWERPC, CPU_SUBTYPE_POWERPC_601),
    ("ppc603", CPU_TYPE_POWERPC, CPU_SUBTYPE_POWERPC_603),
    ("ppc603e", CPU_TYPE_POWERPC, CPU_SUBTYPE_POWERPC_603E),
    ("ppc603ev", CPU_TYPE_POWERPC, CPU_SUBTYPE_POWERPC_603EV),
    ("ppc604", CPU_TYPE_POWERPC, CPU_SUBTYPE_POWERPC_604),
    ("ppc604e", CPU_TYPE_POWERPC, CPU_SUBTYPE_POWERPC_604E),
    ("ppc750", CPU_TYPE_POWERPC, CPU_SUBTYPE_POWERPC_750),
    ("ppc7400", CPU_TYPE_POWERPC, CPU_SUBTYPE_POWERPC_7400),
    ("ppc7450", CPU_TYPE_POWERPC, CPU_SUBTYPE_POWERPC_7450),
    ("ppc970", CPU_TYPE_POWERPC, CPU_SUBTYPE_POWERPC_970),
    ("ppc64", CPU_TYPE_POWERPC64, CPU_SUBTYPE_POWERPC_ALL),
    ("ppc970-64", CPU_TYPE_POWERPC64, CPU_SUBTYPE_POWERPC_970),
];

// Other names of some of them.
const ALIASES: [Row; 3] = [
    ("pentium", CPU_TYPE_I386, CPU_SUBTYPE_PENT),
    ("pentpro", CPU_TYPE_I386, CPU_SUBTYPE_PENTPRO),
    ("x86", CPU_TYPE_I386, CPU_SUBTYPE_I386_ALL),
];

/// The type and subtype for which a name or another name of an architecture stands.
#[tactic(auto, using(crate::proofs::Names::pair_either))]
pub fn get_arch_from_flag(name: &str) -> Option<(CpuType, CpuSubType)>
    ensures { result ≡ pair_named name.now }
{
    pair_of_architecture(name).or(pair_of_alias(name))
}

// The type and subtype of the architecture of that name.
#[tactic(auto, unfolding(crate::specs::Architectures::architectures))]
fn pair_of_architecture(name: &str) -> Option<(CpuType, CpuSubType)>
    ensures { result ≡ pair_in architectures name.now }
{
    pair_in(&ARCHITECTURES, name)
}

// The type and subtype for which that other name stands.
#[tactic(auto, unfolding(crate::specs::Architectures::aliases))]
fn pair_of_alias(name: &str) -> Option<(CpuType, CpuSubType)>
    ensures { result ≡ pair_in aliases name.now }
{
    pair_in(&ALIASES, name)
}

/// The name of the architecture of a type and subtype. The subtype is compared with its feature bits.
#[tactic(auto, unfolding(crate::specs::Architectures::architectures))]
pub fn get_arch_name_from_types(cputype: CpuType, cpusubtype: CpuSubType) -> Option<&'static str>
    ensures { option_copied result ≡ name_of_pair cputype cpusubtype }
{
    name_in(&ARCHITECTURES, cputype, cpusubtype)
}

// The type and subtype of the first row of that name.
fn pair_in(rows: &[Row], name: &str) -> Option<(CpuType, CpuSubType)>
    ensures { result ≡ pair_in (map row_view rows.now) name.now }
{
    for row in rows {
        if row.0 == name {
            return Some((row.1, row.2));
        }
    }
    None
}

// The name of the first row of that type and subtype.
fn name_in(rows: &[Row], cputype: CpuType, cpusubtype: CpuSubType) -> Option<&'static str>
    ensures { option_copied result ≡ name_in (map row_view rows.now) cputype cpusubtype }
{
    for row in rows {
        if row.1 == cputype && row.2 == cpusubtype {
            return Some(row.0);
        }
    }
    None
}
