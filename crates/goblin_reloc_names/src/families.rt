//! The names that the numbers of each family have: the rows are those of the family's table.

ghost use Rattle.std.specs.Prelude.{◌≡◌, map};
ghost use Rattle.goblin_reloc_names.specs.Families.{x86, x86_64, aarch64, arm, openrisc, mips, riscv, powerpc, powerpc64, loongarch};
ghost use Rattle.goblin_reloc_names.specs.Names.{named_rows};
ghost use Rattle.goblin_reloc_names.specs.Lookup.{name_row};

use crate::{aarch64, arm, loongarch, mips, openrisc, powerpc, powerpc64, riscv, x86, x86_64};

/// The names of a family.
#[derive(Clone, Copy)]
pub struct FamilyNames {
    /// Each number that has a name, with the text that is told.
    pub rows: &'static [(u32, &'static str)],
    /// The text for a number without a name.
    pub unknown: &'static str,
}

/// The names of the Intel 80386.
#[tactic(auto, unfolding(crate::specs::Names::named_rows, crate::specs::Families::x86, goblin_reloc::specs::X86::x86_rows))]
pub fn x86_names() -> FamilyNames
    ensures rows { map name_row result.rows.now ≡ named_rows x86 }
    ensures unknown { result.unknown.now ≡ x86.unknown }
{
    FamilyNames {
        rows: &x86::NAMES,
        unknown: "R_UNKNOWN_386",
    }
}

/// The names of x86-64.
#[tactic(auto, unfolding(crate::specs::Names::named_rows, crate::specs::Families::x86_64, goblin_reloc::specs::X86_64::x86_64_rows))]
pub fn x86_64_names() -> FamilyNames
    ensures rows { map name_row result.rows.now ≡ named_rows x86_64 }
    ensures unknown { result.unknown.now ≡ x86_64.unknown }
{
    FamilyNames {
        rows: &x86_64::NAMES,
        unknown: "R_UNKNOWN_X86_64",
    }
}

/// The names of Arm, 64 bits.
#[tactic(auto, unfolding(crate::specs::Names::named_rows, crate::specs::Families::aarch64, goblin_reloc::specs::Aarch64::aarch64_rows))]
pub fn aarch64_names() -> FamilyNames
    ensures rows { map name_row result.rows.now ≡ named_rows aarch64 }
    ensures unknown { result.unknown.now ≡ aarch64.unknown }
{
    FamilyNames {
        rows: &aarch64::NAMES,
        unknown: "R_UNKNOWN_AARCH64",
    }
}

/// The names of Arm, 32 bits.
#[tactic(auto, unfolding(crate::specs::Names::named_rows, crate::specs::Families::arm, goblin_reloc::specs::Arm::arm_rows))]
pub fn arm_names() -> FamilyNames
    ensures rows { map name_row result.rows.now ≡ named_rows arm }
    ensures unknown { result.unknown.now ≡ arm.unknown }
{
    FamilyNames {
        rows: &arm::NAMES,
        unknown: "R_UNKNOWN_ARM",
    }
}

/// The names of OpenRISC.
#[tactic(auto, unfolding(crate::specs::Names::named_rows, crate::specs::Families::openrisc, goblin_reloc::specs::Openrisc::openrisc_rows))]
pub fn openrisc_names() -> FamilyNames
    ensures rows { map name_row result.rows.now ≡ named_rows openrisc }
    ensures unknown { result.unknown.now ≡ openrisc.unknown }
{
    FamilyNames {
        rows: &openrisc::NAMES,
        unknown: "R_UNKNOWN_OR1K",
    }
}

/// The names of MIPS.
#[tactic(auto, unfolding(crate::specs::Names::named_rows, crate::specs::Families::mips, goblin_reloc::specs::Mips::mips_rows))]
pub fn mips_names() -> FamilyNames
    ensures rows { map name_row result.rows.now ≡ named_rows mips }
    ensures unknown { result.unknown.now ≡ mips.unknown }
{
    FamilyNames {
        rows: &mips::NAMES,
        unknown: "R_UNKNOWN_MIPS",
    }
}

/// The names of RISC-V.
#[tactic(auto, unfolding(crate::specs::Names::named_rows, crate::specs::Families::riscv, goblin_reloc::specs::Riscv::riscv_rows))]
pub fn riscv_names() -> FamilyNames
    ensures rows { map name_row result.rows.now ≡ named_rows riscv }
    ensures unknown { result.unknown.now ≡ riscv.unknown }
{
    FamilyNames {
        rows: &riscv::NAMES,
        unknown: "R_UNKNOWN_RISCV",
    }
}

/// The names of PowerPC, 32 bits.
#[tactic(auto, unfolding(crate::specs::Names::named_rows, crate::specs::Families::powerpc, goblin_reloc::specs::Powerpc::powerpc_rows))]
pub fn powerpc_names() -> FamilyNames
    ensures rows { map name_row result.rows.now ≡ named_rows powerpc }
    ensures unknown { result.unknown.now ≡ powerpc.unknown }
{
    FamilyNames {
        rows: &powerpc::NAMES,
        unknown: "R_UNKNOWN_PPC",
    }
}

/// The names of PowerPC, 64 bits.
#[tactic(auto, unfolding(crate::specs::Names::named_rows, crate::specs::Families::powerpc64, goblin_reloc::specs::Powerpc64::powerpc64_rows))]
pub fn powerpc64_names() -> FamilyNames
    ensures rows { map name_row result.rows.now ≡ named_rows powerpc64 }
    ensures unknown { result.unknown.now ≡ powerpc64.unknown }
{
    FamilyNames {
        rows: &powerpc64::NAMES,
        unknown: "R_UNKNOWN_PPC64",
    }
}

/// The names of LoongArch.
#[tactic(auto, unfolding(crate::specs::Names::named_rows, crate::specs::Families::loongarch, goblin_reloc::specs::Loongarch::loongarch_rows))]
pub fn loongarch_names() -> FamilyNames
    ensures rows { map name_row result.rows.now ≡ named_rows loongarch }
    ensures unknown { result.unknown.now ≡ loongarch.unknown }
{
    FamilyNames {
        rows: &loongarch::NAMES,
        unknown: "R_UNKNOWN_LOONGARCH",
    }
}
