//! The name of a relocation number.

ghost use Rattle.std.specs.Prelude.{◌≡◌};
ghost use Rattle.goblin_reloc_names.specs.Lookup.{name_among};
ghost use Rattle.goblin_reloc_names.specs.Names.{relocation_name};

use crate::families::{
    FamilyNames, aarch64_names, arm_names, loongarch_names, mips_names, openrisc_names,
    powerpc_names, powerpc64_names, riscv_names, x86_64_names, x86_names,
};
use goblin_reloc::{
    EM_386, EM_AARCH64, EM_ARM, EM_LOONGARCH, EM_MIPS, EM_MIPS_RS3_LE, EM_MIPS_X, EM_OPENRISC,
    EM_PPC, EM_PPC64, EM_RISCV, EM_X86_64,
};

/// The name of the relocation number `typ` of a machine, the ELF header's `e_machine`.
///
/// Of MIPS, RISC-V and both PowerPCs it is the constant's whole name, of the others the name without its
/// `R_`. A number without a name gives `R_UNKNOWN_` and the word of the machine, another machine
/// `R_UNKNOWN`. Counts (`_NUM`) and a few names that say nothing (as `R_X86_64_NONE`) are never told. It
/// takes no memory.
pub fn r_to_str(typ: u32, machine: u16) -> &'static str
    ensures { result.now ≡ relocation_name typ machine }
{
    match machine {
        EM_386 => name_in(x86_names(), typ),
        EM_MIPS | EM_MIPS_RS3_LE | EM_MIPS_X => name_in(mips_names(), typ),
        EM_PPC => name_in(powerpc_names(), typ),
        EM_PPC64 => name_in(powerpc64_names(), typ),
        EM_ARM => name_in(arm_names(), typ),
        EM_X86_64 => name_in(x86_64_names(), typ),
        EM_OPENRISC => name_in(openrisc_names(), typ),
        EM_AARCH64 => name_in(aarch64_names(), typ),
        EM_RISCV => name_in(riscv_names(), typ),
        EM_LOONGARCH => name_in(loongarch_names(), typ),
        _ => "R_UNKNOWN",
    }
}

/// The name in the row with the number, or the text for a number without one.
#[tactic(auto, unfolding(crate::specs::Lookup::name_among))]
fn name_in(names: FamilyNames, number: u32) -> &'static str
    ensures { result.now ≡ name_among names.rows.now number names.unknown.now }
{
    names
        .rows
        .iter()
        .find(|row| row.0 == number)
        .map_or(names.unknown, |row| row.1)
}
