//! The laws of the constants. The functions do nothing; their contracts are the laws.

ghost use Rattle.goblin_reloc.specs.Row.{ConstantsAgree};
ghost use Rattle.goblin_reloc.specs.Machine.{machine_rows};
ghost use Rattle.goblin_reloc.specs.X86.{x86_rows};
ghost use Rattle.goblin_reloc.specs.X86_64.{x86_64_rows};
ghost use Rattle.goblin_reloc.specs.Aarch64.{aarch64_rows};
ghost use Rattle.goblin_reloc.specs.Arm.{arm_rows};
ghost use Rattle.goblin_reloc.specs.Openrisc.{openrisc_rows};
ghost use Rattle.goblin_reloc.specs.Mips.{mips_rows};
ghost use Rattle.goblin_reloc.specs.Riscv.{riscv_rows};
ghost use Rattle.goblin_reloc.specs.Powerpc.{powerpc_rows};
ghost use Rattle.goblin_reloc.specs.Powerpc64.{powerpc64_rows};
ghost use Rattle.goblin_reloc.specs.Loongarch.{loongarch_rows};

/// Each constant of x86_64, x86, aarch64, riscv and loongarch is the number that the table of its machine has for its name.
#[tactic(auto, unfolding(crate::specs::X86_64::x86_64_rows, crate::specs::X86::x86_rows, crate::specs::Aarch64::aarch64_rows, crate::specs::Riscv::riscv_rows, crate::specs::Loongarch::loongarch_rows))]
pub fn constant_laws()
    ensures x86_64 { ConstantsAgree x86_64_rows }
    ensures x86 { ConstantsAgree x86_rows }
    ensures aarch64 { ConstantsAgree aarch64_rows }
    ensures riscv { ConstantsAgree riscv_rows }
    ensures loongarch { ConstantsAgree loongarch_rows }
{}

/// Each constant of arm, mips, powerpc, powerpc64 and openrisc is the number that the table of its machine has for its name.
#[tactic(auto, unfolding(crate::specs::Arm::arm_rows, crate::specs::Mips::mips_rows, crate::specs::Powerpc::powerpc_rows, crate::specs::Powerpc64::powerpc64_rows, crate::specs::Openrisc::openrisc_rows))]
pub fn older_constant_laws()
    ensures arm { ConstantsAgree arm_rows }
    ensures mips { ConstantsAgree mips_rows }
    ensures powerpc { ConstantsAgree powerpc_rows }
    ensures powerpc64 { ConstantsAgree powerpc64_rows }
    ensures openrisc { ConstantsAgree openrisc_rows }
{}

/// Each constant of a machine is the number that the table of machines has for its name.
#[tactic(auto, unfolding(crate::specs::Machine::machine_rows))]
pub fn machine_laws()
    ensures { ConstantsAgree machine_rows }
{}
