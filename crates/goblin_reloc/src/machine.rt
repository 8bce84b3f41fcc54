//! Processors by the number in a file's header: System V gABI, "ELF Header", `e_machine`.

/// No machine.
pub const EM_NONE: u16 = 0;
/// Intel 80386.
pub const EM_386: u16 = 3;
/// MIPS.
pub const EM_MIPS: u16 = 8;
/// MIPS RS3000, little-endian.
pub const EM_MIPS_RS3_LE: u16 = 10;
/// PowerPC, 32 bits.
pub const EM_PPC: u16 = 20;
/// PowerPC, 64 bits.
pub const EM_PPC64: u16 = 21;
/// Arm, 32 bits.
pub const EM_ARM: u16 = 40;
/// Stanford MIPS-X.
pub const EM_MIPS_X: u16 = 51;
/// x86-64.
pub const EM_X86_64: u16 = 62;
/// OpenRISC.
pub const EM_OPENRISC: u16 = 92;
/// Arm, 64 bits.
pub const EM_AARCH64: u16 = 183;
/// RISC-V.
pub const EM_RISCV: u16 = 243;
/// LoongArch.
pub const EM_LOONGARCH: u16 = 258;
