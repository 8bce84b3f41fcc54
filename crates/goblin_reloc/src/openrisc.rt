//! Relocations of the OpenRISC 1000, by the GNU C library's `elf.h` ("OpenRISC 1000 specific relocs").
//!
//! In the formulas S is the symbol's value, A the addend, P the address of the field, B the address at
//! which the object is loaded, GOT the address of the global offset table, G the offset of the symbol's
//! entry in it, L the address of the symbol's slot in the procedure linkage table (PLT), TP the thread
//! pointer, and DTP the start of the module's block of thread-local data. A pair in the GOT is the
//! module and the offset by which thread-local data is found.

/// Nothing is filled in.
pub const R_OR1K_NONE: u32 = 0;
/// S + A in 4 bytes.
pub const R_OR1K_32: u32 = 1;
/// S + A in 2 bytes.
pub const R_OR1K_16: u32 = 2;
/// S + A in 1 byte.
pub const R_OR1K_8: u32 = 3;
/// Bits 0 to 15 of S + A in the 16 bits of an instruction, not checked.
pub const R_OR1K_LO_16_IN_INSN: u32 = 4;
/// Bits 16 to 31 of S + A in the 16 bits of an instruction.
pub const R_OR1K_HI_16_IN_INSN: u32 = 5;
/// S + A - P in the 26 bits of a jump, signed, in words.
pub const R_OR1K_INSN_REL_26: u32 = 6;
/// Marks the use of an entry of a table of virtual functions; no field.
pub const R_OR1K_GNU_VTENTRY: u32 = 7;
/// Marks a table of virtual functions and the one that it extends; no field.
pub const R_OR1K_GNU_VTINHERIT: u32 = 8;
/// S + A - P in 4 bytes, signed.
pub const R_OR1K_32_PCREL: u32 = 9;
/// S + A - P in 2 bytes, signed.
pub const R_OR1K_16_PCREL: u32 = 10;
/// S + A - P in 1 byte, signed.
pub const R_OR1K_8_PCREL: u32 = 11;
/// Bits 16 to 31 of GOT + A - P in the 16 bits of an instruction.
pub const R_OR1K_GOTPC_HI16: u32 = 12;
/// Bits 0 to 15 of GOT + A - P in the 16 bits of an instruction.
pub const R_OR1K_GOTPC_LO16: u32 = 13;
/// G + A in the 16 bits of a load, signed.
pub const R_OR1K_GOT16: u32 = 14;
/// L + A - P in the 26 bits of a jump, signed, in words.
pub const R_OR1K_PLT26: u32 = 15;
/// Bits 16 to 31 of S + A - GOT in the 16 bits of an instruction.
pub const R_OR1K_GOTOFF_HI16: u32 = 16;
/// Bits 0 to 15 of S + A - GOT in the 16 bits of an instruction.
pub const R_OR1K_GOTOFF_LO16: u32 = 17;
/// At load time the symbol's bytes are copied here out of a shared object.
pub const R_OR1K_COPY: u32 = 18;
/// S in 4 bytes, in an entry of the GOT.
pub const R_OR1K_GLOB_DAT: u32 = 19;
/// S in 4 bytes, in the GOT entry that a PLT slot jumps through.
pub const R_OR1K_JMP_SLOT: u32 = 20;
/// B + A in 4 bytes, filled in at load time.
pub const R_OR1K_RELATIVE: u32 = 21;
/// Bits 16 to 31 of the offset from GOT of the symbol's pair (general dynamic).
pub const R_OR1K_TLS_GD_HI16: u32 = 22;
/// Bits 0 to 15 of the offset from GOT of the symbol's pair (general dynamic).
pub const R_OR1K_TLS_GD_LO16: u32 = 23;
/// Bits 16 to 31 of the offset from GOT of the pair of this module (local dynamic).
pub const R_OR1K_TLS_LDM_HI16: u32 = 24;
/// Bits 0 to 15 of the offset from GOT of the pair of this module (local dynamic).
pub const R_OR1K_TLS_LDM_LO16: u32 = 25;
/// Bits 16 to 31 of S + A - DTP in an instruction (local dynamic).
pub const R_OR1K_TLS_LDO_HI16: u32 = 26;
/// Bits 0 to 15 of S + A - DTP in an instruction (local dynamic).
pub const R_OR1K_TLS_LDO_LO16: u32 = 27;
/// Bits 16 to 31 of the offset from GOT of the entry that keeps S - TP (initial exec).
pub const R_OR1K_TLS_IE_HI16: u32 = 28;
/// Bits 0 to 15 of the offset from GOT of the entry that keeps S - TP (initial exec).
pub const R_OR1K_TLS_IE_LO16: u32 = 29;
/// Bits 16 to 31 of S + A - TP in an instruction (local exec).
pub const R_OR1K_TLS_LE_HI16: u32 = 30;
/// Bits 0 to 15 of S + A - TP in an instruction (local exec).
pub const R_OR1K_TLS_LE_LO16: u32 = 31;
/// S + A - TP in 4 bytes, signed, filled in at load time.
pub const R_OR1K_TLS_TPOFF: u32 = 32;
/// S + A - DTP in 4 bytes, signed, filled in at load time.
pub const R_OR1K_TLS_DTPOFF: u32 = 33;
/// The number of the module that defines the symbol, in 4 bytes, filled in at load time.
pub const R_OR1K_TLS_DTPMOD: u32 = 34;
/// One more than the last number of the table; not a relocation.
pub const R_OR1K_NUM: u32 = 35;
