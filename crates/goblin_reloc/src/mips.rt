//! Relocations of MIPS, by the System V ABI's MIPS RISC Processor Supplement ("Relocation Types") and
//! the "64-bit ELF Object File Specification".
//!
//! In the formulas S is the symbol's value, A the addend, P the address of the field, GP the value of
//! the global pointer, G the offset from GP of the symbol's entry in the global offset table (GOT), TP
//! the thread pointer, and DTP the start of the module's block of thread-local data, both with the
//! supplement's bias. A pair in the GOT is the module and the offset by which thread-local data is
//! found.

/// Nothing is filled in.
pub const R_MIPS_NONE: u32 = 0;
/// S + A in the low 2 bytes, signed.
pub const R_MIPS_16: u32 = 1;
/// S + A in 4 bytes.
pub const R_MIPS_32: u32 = 2;
/// S + A, less the symbol's address before the file was moved, in 4 bytes, filled in at load time.
pub const R_MIPS_REL32: u32 = 3;
/// S + A in the 26 bits of a jump, in words, within the 256 MiB of P.
pub const R_MIPS_26: u32 = 4;
/// Bits 16 to 31 of S + A in 16 bits, rounded so that the low half may be negative.
pub const R_MIPS_HI16: u32 = 5;
/// Bits 0 to 15 of S + A in 16 bits, not checked.
pub const R_MIPS_LO16: u32 = 6;
/// S + A - GP in 16 bits, signed.
pub const R_MIPS_GPREL16: u32 = 7;
/// The place of a literal less GP, in 16 bits, signed.
pub const R_MIPS_LITERAL: u32 = 8;
/// G + A in 16 bits, signed: the symbol's or its page's entry in the GOT.
pub const R_MIPS_GOT16: u32 = 9;
/// S + A - P in 16 bits, signed, in words.
pub const R_MIPS_PC16: u32 = 10;
/// G + A in 16 bits, signed, of a function's entry in the GOT.
pub const R_MIPS_CALL16: u32 = 11;
/// S + A - GP in 4 bytes, signed.
pub const R_MIPS_GPREL32: u32 = 12;
/// S in the 5 bits of a shift.
pub const R_MIPS_SHIFT5: u32 = 16;
/// S in the 6 bits of a shift.
pub const R_MIPS_SHIFT6: u32 = 17;
/// S + A in 8 bytes.
pub const R_MIPS_64: u32 = 18;
/// G in 16 bits, signed.
pub const R_MIPS_GOT_DISP: u32 = 19;
/// The GOT entry of the page of S + A, in 16 bits, signed.
pub const R_MIPS_GOT_PAGE: u32 = 20;
/// S + A less its page, in 16 bits, signed.
pub const R_MIPS_GOT_OFST: u32 = 21;
/// Bits 16 to 31 of G in 16 bits, rounded so that the low half may be negative.
pub const R_MIPS_GOT_HI16: u32 = 22;
/// Bits 0 to 15 of G in 16 bits.
pub const R_MIPS_GOT_LO16: u32 = 23;
/// S - A in 8 bytes.
pub const R_MIPS_SUB: u32 = 24;
/// An instruction is put in at this place, the first of two forms.
pub const R_MIPS_INSERT_A: u32 = 25;
/// An instruction is put in at this place, the second of two forms.
pub const R_MIPS_INSERT_B: u32 = 26;
/// Says that the instruction at this place is taken out.
pub const R_MIPS_DELETE: u32 = 27;
/// Bits 32 to 47 of S + A in 16 bits, rounded so that the lower ones may be negative.
pub const R_MIPS_HIGHER: u32 = 28;
/// Bits 48 to 63 of S + A in 16 bits, rounded so that the lower ones may be negative.
pub const R_MIPS_HIGHEST: u32 = 29;
/// Bits 16 to 31 of a function's G in 16 bits, rounded so that the low half may be negative.
pub const R_MIPS_CALL_HI16: u32 = 30;
/// Bits 0 to 15 of a function's G in 16 bits.
pub const R_MIPS_CALL_LO16: u32 = 31;
/// S + A less the start of its section, in 4 bytes.
pub const R_MIPS_SCN_DISP: u32 = 32;
/// S + A in 2 bytes.
pub const R_MIPS_REL16: u32 = 33;
/// S + A in the 16 bits of an instruction; out of use.
pub const R_MIPS_ADD_IMMEDIATE: u32 = 34;
/// A jump that may be out of reach; out of use.
pub const R_MIPS_PJUMP: u32 = 35;
/// S + A, less the symbol's address before the file was moved, in 4 bytes of a second GOT.
pub const R_MIPS_RELGOT: u32 = 36;
/// Names the target of a jump through a register, which the linker may make direct.
pub const R_MIPS_JALR: u32 = 37;
/// The number of the module that defines the symbol, in 4 bytes, filled in at load time.
pub const R_MIPS_TLS_DTPMOD32: u32 = 38;
/// S + A - DTP in 4 bytes, signed.
pub const R_MIPS_TLS_DTPREL32: u32 = 39;
/// The number of the module that defines the symbol, in 8 bytes, filled in at load time.
pub const R_MIPS_TLS_DTPMOD64: u32 = 40;
/// S + A - DTP in 8 bytes, signed.
pub const R_MIPS_TLS_DTPREL64: u32 = 41;
/// The symbol's pair in the GOT, less GP, in 16 bits, signed (general dynamic).
pub const R_MIPS_TLS_GD: u32 = 42;
/// The pair of this module in the GOT, less GP, in 16 bits, signed (local dynamic).
pub const R_MIPS_TLS_LDM: u32 = 43;
/// Bits 16 to 31 of S + A - DTP in 16 bits, rounded so that the low half may be negative.
pub const R_MIPS_TLS_DTPREL_HI16: u32 = 44;
/// Bits 0 to 15 of S + A - DTP in 16 bits.
pub const R_MIPS_TLS_DTPREL_LO16: u32 = 45;
/// The GOT entry that keeps S - TP, less GP, in 16 bits, signed (initial exec).
pub const R_MIPS_TLS_GOTTPREL: u32 = 46;
/// S + A - TP in 4 bytes, signed.
pub const R_MIPS_TLS_TPREL32: u32 = 47;
/// S + A - TP in 8 bytes, signed.
pub const R_MIPS_TLS_TPREL64: u32 = 48;
/// Bits 16 to 31 of S + A - TP in 16 bits, rounded so that the low half may be negative.
pub const R_MIPS_TLS_TPREL_HI16: u32 = 49;
/// Bits 0 to 15 of S + A - TP in 16 bits.
pub const R_MIPS_TLS_TPREL_LO16: u32 = 50;
/// S in an entry of the GOT, of the size of an address.
pub const R_MIPS_GLOB_DAT: u32 = 51;
/// At load time the symbol's bytes are copied here out of a shared object.
pub const R_MIPS_COPY: u32 = 126;
/// S in the GOT entry that a PLT slot jumps through, of the size of an address.
pub const R_MIPS_JUMP_SLOT: u32 = 127;
/// One more than the last number of the table; not a relocation.
pub const R_MIPS_NUM: u32 = 128;
