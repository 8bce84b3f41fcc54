//! Relocations of the Arm 32-bit architecture, by "ELF for the Arm Architecture" ("Relocation codes").
//!
//! In the formulas S is the symbol's value, A the addend, T is 1 where the symbol is a Thumb function,
//! else 0, P is the address of the field, Pa is P with its low 2 bits cleared, B(S) the start of the
//! segment that defines the symbol, GOT the address of the global offset table, GOT(S) that of the
//! symbol's entry in it, PLT(S) that of the symbol's slot in the procedure linkage table, TP the thread
//! pointer, and DTP the start of the module's block of thread-local data. A group of bits is what one
//! arithmetic instruction can add. A pair in the GOT is the module and the offset by which thread-local
//! data is found.

/// Nothing is filled in.
pub const R_ARM_NONE: u32 = 0;
/// ((S + A) | T) - P in the 24 bits of a branch, signed, in words; out of use.
pub const R_ARM_PC24: u32 = 1;
/// (S + A) | T in 4 bytes.
pub const R_ARM_ABS32: u32 = 2;
/// ((S + A) | T) - P in 4 bytes, signed.
pub const R_ARM_REL32: u32 = 3;
/// S + A - P in the 12 bits of a load or store and its sign bit.
pub const R_ARM_PC13: u32 = 4;
/// S + A in 2 bytes.
pub const R_ARM_ABS16: u32 = 5;
/// S + A in the 12 bits of a load or store.
pub const R_ARM_ABS12: u32 = 6;
/// S + A in the 5 bits of a Thumb load or store, in words.
pub const R_ARM_THM_ABS5: u32 = 7;
/// S + A in 1 byte.
pub const R_ARM_ABS8: u32 = 8;
/// ((S + A) | T) - B(S) in 4 bytes, signed.
pub const R_ARM_SBREL32: u32 = 9;
/// ((S + A) | T) - P in a Thumb BL, signed, in halfwords.
pub const R_ARM_THM_PC22: u32 = 10;
/// S + A - Pa in the 8 bits of a Thumb load or ADR, unsigned, in words.
pub const R_ARM_THM_PC8: u32 = 11;
/// The change of B(S), plus A, in 4 bytes, filled in at load time; out of use.
pub const R_ARM_AMP_VCALL9: u32 = 12;
/// Out of use; its number is now R_ARM_TLS_DESC's.
pub const R_ARM_SWI24: u32 = 13;
/// A TLS descriptor of two words, filled in at load time.
pub const R_ARM_TLS_DESC: u32 = 13;
/// Out of use: a Thumb software interrupt.
pub const R_ARM_THM_SWI8: u32 = 14;
/// Out of use: a BLX to the other instruction set.
pub const R_ARM_XPC25: u32 = 15;
/// Out of use: a Thumb BLX to the other instruction set.
pub const R_ARM_THM_XPC22: u32 = 16;
/// The number of the module that defines the symbol, in 4 bytes, filled in at load time.
pub const R_ARM_TLS_DTPMOD32: u32 = 17;
/// S + A - DTP in 4 bytes, signed, filled in at load time.
pub const R_ARM_TLS_DTPOFF32: u32 = 18;
/// S + A - TP in 4 bytes, signed, filled in at load time.
pub const R_ARM_TLS_TPOFF32: u32 = 19;
/// At load time the symbol's bytes are copied here out of a shared object.
pub const R_ARM_COPY: u32 = 20;
/// (S + A) | T in 4 bytes, in an entry of the GOT.
pub const R_ARM_GLOB_DAT: u32 = 21;
/// (S + A) | T in 4 bytes, in the GOT entry that a PLT slot jumps through.
pub const R_ARM_JUMP_SLOT: u32 = 22;
/// B(S) + A in 4 bytes, filled in at load time.
pub const R_ARM_RELATIVE: u32 = 23;
/// ((S + A) | T) - GOT in 4 bytes, signed.
pub const R_ARM_GOTOFF: u32 = 24;
/// B(S) + A - P in 4 bytes, signed; with the GOT's symbol, GOT + A - P.
pub const R_ARM_GOTPC: u32 = 25;
/// GOT(S) + A - GOT in 4 bytes, signed.
pub const R_ARM_GOT32: u32 = 26;
/// ((S + A) | T) - P in the 24 bits of a branch, through the PLT if need be; out of use.
pub const R_ARM_PLT32: u32 = 27;
/// ((S + A) | T) - P in the 24 bits of a BL or BLX, signed, in words.
pub const R_ARM_CALL: u32 = 28;
/// ((S + A) | T) - P in the 24 bits of a B or a BL with a condition, signed, in words.
pub const R_ARM_JUMP24: u32 = 29;
/// ((S + A) | T) - P in a Thumb B.W, signed, in halfwords.
pub const R_ARM_THM_JUMP24: u32 = 30;
/// B(S) + A in 4 bytes.
pub const R_ARM_BASE_ABS: u32 = 31;
/// Bits 0 to 7 of S + A - P in an arithmetic instruction; out of use.
pub const R_ARM_ALU_PCREL_7_0: u32 = 32;
/// Bits 8 to 15 of S + A - P in an arithmetic instruction; out of use.
pub const R_ARM_ALU_PCREL_15_8: u32 = 33;
/// The third part of S + A - P in an arithmetic instruction; out of use.
pub const R_ARM_ALU_PCREL_23_15: u32 = 34;
/// Bits 0 to 11 of S + A - B(S) in a load or store, not checked; out of use.
pub const R_ARM_LDR_SBREL_11_0: u32 = 35;
/// Bits 12 to 19 of S + A - B(S) in an arithmetic instruction, not checked; out of use.
pub const R_ARM_ALU_SBREL_19_12: u32 = 36;
/// Bits 20 to 27 of S + A - B(S) in an arithmetic instruction; out of use.
pub const R_ARM_ALU_SBREL_27_20: u32 = 37;
/// By the platform (S + A) | T, or that less P, in 4 bytes.
pub const R_ARM_TARGET1: u32 = 38;
/// ((S + A) | T) - B(S) in the low 31 bits of 4 bytes, signed; out of use.
pub const R_ARM_SBREL31: u32 = 39;
/// Marks a BX, which a linker may turn into a move for the fourth architecture; no field.
pub const R_ARM_V4BX: u32 = 40;
/// By the platform S + A, that less P, or GOT(S) + A - P, in 4 bytes.
pub const R_ARM_TARGET2: u32 = 41;
/// ((S + A) | T) - P in the low 31 bits of 4 bytes, signed.
pub const R_ARM_PREL31: u32 = 42;
/// Bits 0 to 15 of (S + A) | T in a MOVW, not checked.
pub const R_ARM_MOVW_ABS_NC: u32 = 43;
/// Bits 16 to 31 of S + A in a MOVT.
pub const R_ARM_MOVT_ABS: u32 = 44;
/// Bits 0 to 15 of ((S + A) | T) - P in a MOVW, not checked.
pub const R_ARM_MOVW_PREL_NC: u32 = 45;
/// Bits 16 to 31 of S + A - P in a MOVT.
pub const R_ARM_MOVT_PREL: u32 = 46;
/// Bits 0 to 15 of (S + A) | T in a Thumb MOVW, not checked.
pub const R_ARM_THM_MOVW_ABS_NC: u32 = 47;
/// Bits 16 to 31 of S + A in a Thumb MOVT.
pub const R_ARM_THM_MOVT_ABS: u32 = 48;
/// Bits 0 to 15 of ((S + A) | T) - P in a Thumb MOVW, not checked.
pub const R_ARM_THM_MOVW_PREL_NC: u32 = 49;
/// Bits 16 to 31 of S + A - P in a Thumb MOVT.
pub const R_ARM_THM_MOVT_PREL: u32 = 50;
/// ((S + A) | T) - P in a Thumb B.W with a condition, signed, in halfwords.
pub const R_ARM_THM_JUMP19: u32 = 51;
/// S + A - P in the 6 bits of a Thumb CBZ or CBNZ, unsigned, in halfwords.
pub const R_ARM_THM_JUMP6: u32 = 52;
/// ((S + A) | T) - Pa in the 12 bits of a Thumb ADR.W, with its sign in the instruction.
pub const R_ARM_THM_ALU_PREL_11_0: u32 = 53;
/// S + A - Pa in the 12 bits of a Thumb load, with its sign in the instruction.
pub const R_ARM_THM_PC12: u32 = 54;
/// S + A in 4 bytes, without the Thumb bit.
pub const R_ARM_ABS32_NOI: u32 = 55;
/// S + A - P in 4 bytes, signed, without the Thumb bit.
pub const R_ARM_REL32_NOI: u32 = 56;
/// The first group of bits of ((S + A) | T) - P in an ADD or SUB, not checked.
pub const R_ARM_ALU_PC_G0_NC: u32 = 57;
/// The first group of bits of ((S + A) | T) - P in an ADD or SUB; no bits may be left.
pub const R_ARM_ALU_PC_G0: u32 = 58;
/// The second group of bits of ((S + A) | T) - P in an ADD or SUB, not checked.
pub const R_ARM_ALU_PC_G1_NC: u32 = 59;
/// The second group of bits of ((S + A) | T) - P in an ADD or SUB; no bits may be left.
pub const R_ARM_ALU_PC_G1: u32 = 60;
/// The third group of bits of ((S + A) | T) - P in an ADD or SUB; no bits may be left.
pub const R_ARM_ALU_PC_G2: u32 = 61;
/// What one group of bits of S + A - P leaves, in the 12 bits of a load or store.
pub const R_ARM_LDR_PC_G1: u32 = 62;
/// What two groups of bits of S + A - P leave, in the 12 bits of a load or store.
pub const R_ARM_LDR_PC_G2: u32 = 63;
/// S + A - P in the 8 bits of a halfword or doubleword load or store.
pub const R_ARM_LDRS_PC_G0: u32 = 64;
/// What one group of bits of S + A - P leaves, in the 8 bits of a halfword load or store.
pub const R_ARM_LDRS_PC_G1: u32 = 65;
/// What two groups of bits of S + A - P leave, in the 8 bits of a halfword load or store.
pub const R_ARM_LDRS_PC_G2: u32 = 66;
/// S + A - P in the 8 bits of an LDC or STC, in words.
pub const R_ARM_LDC_PC_G0: u32 = 67;
/// What one group of bits of S + A - P leaves, in the 8 bits of an LDC or STC, in words.
pub const R_ARM_LDC_PC_G1: u32 = 68;
/// What two groups of bits of S + A - P leave, in the 8 bits of an LDC or STC, in words.
pub const R_ARM_LDC_PC_G2: u32 = 69;
/// The first group of bits of ((S + A) | T) - B(S) in an ADD or SUB, not checked.
pub const R_ARM_ALU_SB_G0_NC: u32 = 70;
/// The first group of bits of ((S + A) | T) - B(S) in an ADD or SUB; no bits may be left.
pub const R_ARM_ALU_SB_G0: u32 = 71;
/// The second group of bits of ((S + A) | T) - B(S) in an ADD or SUB, not checked.
pub const R_ARM_ALU_SB_G1_NC: u32 = 72;
/// The second group of bits of ((S + A) | T) - B(S) in an ADD or SUB; no bits may be left.
pub const R_ARM_ALU_SB_G1: u32 = 73;
/// The third group of bits of ((S + A) | T) - B(S) in an ADD or SUB; no bits may be left.
pub const R_ARM_ALU_SB_G2: u32 = 74;
/// S + A - B(S) in the 12 bits of a load or store.
pub const R_ARM_LDR_SB_G0: u32 = 75;
/// What one group of bits of S + A - B(S) leaves, in the 12 bits of a load or store.
pub const R_ARM_LDR_SB_G1: u32 = 76;
/// What two groups of bits of S + A - B(S) leave, in the 12 bits of a load or store.
pub const R_ARM_LDR_SB_G2: u32 = 77;
/// S + A - B(S) in the 8 bits of a halfword or doubleword load or store.
pub const R_ARM_LDRS_SB_G0: u32 = 78;
/// What one group of bits of S + A - B(S) leaves, in the 8 bits of a halfword load or store.
pub const R_ARM_LDRS_SB_G1: u32 = 79;
/// What two groups of bits of S + A - B(S) leave, in the 8 bits of a halfword load or store.
pub const R_ARM_LDRS_SB_G2: u32 = 80;
/// S + A - B(S) in the 8 bits of an LDC or STC, in words.
pub const R_ARM_LDC_SB_G0: u32 = 81;
/// What one group of bits of S + A - B(S) leaves, in the 8 bits of an LDC or STC, in words.
pub const R_ARM_LDC_SB_G1: u32 = 82;
/// What two groups of bits of S + A - B(S) leave, in the 8 bits of an LDC or STC, in words.
pub const R_ARM_LDC_SB_G2: u32 = 83;
/// Bits 0 to 15 of ((S + A) | T) - B(S) in a MOVW, not checked.
pub const R_ARM_MOVW_BREL_NC: u32 = 84;
/// Bits 16 to 31 of S + A - B(S) in a MOVT.
pub const R_ARM_MOVT_BREL: u32 = 85;
/// Bits 0 to 15 of ((S + A) | T) - B(S) in a MOVW.
pub const R_ARM_MOVW_BREL: u32 = 86;
/// Bits 0 to 15 of ((S + A) | T) - B(S) in a Thumb MOVW, not checked.
pub const R_ARM_THM_MOVW_BREL_NC: u32 = 87;
/// Bits 16 to 31 of S + A - B(S) in a Thumb MOVT.
pub const R_ARM_THM_MOVT_BREL: u32 = 88;
/// Bits 0 to 15 of ((S + A) | T) - B(S) in a Thumb MOVW.
pub const R_ARM_THM_MOVW_BREL: u32 = 89;
/// The symbol's TLS descriptor, less P, plus A, in 4 bytes, signed.
pub const R_ARM_TLS_GOTDESC: u32 = 90;
/// The branch to the function that reads a TLS descriptor, in the 24 bits of a BL.
pub const R_ARM_TLS_CALL: u32 = 91;
/// Marks an instruction of a sequence over a TLS descriptor, which the linker may change.
pub const R_ARM_TLS_DESCSEQ: u32 = 92;
/// The branch to the function that reads a TLS descriptor, in a Thumb BL.
pub const R_ARM_THM_TLS_CALL: u32 = 93;
/// PLT(S) + A in 4 bytes.
pub const R_ARM_PLT32_ABS: u32 = 94;
/// GOT(S) + A in 4 bytes.
pub const R_ARM_GOT_ABS: u32 = 95;
/// GOT(S) + A - P in 4 bytes, signed.
pub const R_ARM_GOT_PREL: u32 = 96;
/// GOT(S) + A - GOT in the 12 bits of a load, unsigned.
pub const R_ARM_GOT_BREL12: u32 = 97;
/// S + A - GOT in the 12 bits of a load or store, unsigned.
pub const R_ARM_GOTOFF12: u32 = 98;
/// Kept for changes of loads out of the GOT.
pub const R_ARM_GOTRELAX: u32 = 99;
/// Marks the use of an entry of a table of virtual functions; no field.
pub const R_ARM_GNU_VTENTRY: u32 = 100;
/// Marks a table of virtual functions and the one that it extends; no field.
pub const R_ARM_GNU_VTINHERIT: u32 = 101;
/// S + A - P in the 11 bits of a Thumb B, signed, in halfwords.
pub const R_ARM_THM_PC11: u32 = 102;
/// S + A - P in the 8 bits of a Thumb B with a condition, signed, in halfwords.
pub const R_ARM_THM_PC9: u32 = 103;
/// The symbol's pair of module and offset in the GOT, less P, plus A, in 4 bytes, signed.
pub const R_ARM_TLS_GD32: u32 = 104;
/// The pair of this module in the GOT, less P, plus A, in 4 bytes, signed.
pub const R_ARM_TLS_LDM32: u32 = 105;
/// S + A - DTP in 4 bytes, signed (local dynamic).
pub const R_ARM_TLS_LDO32: u32 = 106;
/// The GOT entry that keeps S - TP, less P, plus A, in 4 bytes, signed (initial exec).
pub const R_ARM_TLS_IE32: u32 = 107;
/// S + A - TP in 4 bytes, signed (local exec).
pub const R_ARM_TLS_LE32: u32 = 108;
/// S + A - DTP in the 12 bits of a load or store (local dynamic).
pub const R_ARM_TLS_LDO12: u32 = 109;
/// S + A - TP in the 12 bits of a load or store (local exec).
pub const R_ARM_TLS_LE12: u32 = 110;
/// The GOT entry that keeps S - TP, less GOT, plus A, in the 12 bits of a load (initial exec).
pub const R_ARM_TLS_IE12GP: u32 = 111;
/// Out of use.
pub const R_ARM_ME_TOO: u32 = 128;
/// The older name of R_ARM_THM_TLS_DESCSEQ16.
pub const R_ARM_THM_TLS_DESCSEQ: u32 = 129;
/// Marks a Thumb instruction of 2 bytes in a sequence over a TLS descriptor.
pub const R_ARM_THM_TLS_DESCSEQ16: u32 = 129;
/// Marks a Thumb instruction of 4 bytes in a sequence over a TLS descriptor.
pub const R_ARM_THM_TLS_DESCSEQ32: u32 = 130;
/// GOT(S) + A - GOT in the 12 bits of a Thumb load, unsigned.
pub const R_ARM_THM_GOT_BREL12: u32 = 131;
/// What the function at B(S) + A returns, in 4 bytes, filled in at load time.
pub const R_ARM_IRELATIVE: u32 = 160;
/// Out of use: a BLX within the segment.
pub const R_ARM_RXPC25: u32 = 249;
/// Out of use: a word from the segment's static base.
pub const R_ARM_RSBREL32: u32 = 250;
/// Out of use: a Thumb BL within the segment.
pub const R_ARM_THM_RPC22: u32 = 251;
/// Out of use: a word from its own place, within the segment.
pub const R_ARM_RREL32: u32 = 252;
/// Out of use: 22 bits of an address in the segment.
pub const R_ARM_RABS22: u32 = 253;
/// Out of use: a branch within the segment.
pub const R_ARM_RPC24: u32 = 254;
/// Out of use: the base of the segment.
pub const R_ARM_RBASE: u32 = 255;
/// One more than the last number of the table; not a relocation.
pub const R_ARM_NUM: u32 = 256;
