//! Relocations of LoongArch, by the "LoongArch ELF psABI" specification ("Relocations").
//!
//! In the formulas S is the symbol's value, A the addend, P the address of the field, V what the field
//! held, B the address at which the object is loaded, GOT the address of the global offset table, G
//! the offset of the symbol's entry in it, TP the thread pointer, and DTP the start of the module's
//! block of thread-local data. A page has 4,096 bytes. A part of a number is corrected where the parts
//! below it are read as signed. An address has 4 or 8 bytes by the file's class. A pair in the GOT is
//! the module and the offset by which thread-local data is found.

/// Nothing is filled in.
pub const R_LARCH_NONE: u32 = 0;
/// S + A in 4 bytes.
pub const R_LARCH_32: u32 = 1;
/// S + A in 8 bytes.
pub const R_LARCH_64: u32 = 2;
/// B + A in an address, filled in at load time.
pub const R_LARCH_RELATIVE: u32 = 3;
/// At load time the symbol's bytes are copied here out of a shared object.
pub const R_LARCH_COPY: u32 = 4;
/// S in the GOT entry that a PLT slot jumps through, of the size of an address.
pub const R_LARCH_JUMP_SLOT: u32 = 5;
/// The number of the module that defines the symbol, in 4 bytes, filled in at load time.
pub const R_LARCH_TLS_DTPMOD32: u32 = 6;
/// The number of the module that defines the symbol, in 8 bytes, filled in at load time.
pub const R_LARCH_TLS_DTPMOD64: u32 = 7;
/// S + A - DTP in 4 bytes, signed.
pub const R_LARCH_TLS_DTPREL32: u32 = 8;
/// S + A - DTP in 8 bytes, signed.
pub const R_LARCH_TLS_DTPREL64: u32 = 9;
/// S + A - TP in 4 bytes, signed, filled in at load time.
pub const R_LARCH_TLS_TPREL32: u32 = 10;
/// S + A - TP in 8 bytes, signed, filled in at load time.
pub const R_LARCH_TLS_TPREL64: u32 = 11;
/// What the function at B + A returns, in an address, filled in at load time.
pub const R_LARCH_IRELATIVE: u32 = 12;
/// A TLS descriptor of two words of 4 bytes, filled in at load time.
pub const R_LARCH_TLS_DESC32: u32 = 13;
/// A TLS descriptor of two words of 8 bytes, filled in at load time.
pub const R_LARCH_TLS_DESC64: u32 = 14;
/// Marks a load of an absolute address; no field.
pub const R_LARCH_MARK_LA: u32 = 20;
/// Marks an access relative to P; no field.
pub const R_LARCH_MARK_PCREL: u32 = 21;
/// Puts S - P + A on the stack of the linker.
pub const R_LARCH_SOP_PUSH_PCREL: u32 = 22;
/// Puts S + A on the stack of the linker.
pub const R_LARCH_SOP_PUSH_ABSOLUTE: u32 = 23;
/// Puts what lies on top of the linker's stack there once more.
pub const R_LARCH_SOP_PUSH_DUP: u32 = 24;
/// Puts the offset in the GOT of the symbol's entry, plus A, on the stack of the linker.
pub const R_LARCH_SOP_PUSH_GPREL: u32 = 25;
/// Puts S + A - TP on the stack of the linker (local exec).
pub const R_LARCH_SOP_PUSH_TLS_TPREL: u32 = 26;
/// Puts the offset of the GOT entry that keeps S - TP on the linker's stack (initial exec).
pub const R_LARCH_SOP_PUSH_TLS_GOT: u32 = 27;
/// Puts the offset in the GOT of the symbol's pair on the linker's stack (general dynamic).
pub const R_LARCH_SOP_PUSH_TLS_GD: u32 = 28;
/// Puts the PLT slot less P on the stack of the linker.
pub const R_LARCH_SOP_PUSH_PLT_PCREL: u32 = 29;
/// Takes a number off the linker's stack, which may not be 0.
pub const R_LARCH_SOP_ASSERT: u32 = 30;
/// Puts in place of the top of the linker's stack whether it is 0.
pub const R_LARCH_SOP_NOT: u32 = 31;
/// Takes two numbers off the linker's stack and puts their difference there.
pub const R_LARCH_SOP_SUB: u32 = 32;
/// Takes two numbers off the linker's stack and puts there the lower one shifted left by the top.
pub const R_LARCH_SOP_SL: u32 = 33;
/// Takes two numbers off the linker's stack and puts there the lower one shifted right by the top.
pub const R_LARCH_SOP_SR: u32 = 34;
/// Takes two numbers off the linker's stack and puts their sum there.
pub const R_LARCH_SOP_ADD: u32 = 35;
/// Takes two numbers off the linker's stack and puts there the bits that both have.
pub const R_LARCH_SOP_AND: u32 = 36;
/// Takes three numbers off the linker's stack and puts the second or the third there by the first.
pub const R_LARCH_SOP_IF_ELSE: u32 = 37;
/// The top of the linker's stack, taken off, in 5 bits from bit 10, signed.
pub const R_LARCH_SOP_POP_32_S_10_5: u32 = 38;
/// The top of the linker's stack, taken off, in 12 bits from bit 10, unsigned.
pub const R_LARCH_SOP_POP_32_U_10_12: u32 = 39;
/// The top of the linker's stack, taken off, in 12 bits from bit 10, signed.
pub const R_LARCH_SOP_POP_32_S_10_12: u32 = 40;
/// The top of the linker's stack, taken off, in 16 bits from bit 10, signed.
pub const R_LARCH_SOP_POP_32_S_10_16: u32 = 41;
/// The top of the linker's stack, taken off, in 16 bits from bit 10, signed, in words.
pub const R_LARCH_SOP_POP_32_S_10_16_S2: u32 = 42;
/// The top of the linker's stack, taken off, in 20 bits from bit 5, signed.
pub const R_LARCH_SOP_POP_32_S_5_20: u32 = 43;
/// The top of the linker's stack, taken off, in 5 bits from bit 0 and 16 from 10, in words.
pub const R_LARCH_SOP_POP_32_S_0_5_10_16_S2: u32 = 44;
/// The top of the linker's stack, taken off, in 10 bits from bit 0 and 16 from 10, in words.
pub const R_LARCH_SOP_POP_32_S_0_10_10_16_S2: u32 = 45;
/// The top of the linker's stack, taken off, in 4 bytes, unsigned.
pub const R_LARCH_SOP_POP_32_U: u32 = 46;
/// V + S + A in 1 byte.
pub const R_LARCH_ADD8: u32 = 47;
/// V + S + A in 2 bytes.
pub const R_LARCH_ADD16: u32 = 48;
/// V + S + A in 3 bytes.
pub const R_LARCH_ADD24: u32 = 49;
/// V + S + A in 4 bytes.
pub const R_LARCH_ADD32: u32 = 50;
/// V + S + A in 8 bytes.
pub const R_LARCH_ADD64: u32 = 51;
/// V - S - A in 1 byte.
pub const R_LARCH_SUB8: u32 = 52;
/// V - S - A in 2 bytes.
pub const R_LARCH_SUB16: u32 = 53;
/// V - S - A in 3 bytes.
pub const R_LARCH_SUB24: u32 = 54;
/// V - S - A in 4 bytes.
pub const R_LARCH_SUB32: u32 = 55;
/// V - S - A in 8 bytes.
pub const R_LARCH_SUB64: u32 = 56;
/// Marks a table of virtual functions and the one that it extends; no field.
pub const R_LARCH_GNU_VTINHERIT: u32 = 57;
/// Marks the use of an entry of a table of virtual functions; no field.
pub const R_LARCH_GNU_VTENTRY: u32 = 58;
/// S + A - P in the 16 bits of a branch, signed, in words.
pub const R_LARCH_B16: u32 = 64;
/// S + A - P in the 21 bits of a branch, signed, in words.
pub const R_LARCH_B21: u32 = 65;
/// S + A - P in the 26 bits of a branch, signed, in words.
pub const R_LARCH_B26: u32 = 66;
/// Bits 12 to 31 of S + A in the 20 bits of an instruction.
pub const R_LARCH_ABS_HI20: u32 = 67;
/// Bits 0 to 11 of S + A in the 12 bits of an instruction, read as unsigned.
pub const R_LARCH_ABS_LO12: u32 = 68;
/// Bits 32 to 51 of S + A in the 20 bits of an instruction.
pub const R_LARCH_ABS64_LO20: u32 = 69;
/// Bits 52 to 63 of S + A in the 12 bits of an instruction.
pub const R_LARCH_ABS64_HI12: u32 = 70;
/// Bits 12 to 31 of the page of S + A, less the page of P, rounded for a signed low part.
pub const R_LARCH_PCALA_HI20: u32 = 71;
/// Bits 0 to 11 of S + A in the 12 bits of an instruction, read as signed.
pub const R_LARCH_PCALA_LO12: u32 = 72;
/// Bits 32 to 51 of the page of S + A, less the page of P, corrected.
pub const R_LARCH_PCALA64_LO20: u32 = 73;
/// Bits 52 to 63 of the page of S + A, less the page of P, corrected.
pub const R_LARCH_PCALA64_HI12: u32 = 74;
/// Bits 12 to 31 of the page of G + GOT, less the page of P, rounded for a signed low part.
pub const R_LARCH_GOT_PC_HI20: u32 = 75;
/// Bits 0 to 11 of G + GOT in the 12 bits of an instruction, read as signed.
pub const R_LARCH_GOT_PC_LO12: u32 = 76;
/// Bits 32 to 51 of the page of G + GOT, less the page of P, corrected.
pub const R_LARCH_GOT64_PC_LO20: u32 = 77;
/// Bits 52 to 63 of the page of G + GOT, less the page of P, corrected.
pub const R_LARCH_GOT64_PC_HI12: u32 = 78;
/// Bits 12 to 31 of G + GOT in the 20 bits of an instruction.
pub const R_LARCH_GOT_HI20: u32 = 79;
/// Bits 0 to 11 of G + GOT in the 12 bits of an instruction, read as unsigned.
pub const R_LARCH_GOT_LO12: u32 = 80;
/// Bits 32 to 51 of G + GOT in the 20 bits of an instruction.
pub const R_LARCH_GOT64_LO20: u32 = 81;
/// Bits 52 to 63 of G + GOT in the 12 bits of an instruction.
pub const R_LARCH_GOT64_HI12: u32 = 82;
/// Bits 12 to 31 of S + A - TP in the 20 bits of an instruction (local exec).
pub const R_LARCH_TLS_LE_HI20: u32 = 83;
/// Bits 0 to 11 of S + A - TP in the 12 bits of an instruction (local exec).
pub const R_LARCH_TLS_LE_LO12: u32 = 84;
/// Bits 32 to 51 of S + A - TP in the 20 bits of an instruction (local exec).
pub const R_LARCH_TLS_LE64_LO20: u32 = 85;
/// Bits 52 to 63 of S + A - TP in the 12 bits of an instruction (local exec).
pub const R_LARCH_TLS_LE64_HI12: u32 = 86;
/// Bits 12 to 31 of the page of the GOT entry with S - TP, less the page of P (initial exec).
pub const R_LARCH_TLS_IE_PC_HI20: u32 = 87;
/// Bits 0 to 11 of the GOT entry with S - TP (initial exec).
pub const R_LARCH_TLS_IE_PC_LO12: u32 = 88;
/// Bits 32 to 51 of the page of the GOT entry with S - TP, less the page of P, corrected (initial exec).
pub const R_LARCH_TLS_IE64_PC_LO20: u32 = 89;
/// Bits 52 to 63 of the page of the GOT entry with S - TP, less the page of P, corrected (initial exec).
pub const R_LARCH_TLS_IE64_PC_HI12: u32 = 90;
/// Bits 12 to 31 of the address of the GOT entry with S - TP (initial exec).
pub const R_LARCH_TLS_IE_HI20: u32 = 91;
/// Bits 0 to 11 of the address of the GOT entry with S - TP (initial exec).
pub const R_LARCH_TLS_IE_LO12: u32 = 92;
/// Bits 32 to 51 of the address of the GOT entry with S - TP (initial exec).
pub const R_LARCH_TLS_IE64_LO20: u32 = 93;
/// Bits 52 to 63 of the address of the GOT entry with S - TP (initial exec).
pub const R_LARCH_TLS_IE64_HI12: u32 = 94;
/// Bits 12 to 31 of the page of this module's pair in the GOT, less the page of P.
pub const R_LARCH_TLS_LD_PC_HI20: u32 = 95;
/// Bits 12 to 31 of the address of this module's pair in the GOT (local dynamic).
pub const R_LARCH_TLS_LD_HI20: u32 = 96;
/// Bits 12 to 31 of the page of the symbol's pair in the GOT, less the page of P.
pub const R_LARCH_TLS_GD_PC_HI20: u32 = 97;
/// Bits 12 to 31 of the address of the symbol's pair in the GOT (general dynamic).
pub const R_LARCH_TLS_GD_HI20: u32 = 98;
/// S + A - P in 4 bytes, signed.
pub const R_LARCH_32_PCREL: u32 = 99;
/// Says that the linker may shorten the instructions of the relocation beside it; no field.
pub const R_LARCH_RELAX: u32 = 100;
/// Says that bytes at this place are taken out; within the linker alone.
pub const R_LARCH_DELETE: u32 = 101;
/// Says that no-operations stand here for an alignment, of which the linker drops some.
pub const R_LARCH_ALIGN: u32 = 102;
/// S + A - P in 20 bits from bit 5, signed, in words.
pub const R_LARCH_PCREL20_S2: u32 = 103;
/// Names the frame address of a function that the linker has changed; within the linker alone.
pub const R_LARCH_CFA: u32 = 104;
/// V + S + A in the low 6 bits of 1 byte.
pub const R_LARCH_ADD6: u32 = 105;
/// V - S - A in the low 6 bits of 1 byte.
pub const R_LARCH_SUB6: u32 = 106;
/// V + S + A as a ULEB128 number, in as many bytes as stand there.
pub const R_LARCH_ADD_ULEB128: u32 = 107;
/// V - S - A as a ULEB128 number, in as many bytes as stand there.
pub const R_LARCH_SUB_ULEB128: u32 = 108;
/// S + A - P in 8 bytes, signed.
pub const R_LARCH_64_PCREL: u32 = 109;
/// S + A - P in a PCADDU18I and the JIRL behind it, signed, in words, 36 bits.
pub const R_LARCH_CALL36: u32 = 110;
/// Bits 12 to 31 of the page of the symbol's TLS descriptor, less the page of P.
pub const R_LARCH_TLS_DESC_PC_HI20: u32 = 111;
/// Bits 0 to 11 of the address of the symbol's TLS descriptor.
pub const R_LARCH_TLS_DESC_PC_LO12: u32 = 112;
/// Bits 32 to 51 of the page of the symbol's TLS descriptor, less the page of P, corrected.
pub const R_LARCH_TLS_DESC64_PC_LO20: u32 = 113;
/// Bits 52 to 63 of the page of the symbol's TLS descriptor, less the page of P, corrected.
pub const R_LARCH_TLS_DESC64_PC_HI12: u32 = 114;
/// Bits 12 to 31 of the address of the symbol's TLS descriptor.
pub const R_LARCH_TLS_DESC_HI20: u32 = 115;
/// Bits 0 to 11 of the address of the symbol's TLS descriptor, by the absolute sequence.
pub const R_LARCH_TLS_DESC_LO12: u32 = 116;
/// Bits 32 to 51 of the address of the symbol's TLS descriptor.
pub const R_LARCH_TLS_DESC64_LO20: u32 = 117;
/// Bits 52 to 63 of the address of the symbol's TLS descriptor.
pub const R_LARCH_TLS_DESC64_HI12: u32 = 118;
/// Marks the load of the function out of a TLS descriptor; no field.
pub const R_LARCH_TLS_DESC_LD: u32 = 119;
/// Marks the call through a TLS descriptor; no field.
pub const R_LARCH_TLS_DESC_CALL: u32 = 120;
/// Bits 12 to 31 of S + A - TP, rounded for a signed low part; the linker may drop it.
pub const R_LARCH_TLS_LE_HI20_R: u32 = 121;
/// Marks the addition of the thread pointer, which the linker may drop; no field.
pub const R_LARCH_TLS_LE_ADD_R: u32 = 122;
/// Bits 0 to 11 of S + A - TP in the 12 bits of an instruction, signed.
pub const R_LARCH_TLS_LE_LO12_R: u32 = 123;
/// This module's pair in the GOT, less P, in 20 bits from bit 5, signed, in words.
pub const R_LARCH_TLS_LD_PCREL20_S2: u32 = 124;
/// The symbol's pair in the GOT, less P, in 20 bits from bit 5, signed, in words.
pub const R_LARCH_TLS_GD_PCREL20_S2: u32 = 125;
/// The symbol's TLS descriptor, less P, in 20 bits from bit 5, signed, in words.
pub const R_LARCH_TLS_DESC_PCREL20_S2: u32 = 126;
