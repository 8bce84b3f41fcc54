//! Relocations of the 64-bit PowerPC, by the Power Architecture "64-Bit ELF V2 ABI" ("Relocation
//! Types"). Where a relocation has the number of the 32-bit one of the same name, it is written as that
//! constant.
//!
//! In the formulas S is the symbol's value, A the addend, P the address of the field, B the address at
//! which the object is loaded, TOC the value of the TOC pointer, G the offset from it of the symbol's
//! GOT entry, M that of the GOT entry of the symbol's PLT slot, L the address of that slot, R the
//! symbol's offset in its section, TP the thread pointer, and DTP the start of the module's block of
//! thread-local data plus 0x8000. The low half of a number is its bits 0 to 15, the high half its bits 16 to 31;
//! adjusted, a part is one more where the part below it is read as negative. A DS form is a load or
//! store whose displacement has 14 bits, in words. A pair in the GOT is the module and the offset by
//! which thread-local data is found.

use crate::powerpc;

/// Nothing is filled in.
pub const R_PPC64_NONE: u32 = powerpc::R_PPC_NONE;
/// S + A in 4 bytes.
pub const R_PPC64_ADDR32: u32 = powerpc::R_PPC_ADDR32;
/// S + A in the 24 bits of a branch, signed, in words.
pub const R_PPC64_ADDR24: u32 = powerpc::R_PPC_ADDR24;
/// S + A in 2 bytes, signed.
pub const R_PPC64_ADDR16: u32 = powerpc::R_PPC_ADDR16;
/// The low half of S + A in 2 bytes.
pub const R_PPC64_ADDR16_LO: u32 = powerpc::R_PPC_ADDR16_LO;
/// The high half of S + A in 2 bytes.
pub const R_PPC64_ADDR16_HI: u32 = powerpc::R_PPC_ADDR16_HI;
/// The adjusted high half of S + A in 2 bytes.
pub const R_PPC64_ADDR16_HA: u32 = powerpc::R_PPC_ADDR16_HA;
/// S + A in the 14 bits of a branch with a condition, signed, in words.
pub const R_PPC64_ADDR14: u32 = powerpc::R_PPC_ADDR14;
/// S + A in the 14 bits of a branch that is likely taken, signed, in words.
pub const R_PPC64_ADDR14_BRTAKEN: u32 = powerpc::R_PPC_ADDR14_BRTAKEN;
/// S + A in the 14 bits of a branch that is likely not taken, signed, in words.
pub const R_PPC64_ADDR14_BRNTAKEN: u32 = powerpc::R_PPC_ADDR14_BRNTAKEN;
/// S + A - P in the 24 bits of a branch, signed, in words.
pub const R_PPC64_REL24: u32 = powerpc::R_PPC_REL24;
/// S + A - P in the 14 bits of a branch with a condition, signed, in words.
pub const R_PPC64_REL14: u32 = powerpc::R_PPC_REL14;
/// S + A - P in the 14 bits of a branch that is likely taken, signed, in words.
pub const R_PPC64_REL14_BRTAKEN: u32 = powerpc::R_PPC_REL14_BRTAKEN;
/// S + A - P in the 14 bits of a branch that is likely not taken, signed, in words.
pub const R_PPC64_REL14_BRNTAKEN: u32 = powerpc::R_PPC_REL14_BRNTAKEN;
/// G + A in 2 bytes, signed.
pub const R_PPC64_GOT16: u32 = powerpc::R_PPC_GOT16;
/// The low half of G + A in 2 bytes.
pub const R_PPC64_GOT16_LO: u32 = powerpc::R_PPC_GOT16_LO;
/// The high half of G + A in 2 bytes.
pub const R_PPC64_GOT16_HI: u32 = powerpc::R_PPC_GOT16_HI;
/// The adjusted high half of G + A in 2 bytes.
pub const R_PPC64_GOT16_HA: u32 = powerpc::R_PPC_GOT16_HA;
/// At load time the symbol's bytes are copied here out of a shared object.
pub const R_PPC64_COPY: u32 = powerpc::R_PPC_COPY;
/// S + A in 8 bytes, in an entry of the GOT.
pub const R_PPC64_GLOB_DAT: u32 = powerpc::R_PPC_GLOB_DAT;
/// The slot of a function in the PLT, filled in at load time.
pub const R_PPC64_JMP_SLOT: u32 = powerpc::R_PPC_JMP_SLOT;
/// B + A in 8 bytes, filled in at load time.
pub const R_PPC64_RELATIVE: u32 = powerpc::R_PPC_RELATIVE;
/// S + A in 4 bytes at any place.
pub const R_PPC64_UADDR32: u32 = powerpc::R_PPC_UADDR32;
/// S + A in 2 bytes at any place.
pub const R_PPC64_UADDR16: u32 = powerpc::R_PPC_UADDR16;
/// S + A - P in 4 bytes, signed.
pub const R_PPC64_REL32: u32 = powerpc::R_PPC_REL32;
/// L + A in 4 bytes.
pub const R_PPC64_PLT32: u32 = powerpc::R_PPC_PLT32;
/// L + A - P in 4 bytes, signed.
pub const R_PPC64_PLTREL32: u32 = powerpc::R_PPC_PLTREL32;
/// The low half of L + A in 2 bytes.
pub const R_PPC64_PLT16_LO: u32 = powerpc::R_PPC_PLT16_LO;
/// The high half of L + A in 2 bytes.
pub const R_PPC64_PLT16_HI: u32 = powerpc::R_PPC_PLT16_HI;
/// The adjusted high half of L + A in 2 bytes.
pub const R_PPC64_PLT16_HA: u32 = powerpc::R_PPC_PLT16_HA;
/// R + A in 2 bytes, signed.
pub const R_PPC64_SECTOFF: u32 = powerpc::R_PPC_SECTOFF;
/// The low half of R + A in 2 bytes.
pub const R_PPC64_SECTOFF_LO: u32 = powerpc::R_PPC_SECTOFF_LO;
/// The high half of R + A in 2 bytes.
pub const R_PPC64_SECTOFF_HI: u32 = powerpc::R_PPC_SECTOFF_HI;
/// The adjusted high half of R + A in 2 bytes.
pub const R_PPC64_SECTOFF_HA: u32 = powerpc::R_PPC_SECTOFF_HA;
/// S + A - P in the high 30 bits of 4 bytes, signed, in words.
pub const R_PPC64_ADDR30: u32 = powerpc::R_PPC_ADDR30;
/// S + A in 8 bytes.
pub const R_PPC64_ADDR64: u32 = 38;
/// Bits 32 to 47 of S + A in 2 bytes.
pub const R_PPC64_ADDR16_HIGHER: u32 = 39;
/// Bits 32 to 47 of S + A, adjusted, in 2 bytes.
pub const R_PPC64_ADDR16_HIGHERA: u32 = 40;
/// Bits 48 to 63 of S + A in 2 bytes.
pub const R_PPC64_ADDR16_HIGHEST: u32 = 41;
/// Bits 48 to 63 of S + A, adjusted, in 2 bytes.
pub const R_PPC64_ADDR16_HIGHESTA: u32 = 42;
/// S + A in 8 bytes at any place.
pub const R_PPC64_UADDR64: u32 = 43;
/// S + A - P in 8 bytes, signed.
pub const R_PPC64_REL64: u32 = 44;
/// L + A in 8 bytes.
pub const R_PPC64_PLT64: u32 = 45;
/// L + A - P in 8 bytes, signed.
pub const R_PPC64_PLTREL64: u32 = 46;
/// S + A - TOC in 2 bytes, signed.
pub const R_PPC64_TOC16: u32 = 47;
/// The low half of S + A - TOC in 2 bytes.
pub const R_PPC64_TOC16_LO: u32 = 48;
/// The high half of S + A - TOC in 2 bytes.
pub const R_PPC64_TOC16_HI: u32 = 49;
/// The adjusted high half of S + A - TOC in 2 bytes.
pub const R_PPC64_TOC16_HA: u32 = 50;
/// TOC in 8 bytes.
pub const R_PPC64_TOC: u32 = 51;
/// M + A in 2 bytes, signed.
pub const R_PPC64_PLTGOT16: u32 = 52;
/// The low half of M + A in 2 bytes.
pub const R_PPC64_PLTGOT16_LO: u32 = 53;
/// The high half of M + A in 2 bytes.
pub const R_PPC64_PLTGOT16_HI: u32 = 54;
/// The adjusted high half of M + A in 2 bytes.
pub const R_PPC64_PLTGOT16_HA: u32 = 55;
/// S + A in the 14 bits of a DS form, signed, in words.
pub const R_PPC64_ADDR16_DS: u32 = 56;
/// The low half of S + A in the 14 bits of a DS form, in words.
pub const R_PPC64_ADDR16_LO_DS: u32 = 57;
/// G + A in the 14 bits of a DS form, signed, in words.
pub const R_PPC64_GOT16_DS: u32 = 58;
/// The low half of G + A in the 14 bits of a DS form, in words.
pub const R_PPC64_GOT16_LO_DS: u32 = 59;
/// The low half of L + A in the 14 bits of a DS form, in words.
pub const R_PPC64_PLT16_LO_DS: u32 = 60;
/// R + A in the 14 bits of a DS form, signed, in words.
pub const R_PPC64_SECTOFF_DS: u32 = 61;
/// The low half of R + A in the 14 bits of a DS form, in words.
pub const R_PPC64_SECTOFF_LO_DS: u32 = 62;
/// S + A - TOC in the 14 bits of a DS form, signed, in words.
pub const R_PPC64_TOC16_DS: u32 = 63;
/// The low half of S + A - TOC in the 14 bits of a DS form, in words.
pub const R_PPC64_TOC16_LO_DS: u32 = 64;
/// M + A in the 14 bits of a DS form, signed, in words.
pub const R_PPC64_PLTGOT16_DS: u32 = 65;
/// The low half of M + A in the 14 bits of a DS form, in words.
pub const R_PPC64_PLTGOT16_LO_DS: u32 = 66;
/// Marks the addition of the thread pointer (initial exec); no field.
pub const R_PPC64_TLS: u32 = 67;
/// The number of the module that defines the symbol, in 8 bytes, filled in at load time.
pub const R_PPC64_DTPMOD64: u32 = 68;
/// S + A - TP in 2 bytes, signed.
pub const R_PPC64_TPREL16: u32 = 69;
/// The low half of S + A - TP in 2 bytes.
pub const R_PPC64_TPREL16_LO: u32 = 70;
/// The high half of S + A - TP in 2 bytes.
pub const R_PPC64_TPREL16_HI: u32 = 71;
/// The adjusted high half of S + A - TP in 2 bytes.
pub const R_PPC64_TPREL16_HA: u32 = 72;
/// S + A - TP in 8 bytes, signed.
pub const R_PPC64_TPREL64: u32 = 73;
/// S + A - DTP in 2 bytes, signed.
pub const R_PPC64_DTPREL16: u32 = 74;
/// The low half of S + A - DTP in 2 bytes.
pub const R_PPC64_DTPREL16_LO: u32 = 75;
/// The high half of S + A - DTP in 2 bytes.
pub const R_PPC64_DTPREL16_HI: u32 = 76;
/// The adjusted high half of S + A - DTP in 2 bytes.
pub const R_PPC64_DTPREL16_HA: u32 = 77;
/// S + A - DTP in 8 bytes, signed.
pub const R_PPC64_DTPREL64: u32 = 78;
/// The offset of the symbol's pair in the GOT in 2 bytes, signed.
pub const R_PPC64_GOT_TLSGD16: u32 = 79;
/// The low half of the offset of the symbol's pair in the GOT in 2 bytes.
pub const R_PPC64_GOT_TLSGD16_LO: u32 = 80;
/// The high half of the offset of the symbol's pair in the GOT in 2 bytes.
pub const R_PPC64_GOT_TLSGD16_HI: u32 = 81;
/// The adjusted high half of the offset of the symbol's pair in the GOT in 2 bytes.
pub const R_PPC64_GOT_TLSGD16_HA: u32 = 82;
/// The offset of this module's pair in the GOT in 2 bytes, signed.
pub const R_PPC64_GOT_TLSLD16: u32 = 83;
/// The low half of the offset of this module's pair in the GOT in 2 bytes.
pub const R_PPC64_GOT_TLSLD16_LO: u32 = 84;
/// The high half of the offset of this module's pair in the GOT in 2 bytes.
pub const R_PPC64_GOT_TLSLD16_HI: u32 = 85;
/// The adjusted high half of the offset of this module's pair in the GOT in 2 bytes.
pub const R_PPC64_GOT_TLSLD16_HA: u32 = 86;
/// The offset of the GOT entry with S - TP in the 14 bits of a DS form, signed, in words.
pub const R_PPC64_GOT_TPREL16_DS: u32 = 87;
/// The low half of the offset of the GOT entry with S - TP in the 14 bits of a DS form, in words.
pub const R_PPC64_GOT_TPREL16_LO_DS: u32 = 88;
/// The high half of the offset of the GOT entry with S - TP in 2 bytes.
pub const R_PPC64_GOT_TPREL16_HI: u32 = 89;
/// The adjusted high half of the offset of the GOT entry with S - TP in 2 bytes.
pub const R_PPC64_GOT_TPREL16_HA: u32 = 90;
/// The offset of the GOT entry with S - DTP in the 14 bits of a DS form, signed, in words.
pub const R_PPC64_GOT_DTPREL16_DS: u32 = 91;
/// The low half of the offset of the GOT entry with S - DTP in the 14 bits of a DS form, in words.
pub const R_PPC64_GOT_DTPREL16_LO_DS: u32 = 92;
/// The high half of the offset of the GOT entry with S - DTP in 2 bytes.
pub const R_PPC64_GOT_DTPREL16_HI: u32 = 93;
/// The adjusted high half of the offset of the GOT entry with S - DTP in 2 bytes.
pub const R_PPC64_GOT_DTPREL16_HA: u32 = 94;
/// S + A - TP in the 14 bits of a DS form, signed, in words.
pub const R_PPC64_TPREL16_DS: u32 = 95;
/// The low half of S + A - TP in the 14 bits of a DS form, in words.
pub const R_PPC64_TPREL16_LO_DS: u32 = 96;
/// Bits 32 to 47 of S + A - TP in 2 bytes.
pub const R_PPC64_TPREL16_HIGHER: u32 = 97;
/// Bits 32 to 47 of S + A - TP, adjusted, in 2 bytes.
pub const R_PPC64_TPREL16_HIGHERA: u32 = 98;
/// Bits 48 to 63 of S + A - TP in 2 bytes.
pub const R_PPC64_TPREL16_HIGHEST: u32 = 99;
/// Bits 48 to 63 of S + A - TP, adjusted, in 2 bytes.
pub const R_PPC64_TPREL16_HIGHESTA: u32 = 100;
/// S + A - DTP in the 14 bits of a DS form, signed, in words.
pub const R_PPC64_DTPREL16_DS: u32 = 101;
/// The low half of S + A - DTP in the 14 bits of a DS form, in words.
pub const R_PPC64_DTPREL16_LO_DS: u32 = 102;
/// Bits 32 to 47 of S + A - DTP in 2 bytes.
pub const R_PPC64_DTPREL16_HIGHER: u32 = 103;
/// Bits 32 to 47 of S + A - DTP, adjusted, in 2 bytes.
pub const R_PPC64_DTPREL16_HIGHERA: u32 = 104;
/// Bits 48 to 63 of S + A - DTP in 2 bytes.
pub const R_PPC64_DTPREL16_HIGHEST: u32 = 105;
/// Bits 48 to 63 of S + A - DTP, adjusted, in 2 bytes.
pub const R_PPC64_DTPREL16_HIGHESTA: u32 = 106;
/// Marks the call that finds an address of thread-local data (general dynamic); no field.
pub const R_PPC64_TLSGD: u32 = 107;
/// Marks the call that finds this module's thread-local data (local dynamic); no field.
pub const R_PPC64_TLSLD: u32 = 108;
/// Marks where a function may save its TOC pointer; no field.
pub const R_PPC64_TOCSAVE: u32 = 109;
/// The high half of S + A in 2 bytes, not checked.
pub const R_PPC64_ADDR16_HIGH: u32 = 110;
/// The adjusted high half of S + A in 2 bytes, not checked.
pub const R_PPC64_ADDR16_HIGHA: u32 = 111;
/// The high half of S + A - TP in 2 bytes, not checked.
pub const R_PPC64_TPREL16_HIGH: u32 = 112;
/// The adjusted high half of S + A - TP in 2 bytes, not checked.
pub const R_PPC64_TPREL16_HIGHA: u32 = 113;
/// The high half of S + A - DTP in 2 bytes, not checked.
pub const R_PPC64_DTPREL16_HIGH: u32 = 114;
/// The adjusted high half of S + A - DTP in 2 bytes, not checked.
pub const R_PPC64_DTPREL16_HIGHA: u32 = 115;
/// S + A - P in the 24 bits of a call, signed, in words; the caller keeps no TOC pointer.
pub const R_PPC64_REL24_NOTOC: u32 = 116;
/// The local entry of the function S, plus A, in 8 bytes.
pub const R_PPC64_ADDR64_LOCAL: u32 = 117;
/// Marks the start of a function whose making of the TOC pointer the linker may change.
pub const R_PPC64_ENTRY: u32 = 118;
/// S + A - P in the 34 bits of an instruction with a prefix, signed.
pub const R_PPC64_PCREL34: u32 = 132;
/// The symbol's GOT entry, plus A, less P, in the 34 bits of an instruction with a prefix.
pub const R_PPC64_GOT_PCREL34: u32 = 133;
/// What the function at B + A returns, in 8 bytes, filled in at load time.
pub const R_PPC64_IRELATIVE: u32 = 248;
/// S + A - P in 2 bytes, signed.
pub const R_PPC64_REL16: u32 = powerpc::R_PPC_REL16;
/// The low half of S + A - P in 2 bytes.
pub const R_PPC64_REL16_LO: u32 = powerpc::R_PPC_REL16_LO;
/// The high half of S + A - P in 2 bytes.
pub const R_PPC64_REL16_HI: u32 = powerpc::R_PPC_REL16_HI;
/// The adjusted high half of S + A - P in 2 bytes.
pub const R_PPC64_REL16_HA: u32 = powerpc::R_PPC_REL16_HA;
/// Marks a table of virtual functions and the one that it extends; no field.
pub const R_PPC64_GNU_VTINHERIT: u32 = 253;
/// Marks the use of an entry of a table of virtual functions; no field.
pub const R_PPC64_GNU_VTENTRY: u32 = 254;
