//! Relocations of the 32-bit PowerPC, by the System V ABI's PowerPC supplement ("Relocation Types"),
//! its embedded supplement (`EMB`, `DIAB`, `VLE`) and the supplement for thread-local data.
//!
//! In the formulas S is the symbol's value, A the addend, P the address of the field, B the address at
//! which the object is loaded, G the offset of the symbol's entry in the global offset table (GOT), L
//! the address of the symbol's slot in the procedure linkage table (PLT), R the symbol's offset in its
//! section, SDA and SDA2 the bases of the small data areas, TP the thread pointer, and DTP the start of
//! the module's block of thread-local data plus 0x8000. The low half of a number is its bits 0 to 15, the high half
//! its bits 16 to 31; adjusted, it is one more where bit 15 is set, as the low half is read as signed.
//! A pair in the GOT is the module and the offset by which thread-local data is found. The base of a
//! symbol is that of its small data area, and a register of its own keeps it.

/// Nothing is filled in.
pub const R_PPC_NONE: u32 = 0;
/// S + A in 4 bytes.
pub const R_PPC_ADDR32: u32 = 1;
/// S + A in the 24 bits of a branch, signed, in words.
pub const R_PPC_ADDR24: u32 = 2;
/// S + A in 2 bytes, signed.
pub const R_PPC_ADDR16: u32 = 3;
/// The low half of S + A in 2 bytes.
pub const R_PPC_ADDR16_LO: u32 = 4;
/// The high half of S + A in 2 bytes.
pub const R_PPC_ADDR16_HI: u32 = 5;
/// The adjusted high half of S + A in 2 bytes.
pub const R_PPC_ADDR16_HA: u32 = 6;
/// S + A in the 14 bits of a branch with a condition, signed, in words.
pub const R_PPC_ADDR14: u32 = 7;
/// S + A in the 14 bits of a branch that is likely taken, signed, in words.
pub const R_PPC_ADDR14_BRTAKEN: u32 = 8;
/// S + A in the 14 bits of a branch that is likely not taken, signed, in words.
pub const R_PPC_ADDR14_BRNTAKEN: u32 = 9;
/// S + A - P in the 24 bits of a branch, signed, in words.
pub const R_PPC_REL24: u32 = 10;
/// S + A - P in the 14 bits of a branch with a condition, signed, in words.
pub const R_PPC_REL14: u32 = 11;
/// S + A - P in the 14 bits of a branch that is likely taken, signed, in words.
pub const R_PPC_REL14_BRTAKEN: u32 = 12;
/// S + A - P in the 14 bits of a branch that is likely not taken, signed, in words.
pub const R_PPC_REL14_BRNTAKEN: u32 = 13;
/// G + A in 2 bytes, signed.
pub const R_PPC_GOT16: u32 = 14;
/// The low half of G + A in 2 bytes.
pub const R_PPC_GOT16_LO: u32 = 15;
/// The high half of G + A in 2 bytes.
pub const R_PPC_GOT16_HI: u32 = 16;
/// The adjusted high half of G + A in 2 bytes.
pub const R_PPC_GOT16_HA: u32 = 17;
/// L + A - P in the 24 bits of a branch, signed, in words.
pub const R_PPC_PLTREL24: u32 = 18;
/// At load time the symbol's bytes are copied here out of a shared object.
pub const R_PPC_COPY: u32 = 19;
/// S + A in 4 bytes, in an entry of the GOT.
pub const R_PPC_GLOB_DAT: u32 = 20;
/// The slot of a function in the PLT, filled in at load time.
pub const R_PPC_JMP_SLOT: u32 = 21;
/// B + A in 4 bytes, filled in at load time.
pub const R_PPC_RELATIVE: u32 = 22;
/// S + A - P in the 24 bits of a branch, signed, in words; the symbol is in the same object.
pub const R_PPC_LOCAL24PC: u32 = 23;
/// S + A in 4 bytes at any place.
pub const R_PPC_UADDR32: u32 = 24;
/// S + A in 2 bytes at any place.
pub const R_PPC_UADDR16: u32 = 25;
/// S + A - P in 4 bytes, signed.
pub const R_PPC_REL32: u32 = 26;
/// L + A in 4 bytes.
pub const R_PPC_PLT32: u32 = 27;
/// L + A - P in 4 bytes, signed.
pub const R_PPC_PLTREL32: u32 = 28;
/// The low half of L + A in 2 bytes.
pub const R_PPC_PLT16_LO: u32 = 29;
/// The high half of L + A in 2 bytes.
pub const R_PPC_PLT16_HI: u32 = 30;
/// The adjusted high half of L + A in 2 bytes.
pub const R_PPC_PLT16_HA: u32 = 31;
/// S + A - SDA in 2 bytes, signed.
pub const R_PPC_SDAREL16: u32 = 32;
/// R + A in 2 bytes, signed.
pub const R_PPC_SECTOFF: u32 = 33;
/// The low half of R + A in 2 bytes.
pub const R_PPC_SECTOFF_LO: u32 = 34;
/// The high half of R + A in 2 bytes.
pub const R_PPC_SECTOFF_HI: u32 = 35;
/// The adjusted high half of R + A in 2 bytes.
pub const R_PPC_SECTOFF_HA: u32 = 36;
/// S + A - P in the high 30 bits of 4 bytes, signed, in words.
pub const R_PPC_ADDR30: u32 = 37;
/// Marks the addition of the thread pointer (initial exec); no field.
pub const R_PPC_TLS: u32 = 67;
/// The number of the module that defines the symbol, in 4 bytes, filled in at load time.
pub const R_PPC_DTPMOD32: u32 = 68;
/// S + A - TP in 2 bytes, signed.
pub const R_PPC_TPREL16: u32 = 69;
/// The low half of S + A - TP in 2 bytes.
pub const R_PPC_TPREL16_LO: u32 = 70;
/// The high half of S + A - TP in 2 bytes.
pub const R_PPC_TPREL16_HI: u32 = 71;
/// The adjusted high half of S + A - TP in 2 bytes.
pub const R_PPC_TPREL16_HA: u32 = 72;
/// S + A - TP in 4 bytes, signed.
pub const R_PPC_TPREL32: u32 = 73;
/// S + A - DTP in 2 bytes, signed.
pub const R_PPC_DTPREL16: u32 = 74;
/// The low half of S + A - DTP in 2 bytes.
pub const R_PPC_DTPREL16_LO: u32 = 75;
/// The high half of S + A - DTP in 2 bytes.
pub const R_PPC_DTPREL16_HI: u32 = 76;
/// The adjusted high half of S + A - DTP in 2 bytes.
pub const R_PPC_DTPREL16_HA: u32 = 77;
/// S + A - DTP in 4 bytes, signed.
pub const R_PPC_DTPREL32: u32 = 78;
/// The offset of the symbol's pair in the GOT in 2 bytes, signed.
pub const R_PPC_GOT_TLSGD16: u32 = 79;
/// The low half of the offset of the symbol's pair in the GOT in 2 bytes.
pub const R_PPC_GOT_TLSGD16_LO: u32 = 80;
/// The high half of the offset of the symbol's pair in the GOT in 2 bytes.
pub const R_PPC_GOT_TLSGD16_HI: u32 = 81;
/// The adjusted high half of the offset of the symbol's pair in the GOT in 2 bytes.
pub const R_PPC_GOT_TLSGD16_HA: u32 = 82;
/// The offset of this module's pair in the GOT in 2 bytes, signed.
pub const R_PPC_GOT_TLSLD16: u32 = 83;
/// The low half of the offset of this module's pair in the GOT in 2 bytes.
pub const R_PPC_GOT_TLSLD16_LO: u32 = 84;
/// The high half of the offset of this module's pair in the GOT in 2 bytes.
pub const R_PPC_GOT_TLSLD16_HI: u32 = 85;
/// The adjusted high half of the offset of this module's pair in the GOT in 2 bytes.
pub const R_PPC_GOT_TLSLD16_HA: u32 = 86;
/// The offset of the GOT entry with S - TP in 2 bytes, signed.
pub const R_PPC_GOT_TPREL16: u32 = 87;
/// The low half of the offset of the GOT entry with S - TP in 2 bytes.
pub const R_PPC_GOT_TPREL16_LO: u32 = 88;
/// The high half of the offset of the GOT entry with S - TP in 2 bytes.
pub const R_PPC_GOT_TPREL16_HI: u32 = 89;
/// The adjusted high half of the offset of the GOT entry with S - TP in 2 bytes.
pub const R_PPC_GOT_TPREL16_HA: u32 = 90;
/// The offset of the GOT entry with S - DTP in 2 bytes, signed.
pub const R_PPC_GOT_DTPREL16: u32 = 91;
/// The low half of the offset of the GOT entry with S - DTP in 2 bytes.
pub const R_PPC_GOT_DTPREL16_LO: u32 = 92;
/// The high half of the offset of the GOT entry with S - DTP in 2 bytes.
pub const R_PPC_GOT_DTPREL16_HI: u32 = 93;
/// The adjusted high half of the offset of the GOT entry with S - DTP in 2 bytes.
pub const R_PPC_GOT_DTPREL16_HA: u32 = 94;
/// A - S in 4 bytes.
pub const R_PPC_EMB_NADDR32: u32 = 101;
/// A - S in 2 bytes, signed.
pub const R_PPC_EMB_NADDR16: u32 = 102;
/// The low half of A - S in 2 bytes.
pub const R_PPC_EMB_NADDR16_LO: u32 = 103;
/// The high half of A - S in 2 bytes.
pub const R_PPC_EMB_NADDR16_HI: u32 = 104;
/// The adjusted high half of A - S in 2 bytes.
pub const R_PPC_EMB_NADDR16_HA: u32 = 105;
/// The offset from SDA of a word that keeps S + A, in 2 bytes, signed.
pub const R_PPC_EMB_SDA_I16: u32 = 106;
/// The offset from SDA2 of a word that keeps S + A, in 2 bytes, signed.
pub const R_PPC_EMB_SDA2_I16: u32 = 107;
/// S + A - SDA2 in 2 bytes, signed.
pub const R_PPC_EMB_SDA2REL: u32 = 108;
/// S + A less its base in 16 bits, signed, and the base's register in the 5 bits before.
pub const R_PPC_EMB_SDA21: u32 = 109;
/// Marks that the symbol is used; no field.
pub const R_PPC_EMB_MRKREF: u32 = 110;
/// S + A less the start of its section, in 2 bytes, signed.
pub const R_PPC_EMB_RELSEC16: u32 = 111;
/// The low half of a number that the embedded supplement defines, in 2 bytes.
pub const R_PPC_EMB_RELST_LO: u32 = 112;
/// The high half of that number, in 2 bytes.
pub const R_PPC_EMB_RELST_HI: u32 = 113;
/// The adjusted high half of that number, in 2 bytes.
pub const R_PPC_EMB_RELST_HA: u32 = 114;
/// S in a range of bits of a word, which the addend gives by place and width.
pub const R_PPC_EMB_BIT_FLD: u32 = 115;
/// S + A less the base of its small data area, in 2 bytes, signed.
pub const R_PPC_EMB_RELSDA: u32 = 116;
/// The number 120 of embedded processors, to which no field is given.
pub const R_PPC_EMB_RELOC_120: u32 = 120;
/// The number 121 of embedded processors, to which no field is given.
pub const R_PPC_EMB_RELOC_121: u32 = 121;
/// The low half of S + A less its base in 16 bits, and the base's register.
pub const R_PPC_DIAB_SDA21_LO: u32 = 180;
/// The high half of S + A less its base in 16 bits, and the base's register.
pub const R_PPC_DIAB_SDA21_HI: u32 = 181;
/// The adjusted high half of S + A less its base in 16 bits, and the base's register.
pub const R_PPC_DIAB_SDA21_HA: u32 = 182;
/// The low half of S + A less the base of its small data area, in 2 bytes.
pub const R_PPC_DIAB_RELSDA_LO: u32 = 183;
/// The high half of S + A less the base of its small data area, in 2 bytes.
pub const R_PPC_DIAB_RELSDA_HI: u32 = 184;
/// The adjusted high half of S + A less the base of its small data area, in 2 bytes.
pub const R_PPC_DIAB_RELSDA_HA: u32 = 185;
/// S + A in the 5 bits of a vector load or store, in units of 8 bytes.
pub const R_PPC_EMB_SPE_DOUBLE: u32 = 201;
/// S + A in the 5 bits of a vector load or store, in units of 4 bytes.
pub const R_PPC_EMB_SPE_WORD: u32 = 202;
/// S + A in the 5 bits of a vector load or store, in units of 2 bytes.
pub const R_PPC_EMB_SPE_HALF: u32 = 203;
/// S + A - SDA in the 5 bits of a vector load or store, in units of 8 bytes.
pub const R_PPC_EMB_SPE_DOUBLE_SDAREL: u32 = 204;
/// S + A - SDA in the 5 bits of a vector load or store, in units of 4 bytes.
pub const R_PPC_EMB_SPE_WORD_SDAREL: u32 = 205;
/// S + A - SDA in the 5 bits of a vector load or store, in units of 2 bytes.
pub const R_PPC_EMB_SPE_HALF_SDAREL: u32 = 206;
/// S + A - SDA2 in the 5 bits of a vector load or store, in units of 8 bytes.
pub const R_PPC_EMB_SPE_DOUBLE_SDA2REL: u32 = 207;
/// S + A - SDA2 in the 5 bits of a vector load or store, in units of 4 bytes.
pub const R_PPC_EMB_SPE_WORD_SDA2REL: u32 = 208;
/// S + A - SDA2 in the 5 bits of a vector load or store, in units of 2 bytes.
pub const R_PPC_EMB_SPE_HALF_SDA2REL: u32 = 209;
/// S + A, from address 0, in the 5 bits of a vector load or store, in units of 8 bytes.
pub const R_PPC_EMB_SPE_DOUBLE_SDA0REL: u32 = 210;
/// S + A, from address 0, in the 5 bits of a vector load or store, in units of 4 bytes.
pub const R_PPC_EMB_SPE_WORD_SDA0REL: u32 = 211;
/// S + A, from address 0, in the 5 bits of a vector load or store, in units of 2 bytes.
pub const R_PPC_EMB_SPE_HALF_SDA0REL: u32 = 212;
/// S + A less its base in 5 bits, in units of 8 bytes, and the base's register, for vectors.
pub const R_PPC_EMB_SPE_DOUBLE_SDA: u32 = 213;
/// S + A less its base in 5 bits, in units of 4 bytes, and the base's register, for vectors.
pub const R_PPC_EMB_SPE_WORD_SDA: u32 = 214;
/// S + A less its base in 5 bits, in units of 2 bytes, and the base's register, for vectors.
pub const R_PPC_EMB_SPE_HALF_SDA: u32 = 215;
/// S + A - P in the 8 bits of a short branch, signed, in units of 2 bytes.
pub const R_PPC_VLE_REL8: u32 = 216;
/// S + A - P in the 15 bits of a branch with a condition, signed, in units of 2 bytes.
pub const R_PPC_VLE_REL15: u32 = 217;
/// S + A - P in the 24 bits of a branch, signed, in units of 2 bytes.
pub const R_PPC_VLE_REL24: u32 = 218;
/// The low half of S + A, split in 5 and 11 bits (form 16A).
pub const R_PPC_VLE_LO16A: u32 = 219;
/// The low half of S + A, split in 5 and 11 bits (form 16D).
pub const R_PPC_VLE_LO16D: u32 = 220;
/// The high half of S + A, split in 5 and 11 bits (form 16A).
pub const R_PPC_VLE_HI16A: u32 = 221;
/// The high half of S + A, split in 5 and 11 bits (form 16D).
pub const R_PPC_VLE_HI16D: u32 = 222;
/// The adjusted high half of S + A, split in 5 and 11 bits (form 16A).
pub const R_PPC_VLE_HA16A: u32 = 223;
/// The adjusted high half of S + A, split in 5 and 11 bits (form 16D).
pub const R_PPC_VLE_HA16D: u32 = 224;
/// S + A less its base in 16 bits, signed, and the base's register, in an e_add16i.
pub const R_PPC_VLE_SDA21: u32 = 225;
/// The low half of S + A less its base, and the base's register, in an e_add16i.
pub const R_PPC_VLE_SDA21_LO: u32 = 226;
/// The low half of S + A - SDA, split in 5 and 11 bits (form 16A).
pub const R_PPC_VLE_SDAREL_LO16A: u32 = 227;
/// The low half of S + A - SDA, split in 5 and 11 bits (form 16D).
pub const R_PPC_VLE_SDAREL_LO16D: u32 = 228;
/// The high half of S + A - SDA, split in 5 and 11 bits (form 16A).
pub const R_PPC_VLE_SDAREL_HI16A: u32 = 229;
/// The high half of S + A - SDA, split in 5 and 11 bits (form 16D).
pub const R_PPC_VLE_SDAREL_HI16D: u32 = 230;
/// The adjusted high half of S + A - SDA, split in 5 and 11 bits (form 16A).
pub const R_PPC_VLE_SDAREL_HA16A: u32 = 231;
/// The adjusted high half of S + A - SDA, split in 5 and 11 bits (form 16D).
pub const R_PPC_VLE_SDAREL_HA16D: u32 = 232;
/// S + A in the 20 bits of an e_li, signed.
pub const R_PPC_VLE_ADDR20: u32 = 233;
/// S + A - P in 2 bytes, signed.
pub const R_PPC_REL16: u32 = 249;
/// The low half of S + A - P in 2 bytes.
pub const R_PPC_REL16_LO: u32 = 250;
/// The high half of S + A - P in 2 bytes.
pub const R_PPC_REL16_HI: u32 = 251;
/// The adjusted high half of S + A - P in 2 bytes.
pub const R_PPC_REL16_HA: u32 = 252;
