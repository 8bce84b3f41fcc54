//! Relocations of the Arm 64-bit architecture, by "ELF for the Arm 64-bit Architecture" ("Relocation").
//!
//! In the formulas S is the symbol's value, A the addend, P the address of the field, B the address at
//! which the object is loaded, GOT the address of the global offset table, TP the thread pointer, and
//! DTP the start of the module's block of thread-local data. Page(x) is x with its low 12 bits cleared.
//! G(x) is the address of the GOT entry that keeps x: of the symbol's pair of module and offset for
//! `pair`, of this module's pair for `module`, of the symbol's TLS descriptor for `descriptor`. Unless
//! it says "not checked", the linker refuses a value that the field doesn't hold.

/// Nothing is filled in.
pub const R_AARCH64_NONE: u32 = 0;
/// S + A in 4 bytes, where addresses have 4 (ILP32).
pub const R_AARCH64_P32_ABS32: u32 = 1;
/// At load time the symbol's bytes are copied here out of a shared object (ILP32).
pub const R_AARCH64_P32_COPY: u32 = 180;
/// S + A in 4 bytes, in an entry of the GOT (ILP32).
pub const R_AARCH64_P32_GLOB_DAT: u32 = 181;
/// S + A in 4 bytes, in the GOT entry that a PLT slot jumps through (ILP32).
pub const R_AARCH64_P32_JUMP_SLOT: u32 = 182;
/// B + A in 4 bytes, filled in at load time (ILP32).
pub const R_AARCH64_P32_RELATIVE: u32 = 183;
/// The number of the module that defines the symbol, in 4 bytes, filled in at load time (ILP32).
pub const R_AARCH64_P32_TLS_DTPMOD: u32 = 184;
/// S + A - DTP in 4 bytes, signed, filled in at load time (ILP32).
pub const R_AARCH64_P32_TLS_DTPREL: u32 = 185;
/// S + A - TP in 4 bytes, signed, filled in at load time (ILP32).
pub const R_AARCH64_P32_TLS_TPREL: u32 = 186;
/// A TLS descriptor of two words of 4 bytes, filled in at load time (ILP32).
pub const R_AARCH64_P32_TLSDESC: u32 = 187;
/// What the function at B + A returns, in 4 bytes, filled in at load time (ILP32).
pub const R_AARCH64_P32_IRELATIVE: u32 = 188;
/// S + A in 8 bytes.
pub const R_AARCH64_ABS64: u32 = 257;
/// S + A in 4 bytes, signed or unsigned.
pub const R_AARCH64_ABS32: u32 = 258;
/// S + A in 2 bytes, signed or unsigned.
pub const R_AARCH64_ABS16: u32 = 259;
/// S + A - P in 8 bytes, signed.
pub const R_AARCH64_PREL64: u32 = 260;
/// S + A - P in 4 bytes, signed or unsigned.
pub const R_AARCH64_PREL32: u32 = 261;
/// S + A - P in 2 bytes, signed or unsigned.
pub const R_AARCH64_PREL16: u32 = 262;
/// Bits 0 to 15 of S + A in a MOVZ, unsigned.
pub const R_AARCH64_MOVW_UABS_G0: u32 = 263;
/// Bits 0 to 15 of S + A in a MOVK, not checked.
pub const R_AARCH64_MOVW_UABS_G0_NC: u32 = 264;
/// Bits 16 to 31 of S + A in a MOVZ, unsigned.
pub const R_AARCH64_MOVW_UABS_G1: u32 = 265;
/// Bits 16 to 31 of S + A in a MOVK, not checked.
pub const R_AARCH64_MOVW_UABS_G1_NC: u32 = 266;
/// Bits 32 to 47 of S + A in a MOVZ, unsigned.
pub const R_AARCH64_MOVW_UABS_G2: u32 = 267;
/// Bits 32 to 47 of S + A in a MOVK, not checked.
pub const R_AARCH64_MOVW_UABS_G2_NC: u32 = 268;
/// Bits 48 to 63 of S + A in a MOVZ or MOVK.
pub const R_AARCH64_MOVW_UABS_G3: u32 = 269;
/// Bits 0 to 15 of S + A in a MOVN or MOVZ, signed.
pub const R_AARCH64_MOVW_SABS_G0: u32 = 270;
/// Bits 16 to 31 of S + A in a MOVN or MOVZ, signed.
pub const R_AARCH64_MOVW_SABS_G1: u32 = 271;
/// Bits 32 to 47 of S + A in a MOVN or MOVZ, signed.
pub const R_AARCH64_MOVW_SABS_G2: u32 = 272;
/// Bits 2 to 20 of S + A - P in a load of a literal, signed.
pub const R_AARCH64_LD_PREL_LO19: u32 = 273;
/// Bits 0 to 20 of S + A - P in an ADR, signed.
pub const R_AARCH64_ADR_PREL_LO21: u32 = 274;
/// Bits 12 to 32 of Page(S + A) - Page(P) in an ADRP, signed.
pub const R_AARCH64_ADR_PREL_PG_HI21: u32 = 275;
/// Bits 12 to 32 of Page(S + A) - Page(P) in an ADRP, not checked.
pub const R_AARCH64_ADR_PREL_PG_HI21_NC: u32 = 276;
/// Bits 0 to 11 of S + A in an ADD, not checked.
pub const R_AARCH64_ADD_ABS_LO12_NC: u32 = 277;
/// Bits 0 to 11 of S + A in a load or store of 1 byte, not checked.
pub const R_AARCH64_LDST8_ABS_LO12_NC: u32 = 278;
/// Bits 2 to 15 of S + A - P in a TBZ or TBNZ, signed.
pub const R_AARCH64_TSTBR14: u32 = 279;
/// Bits 2 to 20 of S + A - P in a branch with a condition, signed.
pub const R_AARCH64_CONDBR19: u32 = 280;
/// Bits 2 to 27 of S + A - P in a B, signed.
pub const R_AARCH64_JUMP26: u32 = 282;
/// Bits 2 to 27 of S + A - P in a BL, signed.
pub const R_AARCH64_CALL26: u32 = 283;
/// Bits 1 to 11 of S + A in a load or store of 2 bytes, not checked.
pub const R_AARCH64_LDST16_ABS_LO12_NC: u32 = 284;
/// Bits 2 to 11 of S + A in a load or store of 4 bytes, not checked.
pub const R_AARCH64_LDST32_ABS_LO12_NC: u32 = 285;
/// Bits 3 to 11 of S + A in a load or store of 8 bytes, not checked.
pub const R_AARCH64_LDST64_ABS_LO12_NC: u32 = 286;
/// Bits 0 to 15 of S + A - P in a MOVN or MOVZ, signed.
pub const R_AARCH64_MOVW_PREL_G0: u32 = 287;
/// Bits 0 to 15 of S + A - P in a MOVK, not checked.
pub const R_AARCH64_MOVW_PREL_G0_NC: u32 = 288;
/// Bits 16 to 31 of S + A - P in a MOVN or MOVZ, signed.
pub const R_AARCH64_MOVW_PREL_G1: u32 = 289;
/// Bits 16 to 31 of S + A - P in a MOVK, not checked.
pub const R_AARCH64_MOVW_PREL_G1_NC: u32 = 290;
/// Bits 32 to 47 of S + A - P in a MOVN or MOVZ, signed.
pub const R_AARCH64_MOVW_PREL_G2: u32 = 291;
/// Bits 32 to 47 of S + A - P in a MOVK, not checked.
pub const R_AARCH64_MOVW_PREL_G2_NC: u32 = 292;
/// Bits 48 to 63 of S + A - P in a MOVN or MOVZ, signed.
pub const R_AARCH64_MOVW_PREL_G3: u32 = 293;
/// Bits 4 to 11 of S + A in a load or store of 16 bytes, not checked.
pub const R_AARCH64_LDST128_ABS_LO12_NC: u32 = 299;
/// Bits 0 to 15 of G(S + A) - GOT in a MOVN or MOVZ, signed.
pub const R_AARCH64_MOVW_GOTOFF_G0: u32 = 300;
/// Bits 0 to 15 of G(S + A) - GOT in a MOVK, not checked.
pub const R_AARCH64_MOVW_GOTOFF_G0_NC: u32 = 301;
/// Bits 16 to 31 of G(S + A) - GOT in a MOVN or MOVZ, signed.
pub const R_AARCH64_MOVW_GOTOFF_G1: u32 = 302;
/// Bits 16 to 31 of G(S + A) - GOT in a MOVK, not checked.
pub const R_AARCH64_MOVW_GOTOFF_G1_NC: u32 = 303;
/// Bits 32 to 47 of G(S + A) - GOT in a MOVN or MOVZ, signed.
pub const R_AARCH64_MOVW_GOTOFF_G2: u32 = 304;
/// Bits 32 to 47 of G(S + A) - GOT in a MOVK, not checked.
pub const R_AARCH64_MOVW_GOTOFF_G2_NC: u32 = 305;
/// Bits 48 to 63 of G(S + A) - GOT in a MOVN or MOVZ, signed.
pub const R_AARCH64_MOVW_GOTOFF_G3: u32 = 306;
/// S + A - GOT in 8 bytes, signed.
pub const R_AARCH64_GOTREL64: u32 = 307;
/// S + A - GOT in 4 bytes, signed.
pub const R_AARCH64_GOTREL32: u32 = 308;
/// Bits 2 to 20 of G(S + A) - P in a load of a literal, signed.
pub const R_AARCH64_GOT_LD_PREL19: u32 = 309;
/// Bits 3 to 14 of G(S + A) - GOT in a load or store of 8 bytes, unsigned.
pub const R_AARCH64_LD64_GOTOFF_LO15: u32 = 310;
/// Bits 12 to 32 of Page(G(S + A)) - Page(P) in an ADRP, signed.
pub const R_AARCH64_ADR_GOT_PAGE: u32 = 311;
/// Bits 3 to 11 of G(S + A) in a load or store of 8 bytes, not checked.
pub const R_AARCH64_LD64_GOT_LO12_NC: u32 = 312;
/// Bits 3 to 14 of G(S + A) - Page(GOT) in a load or store of 8 bytes, unsigned.
pub const R_AARCH64_LD64_GOTPAGE_LO15: u32 = 313;
/// Bits 0 to 20 of G(pair) - P in an ADR, signed (general dynamic).
pub const R_AARCH64_TLSGD_ADR_PREL21: u32 = 512;
/// Bits 12 to 32 of Page(G(pair)) - Page(P) in an ADRP, signed (general dynamic).
pub const R_AARCH64_TLSGD_ADR_PAGE21: u32 = 513;
/// Bits 0 to 11 of G(pair) in an ADD, not checked (general dynamic).
pub const R_AARCH64_TLSGD_ADD_LO12_NC: u32 = 514;
/// Bits 16 to 31 of G(pair) - GOT in a MOVN or MOVZ (general dynamic).
pub const R_AARCH64_TLSGD_MOVW_G1: u32 = 515;
/// Bits 0 to 15 of G(pair) - GOT in a MOVK, not checked (general dynamic).
pub const R_AARCH64_TLSGD_MOVW_G0_NC: u32 = 516;
/// Bits 0 to 20 of G(module) - P in an ADR, signed (local dynamic).
pub const R_AARCH64_TLSLD_ADR_PREL21: u32 = 517;
/// Bits 12 to 32 of Page(G(module)) - Page(P) in an ADRP, signed (local dynamic).
pub const R_AARCH64_TLSLD_ADR_PAGE21: u32 = 518;
/// Bits 0 to 11 of G(module) in an ADD, not checked (local dynamic).
pub const R_AARCH64_TLSLD_ADD_LO12_NC: u32 = 519;
/// Bits 16 to 31 of G(module) - GOT in a MOVN or MOVZ (local dynamic).
pub const R_AARCH64_TLSLD_MOVW_G1: u32 = 520;
/// Bits 0 to 15 of G(module) - GOT in a MOVK, not checked (local dynamic).
pub const R_AARCH64_TLSLD_MOVW_G0_NC: u32 = 521;
/// Bits 2 to 20 of G(module) - P in a load of a literal, signed (local dynamic).
pub const R_AARCH64_TLSLD_LD_PREL19: u32 = 522;
/// Bits 32 to 47 of S + A - DTP in a MOVN or MOVZ, signed (local dynamic).
pub const R_AARCH64_TLSLD_MOVW_DTPREL_G2: u32 = 523;
/// Bits 16 to 31 of S + A - DTP in a MOVN or MOVZ, signed (local dynamic).
pub const R_AARCH64_TLSLD_MOVW_DTPREL_G1: u32 = 524;
/// Bits 16 to 31 of S + A - DTP in a MOVK, not checked (local dynamic).
pub const R_AARCH64_TLSLD_MOVW_DTPREL_G1_NC: u32 = 525;
/// Bits 0 to 15 of S + A - DTP in a MOVN or MOVZ, signed (local dynamic).
pub const R_AARCH64_TLSLD_MOVW_DTPREL_G0: u32 = 526;
/// Bits 0 to 15 of S + A - DTP in a MOVK, not checked (local dynamic).
pub const R_AARCH64_TLSLD_MOVW_DTPREL_G0_NC: u32 = 527;
/// Bits 12 to 23 of S + A - DTP in an ADD, unsigned (local dynamic).
pub const R_AARCH64_TLSLD_ADD_DTPREL_HI12: u32 = 528;
/// Bits 0 to 11 of S + A - DTP in an ADD, unsigned (local dynamic).
pub const R_AARCH64_TLSLD_ADD_DTPREL_LO12: u32 = 529;
/// Bits 0 to 11 of S + A - DTP in an ADD, not checked (local dynamic).
pub const R_AARCH64_TLSLD_ADD_DTPREL_LO12_NC: u32 = 530;
/// Bits 0 to 11 of S + A - DTP in a load or store of 1 byte, unsigned (local dynamic).
pub const R_AARCH64_TLSLD_LDST8_DTPREL_LO12: u32 = 531;
/// Bits 0 to 11 of S + A - DTP in a load or store of 1 byte, not checked (local dynamic).
pub const R_AARCH64_TLSLD_LDST8_DTPREL_LO12_NC: u32 = 532;
/// Bits 1 to 11 of S + A - DTP in a load or store of 2 bytes, unsigned (local dynamic).
pub const R_AARCH64_TLSLD_LDST16_DTPREL_LO12: u32 = 533;
/// Bits 1 to 11 of S + A - DTP in a load or store of 2 bytes, not checked (local dynamic).
pub const R_AARCH64_TLSLD_LDST16_DTPREL_LO12_NC: u32 = 534;
/// Bits 2 to 11 of S + A - DTP in a load or store of 4 bytes, unsigned (local dynamic).
pub const R_AARCH64_TLSLD_LDST32_DTPREL_LO12: u32 = 535;
/// Bits 2 to 11 of S + A - DTP in a load or store of 4 bytes, not checked (local dynamic).
pub const R_AARCH64_TLSLD_LDST32_DTPREL_LO12_NC: u32 = 536;
/// Bits 3 to 11 of S + A - DTP in a load or store of 8 bytes, unsigned (local dynamic).
pub const R_AARCH64_TLSLD_LDST64_DTPREL_LO12: u32 = 537;
/// Bits 3 to 11 of S + A - DTP in a load or store of 8 bytes, not checked (local dynamic).
pub const R_AARCH64_TLSLD_LDST64_DTPREL_LO12_NC: u32 = 538;
/// Bits 16 to 31 of G(S + A - TP) - GOT in a MOVN or MOVZ (initial exec).
pub const R_AARCH64_TLSIE_MOVW_GOTTPREL_G1: u32 = 539;
/// Bits 0 to 15 of G(S + A - TP) - GOT in a MOVK, not checked (initial exec).
pub const R_AARCH64_TLSIE_MOVW_GOTTPREL_G0_NC: u32 = 540;
/// Bits 12 to 32 of Page(G(S + A - TP)) - Page(P) in an ADRP, signed (initial exec).
pub const R_AARCH64_TLSIE_ADR_GOTTPREL_PAGE21: u32 = 541;
/// Bits 3 to 11 of G(S + A - TP) in a load of 8 bytes, not checked (initial exec).
pub const R_AARCH64_TLSIE_LD64_GOTTPREL_LO12_NC: u32 = 542;
/// Bits 2 to 20 of G(S + A - TP) - P in a load of a literal, signed (initial exec).
pub const R_AARCH64_TLSIE_LD_GOTTPREL_PREL19: u32 = 543;
/// Bits 32 to 47 of S + A - TP in a MOVN or MOVZ, signed (local exec).
pub const R_AARCH64_TLSLE_MOVW_TPREL_G2: u32 = 544;
/// Bits 16 to 31 of S + A - TP in a MOVN or MOVZ, signed (local exec).
pub const R_AARCH64_TLSLE_MOVW_TPREL_G1: u32 = 545;
/// Bits 16 to 31 of S + A - TP in a MOVK, not checked (local exec).
pub const R_AARCH64_TLSLE_MOVW_TPREL_G1_NC: u32 = 546;
/// Bits 0 to 15 of S + A - TP in a MOVN or MOVZ, signed (local exec).
pub const R_AARCH64_TLSLE_MOVW_TPREL_G0: u32 = 547;
/// Bits 0 to 15 of S + A - TP in a MOVK, not checked (local exec).
pub const R_AARCH64_TLSLE_MOVW_TPREL_G0_NC: u32 = 548;
/// Bits 12 to 23 of S + A - TP in an ADD, unsigned (local exec).
pub const R_AARCH64_TLSLE_ADD_TPREL_HI12: u32 = 549;
/// Bits 0 to 11 of S + A - TP in an ADD, unsigned (local exec).
pub const R_AARCH64_TLSLE_ADD_TPREL_LO12: u32 = 550;
/// Bits 0 to 11 of S + A - TP in an ADD, not checked (local exec).
pub const R_AARCH64_TLSLE_ADD_TPREL_LO12_NC: u32 = 551;
/// Bits 0 to 11 of S + A - TP in a load or store of 1 byte, unsigned (local exec).
pub const R_AARCH64_TLSLE_LDST8_TPREL_LO12: u32 = 552;
/// Bits 0 to 11 of S + A - TP in a load or store of 1 byte, not checked (local exec).
pub const R_AARCH64_TLSLE_LDST8_TPREL_LO12_NC: u32 = 553;
/// Bits 1 to 11 of S + A - TP in a load or store of 2 bytes, unsigned (local exec).
pub const R_AARCH64_TLSLE_LDST16_TPREL_LO12: u32 = 554;
/// Bits 1 to 11 of S + A - TP in a load or store of 2 bytes, not checked (local exec).
pub const R_AARCH64_TLSLE_LDST16_TPREL_LO12_NC: u32 = 555;
/// Bits 2 to 11 of S + A - TP in a load or store of 4 bytes, unsigned (local exec).
pub const R_AARCH64_TLSLE_LDST32_TPREL_LO12: u32 = 556;
/// Bits 2 to 11 of S + A - TP in a load or store of 4 bytes, not checked (local exec).
pub const R_AARCH64_TLSLE_LDST32_TPREL_LO12_NC: u32 = 557;
/// Bits 3 to 11 of S + A - TP in a load or store of 8 bytes, unsigned (local exec).
pub const R_AARCH64_TLSLE_LDST64_TPREL_LO12: u32 = 558;
/// Bits 3 to 11 of S + A - TP in a load or store of 8 bytes, not checked (local exec).
pub const R_AARCH64_TLSLE_LDST64_TPREL_LO12_NC: u32 = 559;
/// Bits 2 to 20 of G(descriptor) - P in a load of a literal, signed.
pub const R_AARCH64_TLSDESC_LD_PREL19: u32 = 560;
/// Bits 0 to 20 of G(descriptor) - P in an ADR, signed.
pub const R_AARCH64_TLSDESC_ADR_PREL21: u32 = 561;
/// Bits 12 to 32 of Page(G(descriptor)) - Page(P) in an ADRP, signed.
pub const R_AARCH64_TLSDESC_ADR_PAGE21: u32 = 562;
/// Bits 3 to 11 of G(descriptor) in a load of 8 bytes, not checked.
pub const R_AARCH64_TLSDESC_LD64_LO12: u32 = 563;
/// Bits 0 to 11 of G(descriptor) in an ADD, not checked.
pub const R_AARCH64_TLSDESC_ADD_LO12: u32 = 564;
/// Bits 16 to 31 of G(descriptor) - GOT in a MOVN or MOVZ.
pub const R_AARCH64_TLSDESC_OFF_G1: u32 = 565;
/// Bits 0 to 15 of G(descriptor) - GOT in a MOVK, not checked.
pub const R_AARCH64_TLSDESC_OFF_G0_NC: u32 = 566;
/// Marks the load of the function out of a TLS descriptor; no field.
pub const R_AARCH64_TLSDESC_LDR: u32 = 567;
/// Marks the addition that makes the address of a TLS descriptor; no field.
pub const R_AARCH64_TLSDESC_ADD: u32 = 568;
/// Marks the call through a TLS descriptor; no field.
pub const R_AARCH64_TLSDESC_CALL: u32 = 569;
/// Bits 4 to 11 of S + A - TP in a load or store of 16 bytes, unsigned (local exec).
pub const R_AARCH64_TLSLE_LDST128_TPREL_LO12: u32 = 570;
/// Bits 4 to 11 of S + A - TP in a load or store of 16 bytes, not checked (local exec).
pub const R_AARCH64_TLSLE_LDST128_TPREL_LO12_NC: u32 = 571;
/// Bits 4 to 11 of S + A - DTP in a load or store of 16 bytes, unsigned (local dynamic).
pub const R_AARCH64_TLSLD_LDST128_DTPREL_LO12: u32 = 572;
/// Bits 4 to 11 of S + A - DTP in a load or store of 16 bytes, not checked (local dynamic).
pub const R_AARCH64_TLSLD_LDST128_DTPREL_LO12_NC: u32 = 573;
/// At load time the symbol's bytes are copied here out of a shared object.
pub const R_AARCH64_COPY: u32 = 1024;
/// S + A in 8 bytes, in an entry of the GOT.
pub const R_AARCH64_GLOB_DAT: u32 = 1025;
/// S + A in 8 bytes, in the GOT entry that a PLT slot jumps through.
pub const R_AARCH64_JUMP_SLOT: u32 = 1026;
/// B + A in 8 bytes, filled in at load time.
pub const R_AARCH64_RELATIVE: u32 = 1027;
/// The number of the module that defines the symbol, in 8 bytes, filled in at load time.
pub const R_AARCH64_TLS_DTPMOD: u32 = 1028;
/// S + A - DTP in 8 bytes, signed, filled in at load time.
pub const R_AARCH64_TLS_DTPREL: u32 = 1029;
/// S + A - TP in 8 bytes, signed, filled in at load time.
pub const R_AARCH64_TLS_TPREL: u32 = 1030;
/// A TLS descriptor of two words of 8 bytes, filled in at load time.
pub const R_AARCH64_TLSDESC: u32 = 1031;
/// What the function at B + A returns, in 8 bytes, filled in at load time.
pub const R_AARCH64_IRELATIVE: u32 = 1032;
