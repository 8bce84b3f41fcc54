//! Relocations of RISC-V, by the RISC-V ELF psABI specification ("Relocations").
//!
//! In the formulas S is the symbol's value, A the addend, P the address of the field, V what the field
//! held, B the address at which the object is loaded, GOT the address of the global offset table, G the
//! offset of the symbol's entry in it, GP the value of the global pointer, TP the thread pointer, and
//! DTP the start of the module's block of thread-local data plus 0x800. An address has 4 or 8 bytes by
//! the file's class. A pair in the GOT is the module and the offset by which thread-local data is found.

/// Nothing is filled in.
pub const R_RISCV_NONE: u32 = 0;
/// S + A in 4 bytes.
pub const R_RISCV_32: u32 = 1;
/// S + A in 8 bytes.
pub const R_RISCV_64: u32 = 2;
/// B + A in an address, filled in at load time.
pub const R_RISCV_RELATIVE: u32 = 3;
/// At load time the symbol's bytes are copied here out of a shared object.
pub const R_RISCV_COPY: u32 = 4;
/// S in the GOT entry that a PLT slot jumps through, of the size of an address.
pub const R_RISCV_JUMP_SLOT: u32 = 5;
/// The number of the module that defines the symbol, in 4 bytes, filled in at load time.
pub const R_RISCV_TLS_DTPMOD32: u32 = 6;
/// The number of the module that defines the symbol, in 8 bytes, filled in at load time.
pub const R_RISCV_TLS_DTPMOD64: u32 = 7;
/// S + A - DTP in 4 bytes, signed.
pub const R_RISCV_TLS_DTPREL32: u32 = 8;
/// S + A - DTP in 8 bytes, signed.
pub const R_RISCV_TLS_DTPREL64: u32 = 9;
/// S + A - TP in 4 bytes, signed, filled in at load time.
pub const R_RISCV_TLS_TPREL32: u32 = 10;
/// S + A - TP in 8 bytes, signed, filled in at load time.
pub const R_RISCV_TLS_TPREL64: u32 = 11;
/// S + A - P in the 12 bits of a branch (B-type), signed, in units of 2 bytes.
pub const R_RISCV_BRANCH: u32 = 16;
/// S + A - P in the 20 bits of a jump (J-type), signed, in units of 2 bytes.
pub const R_RISCV_JAL: u32 = 17;
/// S + A - P in an AUIPC and the JALR behind it, signed, 32 bits.
pub const R_RISCV_CALL: u32 = 18;
/// S + A - P, or the PLT slot less P, in an AUIPC and the JALR behind it, signed, 32 bits.
pub const R_RISCV_CALL_PLT: u32 = 19;
/// Bits 12 to 31 of G + GOT + A - P in an AUIPC (U-type), rounded for a signed low part.
pub const R_RISCV_GOT_HI20: u32 = 20;
/// Bits 12 to 31 of the GOT entry that keeps S - TP, less P, in an AUIPC (initial exec).
pub const R_RISCV_TLS_GOT_HI20: u32 = 21;
/// Bits 12 to 31 of the symbol's pair in the GOT, less P, in an AUIPC (general dynamic).
pub const R_RISCV_TLS_GD_HI20: u32 = 22;
/// Bits 12 to 31 of S + A - P in an AUIPC (U-type), rounded for a signed low part.
pub const R_RISCV_PCREL_HI20: u32 = 23;
/// The low 12 bits of what the AUIPC at S stands for, in an I-type instruction, signed.
pub const R_RISCV_PCREL_LO12_I: u32 = 24;
/// The low 12 bits of what the AUIPC at S stands for, in an S-type instruction, signed.
pub const R_RISCV_PCREL_LO12_S: u32 = 25;
/// Bits 12 to 31 of S + A in a LUI (U-type), rounded for a signed low part.
pub const R_RISCV_HI20: u32 = 26;
/// The low 12 bits of S + A in an I-type instruction, signed.
pub const R_RISCV_LO12_I: u32 = 27;
/// The low 12 bits of S + A in an S-type instruction, signed.
pub const R_RISCV_LO12_S: u32 = 28;
/// Bits 12 to 31 of S + A - TP in a LUI (U-type), rounded for a signed low part (local exec).
pub const R_RISCV_TPREL_HI20: u32 = 29;
/// The low 12 bits of S + A - TP in an I-type instruction, signed (local exec).
pub const R_RISCV_TPREL_LO12_I: u32 = 30;
/// The low 12 bits of S + A - TP in an S-type instruction, signed (local exec).
pub const R_RISCV_TPREL_LO12_S: u32 = 31;
/// Marks the addition of the thread pointer (local exec); no field.
pub const R_RISCV_TPREL_ADD: u32 = 32;
/// V + S + A in 1 byte.
pub const R_RISCV_ADD8: u32 = 33;
/// V + S + A in 2 bytes.
pub const R_RISCV_ADD16: u32 = 34;
/// V + S + A in 4 bytes.
pub const R_RISCV_ADD32: u32 = 35;
/// V + S + A in 8 bytes.
pub const R_RISCV_ADD64: u32 = 36;
/// V - S - A in 1 byte.
pub const R_RISCV_SUB8: u32 = 37;
/// V - S - A in 2 bytes.
pub const R_RISCV_SUB16: u32 = 38;
/// V - S - A in 4 bytes.
pub const R_RISCV_SUB32: u32 = 39;
/// V - S - A in 8 bytes.
pub const R_RISCV_SUB64: u32 = 40;
/// Marks a table of virtual functions and the one that it extends; no field.
pub const R_RISCV_GNU_VTINHERIT: u32 = 41;
/// Marks the use of an entry of a table of virtual functions; no field.
pub const R_RISCV_GNU_VTENTRY: u32 = 42;
/// Says that A bytes of no-operations stand here for an alignment, of which the linker drops some.
pub const R_RISCV_ALIGN: u32 = 43;
/// S + A - P in the 8 bits of a compressed branch (CB-type), signed, in units of 2 bytes.
pub const R_RISCV_RVC_BRANCH: u32 = 44;
/// S + A - P in the 11 bits of a compressed jump (CJ-type), signed, in units of 2 bytes.
pub const R_RISCV_RVC_JUMP: u32 = 45;
/// Bits 12 to 17 of S + A in a compressed C.LUI (CI-type), signed.
pub const R_RISCV_RVC_LUI: u32 = 46;
/// S + A - GP in the 12 bits of an I-type instruction, signed.
pub const R_RISCV_GPREL_I: u32 = 47;
/// S + A - GP in the 12 bits of an S-type instruction, signed.
pub const R_RISCV_GPREL_S: u32 = 48;
/// S + A - TP in the 12 bits of an I-type instruction, signed (local exec).
pub const R_RISCV_TPREL_I: u32 = 49;
/// S + A - TP in the 12 bits of an S-type instruction, signed (local exec).
pub const R_RISCV_TPREL_S: u32 = 50;
/// Says that the linker may shorten the instructions of the relocation beside it; no field.
pub const R_RISCV_RELAX: u32 = 51;
/// V - S - A in the low 6 bits of 1 byte.
pub const R_RISCV_SUB6: u32 = 52;
/// S + A in the low 6 bits of 1 byte.
pub const R_RISCV_SET6: u32 = 53;
/// S + A in 1 byte.
pub const R_RISCV_SET8: u32 = 54;
/// S + A in 2 bytes.
pub const R_RISCV_SET16: u32 = 55;
/// S + A in 4 bytes, of a label beside which another is taken off.
pub const R_RISCV_SET32: u32 = 56;
/// S + A - P in 4 bytes, signed.
pub const R_RISCV_32_PCREL: u32 = 57;
/// What the function at B + A returns, in an address, filled in at load time.
pub const R_RISCV_IRELATIVE: u32 = 58;
/// The function or its PLT slot, plus A, less P, in 4 bytes, signed.
pub const R_RISCV_PLT32: u32 = 59;
/// S + A as a ULEB128 number, in as many bytes as stand there.
pub const R_RISCV_SET_ULEB128: u32 = 60;
/// V - S - A as a ULEB128 number, in as many bytes as stand there.
pub const R_RISCV_SUB_ULEB128: u32 = 61;
/// Bits 12 to 31 of the symbol's TLS descriptor, less P, in an AUIPC (U-type).
pub const R_RISCV_TLSDESC_HI20: u32 = 62;
/// The low 12 bits of the descriptor's place from the AUIPC at S, in a load (I-type), signed.
pub const R_RISCV_TLSDESC_LOAD_LO12: u32 = 63;
/// The low 12 bits of the descriptor's place from the AUIPC at S, in an ADDI (I-type), signed.
pub const R_RISCV_TLSDESC_ADD_LO12: u32 = 64;
/// Marks the call through a TLS descriptor, whose AUIPC is at S; no field.
pub const R_RISCV_TLSDESC_CALL: u32 = 65;
/// Names by its symbol the vendor whose own number the next relocation has; no field.
pub const R_RISCV_VENDOR: u32 = 191;
