//! Relocations of the Intel 80386, by the System V ABI's Intel386 supplement ("Relocation Types").
//!
//! In the formulas S is the symbol's value, A the addend, P the address of the field, B the address at
//! which the object is loaded, GOT the address of the global offset table, G the offset of the symbol's
//! entry in it, L the address of the symbol's slot in the procedure linkage table (PLT), Z the symbol's
//! size, TP the thread pointer, and DTP the start of the module's block of thread-local data. A pair in
//! the GOT is the module and the offset by which thread-local data is found.

/// Nothing is filled in.
pub const R_386_NONE: u32 = 0;
/// S + A in 4 bytes.
pub const R_386_32: u32 = 1;
/// S + A - P in 4 bytes, signed.
pub const R_386_PC32: u32 = 2;
/// G + A in 4 bytes: where the symbol's entry lies in the GOT.
pub const R_386_GOT32: u32 = 3;
/// L + A - P in 4 bytes, signed.
pub const R_386_PLT32: u32 = 4;
/// At load time the symbol's bytes are copied here out of a shared object.
pub const R_386_COPY: u32 = 5;
/// S in 4 bytes, in an entry of the GOT.
pub const R_386_GLOB_DAT: u32 = 6;
/// S in 4 bytes, in the GOT entry that a PLT slot jumps through.
pub const R_386_JMP_SLOT: u32 = 7;
/// B + A in 4 bytes, filled in at load time.
pub const R_386_RELATIVE: u32 = 8;
/// S + A - GOT in 4 bytes, signed.
pub const R_386_GOTOFF: u32 = 9;
/// GOT + A - P in 4 bytes, signed.
pub const R_386_GOTPC: u32 = 10;
/// L + A in 4 bytes.
pub const R_386_32PLT: u32 = 11;
/// S + A - TP in 4 bytes, signed, filled in at load time.
pub const R_386_TLS_TPOFF: u32 = 14;
/// The address of the GOT entry that keeps S - TP, in 4 bytes (initial exec).
pub const R_386_TLS_IE: u32 = 15;
/// The offset from GOT of the entry that keeps S - TP, in 4 bytes, signed (initial exec).
pub const R_386_TLS_GOTIE: u32 = 16;
/// S + A - TP in 4 bytes, signed (local exec).
pub const R_386_TLS_LE: u32 = 17;
/// The offset from GOT of the symbol's module and offset, in 4 bytes (general dynamic, GNU).
pub const R_386_TLS_GD: u32 = 18;
/// The offset from GOT of the pair of this module, in 4 bytes (local dynamic, GNU).
pub const R_386_TLS_LDM: u32 = 19;
/// S + A in 2 bytes.
pub const R_386_16: u32 = 20;
/// S + A - P in 2 bytes, signed.
pub const R_386_PC16: u32 = 21;
/// S + A in 1 byte.
pub const R_386_8: u32 = 22;
/// S + A - P in 1 byte, signed.
pub const R_386_PC8: u32 = 23;
/// The offset from GOT of the symbol's pair, in 4 bytes (general dynamic, Sun).
pub const R_386_TLS_GD_32: u32 = 24;
/// Marks the push of the argument (general dynamic, Sun); no field.
pub const R_386_TLS_GD_PUSH: u32 = 25;
/// L + A - P in 4 bytes, signed, of the function that finds an address (general dynamic, Sun).
pub const R_386_TLS_GD_CALL: u32 = 26;
/// Marks the pop of the argument (general dynamic, Sun); no field.
pub const R_386_TLS_GD_POP: u32 = 27;
/// The offset from GOT of the pair of this module, in 4 bytes (local dynamic, Sun).
pub const R_386_TLS_LDM_32: u32 = 28;
/// Marks the push of the argument (local dynamic, Sun); no field.
pub const R_386_TLS_LDM_PUSH: u32 = 29;
/// L + A - P in 4 bytes, signed, of the function that finds an address (local dynamic, Sun).
pub const R_386_TLS_LDM_CALL: u32 = 30;
/// Marks the pop of the argument (local dynamic, Sun); no field.
pub const R_386_TLS_LDM_POP: u32 = 31;
/// S + A - DTP in 4 bytes, signed (local dynamic).
pub const R_386_TLS_LDO_32: u32 = 32;
/// The offset from GOT of the entry that keeps TP - S, in 4 bytes, signed (initial exec, Sun).
pub const R_386_TLS_IE_32: u32 = 33;
/// TP - S - A in 4 bytes (local exec, Sun).
pub const R_386_TLS_LE_32: u32 = 34;
/// The number of the module that defines the symbol, in 4 bytes, filled in at load time.
pub const R_386_TLS_DTPMOD32: u32 = 35;
/// S + A - DTP in 4 bytes, signed, filled in at load time.
pub const R_386_TLS_DTPOFF32: u32 = 36;
/// TP - S - A in 4 bytes, filled in at load time.
pub const R_386_TLS_TPOFF32: u32 = 37;
/// Z + A in 4 bytes.
pub const R_386_SIZE32: u32 = 38;
/// The offset from GOT of the symbol's TLS descriptor, in 4 bytes, signed.
pub const R_386_TLS_GOTDESC: u32 = 39;
/// Marks the call through a TLS descriptor; no field.
pub const R_386_TLS_DESC_CALL: u32 = 40;
/// A TLS descriptor of two words, a function and its argument, filled in at load time.
pub const R_386_TLS_DESC: u32 = 41;
/// What the function at B + A returns, in 4 bytes, filled in at load time.
pub const R_386_IRELATIVE: u32 = 42;
/// G + A in 4 bytes, as R_386_GOT32; the linker may take the load out.
pub const R_386_GOT32X: u32 = 43;
/// One more than the last number of the table; not a relocation.
pub const R_386_NUM: u32 = 44;
