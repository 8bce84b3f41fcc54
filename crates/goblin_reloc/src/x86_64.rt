//! Relocations of x86-64, by the System V ABI's AMD64 supplement ("Relocation Types").
//!
//! In the formulas S is the symbol's value, A the addend, P the address of the field, B the address at
//! which the object is loaded, GOT the address of the global offset table, G the offset of the symbol's
//! entry in it, L the address of the symbol's slot in the procedure linkage table (PLT), Z the symbol's
//! size, TP the thread pointer, and DTP the start of the module's block of thread-local data. A pair in
//! the GOT is the module and the offset by which thread-local data is found.

/// Nothing is filled in.
pub const R_X86_64_NONE: u32 = 0;
/// S + A in 8 bytes.
pub const R_X86_64_64: u32 = 1;
/// S + A - P in 4 bytes, signed.
pub const R_X86_64_PC32: u32 = 2;
/// G + A in 4 bytes, signed.
pub const R_X86_64_GOT32: u32 = 3;
/// L + A - P in 4 bytes, signed.
pub const R_X86_64_PLT32: u32 = 4;
/// At load time the symbol's bytes are copied here out of a shared object.
pub const R_X86_64_COPY: u32 = 5;
/// S in 8 bytes, in an entry of the GOT.
pub const R_X86_64_GLOB_DAT: u32 = 6;
/// S in 8 bytes, in the GOT entry that a PLT slot jumps through.
pub const R_X86_64_JUMP_SLOT: u32 = 7;
/// B + A in 8 bytes, filled in at load time.
pub const R_X86_64_RELATIVE: u32 = 8;
/// G + GOT + A - P in 4 bytes, signed.
pub const R_X86_64_GOTPCREL: u32 = 9;
/// S + A in 4 bytes, unsigned: it has to be the value with zeros in front.
pub const R_X86_64_32: u32 = 10;
/// S + A in 4 bytes, signed: it has to be the value with its sign in front.
pub const R_X86_64_32S: u32 = 11;
/// S + A in 2 bytes.
pub const R_X86_64_16: u32 = 12;
/// S + A - P in 2 bytes, signed.
pub const R_X86_64_PC16: u32 = 13;
/// S + A in 1 byte.
pub const R_X86_64_8: u32 = 14;
/// S + A - P in 1 byte, signed.
pub const R_X86_64_PC8: u32 = 15;
/// The number of the module that defines the symbol, in 8 bytes, filled in at load time.
pub const R_X86_64_DTPMOD64: u32 = 16;
/// S + A - DTP in 8 bytes, signed: the place in the module's block of thread-local data.
pub const R_X86_64_DTPOFF64: u32 = 17;
/// S + A - TP in 8 bytes, signed, filled in at load time (initial exec).
pub const R_X86_64_TPOFF64: u32 = 18;
/// The symbol's pair of module and offset in the GOT, less P, plus A, in 4 bytes, signed.
pub const R_X86_64_TLSGD: u32 = 19;
/// The pair of this module in the GOT, less P, plus A, in 4 bytes, signed.
pub const R_X86_64_TLSLD: u32 = 20;
/// S + A - DTP in 4 bytes, signed (local dynamic).
pub const R_X86_64_DTPOFF32: u32 = 21;
/// The GOT entry that keeps S - TP, less P, plus A, in 4 bytes, signed (initial exec).
pub const R_X86_64_GOTTPOFF: u32 = 22;
/// S + A - TP in 4 bytes, signed (local exec).
pub const R_X86_64_TPOFF32: u32 = 23;
/// S + A - P in 8 bytes, signed.
pub const R_X86_64_PC64: u32 = 24;
/// S + A - GOT in 8 bytes, signed.
pub const R_X86_64_GOTOFF64: u32 = 25;
/// GOT + A - P in 4 bytes, signed.
pub const R_X86_64_GOTPC32: u32 = 26;
/// G + A in 8 bytes, signed.
pub const R_X86_64_GOT64: u32 = 27;
/// G + GOT + A - P in 8 bytes, signed.
pub const R_X86_64_GOTPCREL64: u32 = 28;
/// GOT + A - P in 8 bytes, signed.
pub const R_X86_64_GOTPC64: u32 = 29;
/// G + A in 8 bytes, signed, as R_X86_64_GOT64; the symbol wants a PLT slot too.
pub const R_X86_64_GOTPLT64: u32 = 30;
/// L + A - GOT in 8 bytes, signed.
pub const R_X86_64_PLTOFF64: u32 = 31;
/// Z + A in 4 bytes, unsigned.
pub const R_X86_64_SIZE32: u32 = 32;
/// Z + A in 8 bytes.
pub const R_X86_64_SIZE64: u32 = 33;
/// The symbol's TLS descriptor in the GOT, less P, plus A, in 4 bytes, signed.
pub const R_X86_64_GOTPC32_TLSDESC: u32 = 34;
/// Marks the call through a TLS descriptor; no field.
pub const R_X86_64_TLSDESC_CALL: u32 = 35;
/// A TLS descriptor of two words of 8 bytes, a function and its argument, filled in at load time.
pub const R_X86_64_TLSDESC: u32 = 36;
/// What the function at B + A returns, in 8 bytes, filled in at load time.
pub const R_X86_64_IRELATIVE: u32 = 37;
/// B + A in 8 bytes, also where addresses have 4 (x32), filled in at load time.
pub const R_X86_64_RELATIVE64: u32 = 38;
/// G + GOT + A - P in 4 bytes, signed, without a REX prefix; the linker may take the load out.
pub const R_X86_64_GOTPCRELX: u32 = 41;
/// G + GOT + A - P in 4 bytes, signed, behind a REX prefix; the linker may take the load out.
pub const R_X86_64_REX_GOTPCRELX: u32 = 42;
/// One more than the last number of the table; not a relocation.
pub const R_X86_64_NUM: u32 = 43;
