//! Numbers and names of Mach-O files: versions that the dynamic linker compares, the flags of a section,
//! the usual segments and sections, and protections of memory. Apple's `mach-o/dyld_priv.h`,
//! `mach-o/loader.h` ("section", "section_64") and `mach/vm_prot.h`.

// Versions: the major number above the lowest 16 bits, then the minor number and the patch, 8 bits each.

/// macOS 10.4.
pub const DYLD_MACOSX_VERSION_10_4: u32 = 0x000a_0400;
/// macOS 10.5.
pub const DYLD_MACOSX_VERSION_10_5: u32 = 0x000a_0500;
/// macOS 10.6.
pub const DYLD_MACOSX_VERSION_10_6: u32 = 0x000a_0600;
/// macOS 10.7.
pub const DYLD_MACOSX_VERSION_10_7: u32 = 0x000a_0700;
/// macOS 10.8.
pub const DYLD_MACOSX_VERSION_10_8: u32 = 0x000a_0800;
/// macOS 10.9.
pub const DYLD_MACOSX_VERSION_10_9: u32 = 0x000a_0900;
/// macOS 10.10.
pub const DYLD_MACOSX_VERSION_10_10: u32 = 0x000a_0a00;
/// macOS 10.11.
pub const DYLD_MACOSX_VERSION_10_11: u32 = 0x000a_0b00;
/// macOS 10.12.
pub const DYLD_MACOSX_VERSION_10_12: u32 = 0x000a_0c00;
/// macOS 10.13.
pub const DYLD_MACOSX_VERSION_10_13: u32 = 0x000a_0d00;

/// iOS 2.0.
pub const DYLD_IOS_VERSION_2_0: u32 = 0x0002_0000;
/// iOS 2.1.
pub const DYLD_IOS_VERSION_2_1: u32 = 0x0002_0100;
/// iOS 2.2.
pub const DYLD_IOS_VERSION_2_2: u32 = 0x0002_0200;
/// iOS 3.0.
pub const DYLD_IOS_VERSION_3_0: u32 = 0x0003_0000;
/// iOS 3.1.
pub const DYLD_IOS_VERSION_3_1: u32 = 0x0003_0100;
/// iOS 3.2.
pub const DYLD_IOS_VERSION_3_2: u32 = 0x0003_0200;
/// iOS 4.0.
pub const DYLD_IOS_VERSION_4_0: u32 = 0x0004_0000;
/// iOS 4.1.
pub const DYLD_IOS_VERSION_4_1: u32 = 0x0004_0100;
/// iOS 4.2.
pub const DYLD_IOS_VERSION_4_2: u32 = 0x0004_0200;
/// iOS 4.3.
pub const DYLD_IOS_VERSION_4_3: u32 = 0x0004_0300;
/// iOS 5.0.
pub const DYLD_IOS_VERSION_5_0: u32 = 0x0005_0000;
/// iOS 5.1.
pub const DYLD_IOS_VERSION_5_1: u32 = 0x0005_0100;
/// iOS 6.0.
pub const DYLD_IOS_VERSION_6_0: u32 = 0x0006_0000;
/// iOS 6.1.
pub const DYLD_IOS_VERSION_6_1: u32 = 0x0006_0100;
/// iOS 7.0.
pub const DYLD_IOS_VERSION_7_0: u32 = 0x0007_0000;
/// iOS 7.1.
pub const DYLD_IOS_VERSION_7_1: u32 = 0x0007_0100;
/// iOS 8.0.
pub const DYLD_IOS_VERSION_8_0: u32 = 0x0008_0000;
/// iOS 9.0.
pub const DYLD_IOS_VERSION_9_0: u32 = 0x0009_0000;
/// iOS 10.0.
pub const DYLD_IOS_VERSION_10_0: u32 = 0x000a_0000;
/// iOS 11.0.
pub const DYLD_IOS_VERSION_11_0: u32 = 0x000b_0000;

// The flags of a section: its type in the lowest byte, its attributes above.

/// The bits of the type.
pub const SECTION_TYPE: u32 = 0x0000_00ff;
/// The bits of the attributes.
pub const SECTION_ATTRIBUTES: u32 = 0xffff_ff00;

/// Bytes of no further kind.
pub const S_REGULAR: u32 = 0x0;
/// Zeros that take no bytes in the file.
pub const S_ZEROFILL: u32 = 0x1;
/// Texts of C, each up to its zero byte.
pub const S_CSTRING_LITERALS: u32 = 0x2;
/// Constants of 4 bytes.
pub const S_4BYTE_LITERALS: u32 = 0x3;
/// Constants of 8 bytes.
pub const S_8BYTE_LITERALS: u32 = 0x4;
/// Addresses of constants.
pub const S_LITERAL_POINTERS: u32 = 0x5;
/// Addresses of symbols, bound at load.
pub const S_NON_LAZY_SYMBOL_POINTERS: u32 = 0x6;
/// Addresses of symbols, bound at the first call.
pub const S_LAZY_SYMBOL_POINTERS: u32 = 0x7;
/// Stubs that call symbols; the second reserved field of the section has the size of one.
pub const S_SYMBOL_STUBS: u32 = 0x8;
/// Addresses of functions that run at load.
pub const S_MOD_INIT_FUNC_POINTERS: u32 = 0x9;
/// Addresses of functions that run at the end.
pub const S_MOD_TERM_FUNC_POINTERS: u32 = 0xa;
/// Definitions of which one of each name is kept.
pub const S_COALESCED: u32 = 0xb;
/// Zeros that take no bytes in the file, and may be more than 4 gigabytes.
pub const S_GB_ZEROFILL: u32 = 0xc;
/// Pairs of functions, the first to be called in place of the second.
pub const S_INTERPOSING: u32 = 0xd;
/// Constants of 16 bytes.
pub const S_16BYTE_LITERALS: u32 = 0xe;
/// Probes in the object format of DTrace.
pub const S_DTRACE_DOF: u32 = 0xf;
/// Addresses of symbols of libraries that are loaded at the first call.
pub const S_LAZY_DYLIB_SYMBOL_POINTERS: u32 = 0x10;
/// First values of thread-local variables.
pub const S_THREAD_LOCAL_REGULAR: u32 = 0x11;
/// Thread-local variables that begin as zeros.
pub const S_THREAD_LOCAL_ZEROFILL: u32 = 0x12;
/// Descriptors of thread-local variables.
pub const S_THREAD_LOCAL_VARIABLES: u32 = 0x13;
/// Addresses of descriptors of thread-local variables.
pub const S_THREAD_LOCAL_VARIABLE_POINTERS: u32 = 0x14;
/// Addresses of functions that make first values of thread-local variables.
pub const S_THREAD_LOCAL_INIT_FUNCTION_POINTERS: u32 = 0x15;

/// The attributes that tools set.
pub const SECTION_ATTRIBUTES_SYS: u32 = 0x00ff_ff00;
/// Some relocations name symbols of the file alone.
pub const S_ATTR_LOC_RELOC: u32 = 0x0000_0100;
/// Some relocations name symbols that are seen outside.
pub const S_ATTR_EXT_RELOC: u32 = 0x0000_0200;
/// Some of the bytes are machine instructions.
pub const S_ATTR_SOME_INSTRUCTIONS: u32 = 0x0000_0400;
/// The attributes that a user sets.
pub const SECTION_ATTRIBUTES_USR: u32 = 0xff00_0000;
/// For debuggers alone.
pub const S_ATTR_DEBUG: u32 = 0x0200_0000;
/// Stubs of 32-bit x86 that the dynamic linker writes.
pub const S_ATTR_SELF_MODIFYING_CODE: u32 = 0x0400_0000;
/// Kept where it refers to something that is kept.
pub const S_ATTR_LIVE_SUPPORT: u32 = 0x0800_0000;
/// Kept, also where nothing refers to it.
pub const S_ATTR_NO_DEAD_STRIP: u32 = 0x1000_0000;
/// Its symbols may be left out where they are of the file alone and the file is bound at load.
pub const S_ATTR_STRIP_STATIC_SYMS: u32 = 0x2000_0000;
/// Its coalesced symbols stand in no table of contents of an archive.
pub const S_ATTR_NO_TOC: u32 = 0x4000_0000;
/// All bytes are machine instructions.
pub const S_ATTR_PURE_INSTRUCTIONS: u32 = 0x8000_0000;

// Segments, each before its sections.

/// The first pages of a program, without access, so that a null reference is caught.
pub const SEG_PAGEZERO: &str = "__PAGEZERO";
/// Code and what is only read.
pub const SEG_TEXT: &str = "__TEXT";
/// Machine code.
pub const SECT_TEXT: &str = "__text";
/// Where a library of fixed addresses is set up.
pub const SECT_FVMLIB_INIT0: &str = "__fvmlib_init0";
/// What follows that setting up.
pub const SECT_FVMLIB_INIT1: &str = "__fvmlib_init1";
/// What may be written.
pub const SEG_DATA: &str = "__DATA";
/// Data with first values.
pub const SECT_DATA: &str = "__data";
/// Data that begins as zeros.
pub const SECT_BSS: &str = "__bss";
/// Common symbols, which the linker places.
pub const SECT_COMMON: &str = "__common";
/// What the runtime of Objective-C reads.
pub const SEG_OBJC: &str = "__OBJC";
/// Its symbols.
pub const SECT_OBJC_SYMBOLS: &str = "__symbol_table";
/// Its modules.
pub const SECT_OBJC_MODULES: &str = "__module_info";
/// The texts of its selectors.
pub const SECT_OBJC_STRINGS: &str = "__selector_strs";
/// References to its selectors.
pub const SECT_OBJC_REFS: &str = "__selector_refs";
/// Icons.
pub const SEG_ICON: &str = "__ICON";
/// The headers of the icons.
pub const SECT_ICON_HEADER: &str = "__header";
/// The icons as TIFF.
pub const SECT_ICON_TIFF: &str = "__tiff";
/// The tables that the linker makes.
pub const SEG_LINKEDIT: &str = "__LINKEDIT";
/// The stack.
pub const SEG_UNIXSTACK: &str = "__UNIXSTACK";
/// Stubs that the dynamic linker writes, with every access.
pub const SEG_IMPORT: &str = "__IMPORT";

// The protections of a segment, as bits.

/// It may be read.
pub const VM_PROT_READ: u32 = 0x1;
/// It may be written.
pub const VM_PROT_WRITE: u32 = 0x2;
/// It may be executed.
pub const VM_PROT_EXECUTE: u32 = 0x4;
