//! Constants and architecture names of Mach-O files, and the table of a fat file.
//!
//! It stands on `byte_core` and `thiserror`. The layers above may rely on this: the numbers and texts
//! are those of Apple's `mach-o/loader.h`, `mach-o/fat.h` and `mach/machine.h`, each name of an
//! architecture stands for one pair of processor type and subtype, and the entries of a fat file are
//! those that stand at their places.
#![tactic(auto)]

pub mod constants;
pub mod cputype;
mod fat;
mod header;
mod laws;
mod mach_error;

pub use fat::{
    FAT_MAGIC, FAT_MAGIC_64, FatArch, FatArchIterator, MultiArch, SIZEOF_FAT_ARCH,
    SIZEOF_FAT_HEADER, peek,
};
pub use header::{
    MH_CIGAM, MH_CIGAM_64, MH_MAGIC, MH_MAGIC_64, SIZEOF_HEADER_32, SIZEOF_HEADER_64,
};
pub use laws::{
    architecture_laws, header_laws, processor_laws, section_laws, table_laws, version_laws,
};
pub use mach_error::Error;

// Versions of macOS.
pub use constants::{
    DYLD_MACOSX_VERSION_10_4, DYLD_MACOSX_VERSION_10_5, DYLD_MACOSX_VERSION_10_6,
    DYLD_MACOSX_VERSION_10_7, DYLD_MACOSX_VERSION_10_8, DYLD_MACOSX_VERSION_10_9,
    DYLD_MACOSX_VERSION_10_10, DYLD_MACOSX_VERSION_10_11, DYLD_MACOSX_VERSION_10_12,
    DYLD_MACOSX_VERSION_10_13,
};

// Versions of iOS.
pub use constants::{
    DYLD_IOS_VERSION_2_0, DYLD_IOS_VERSION_2_1, DYLD_IOS_VERSION_2_2, DYLD_IOS_VERSION_3_0,
    DYLD_IOS_VERSION_3_1, DYLD_IOS_VERSION_3_2, DYLD_IOS_VERSION_4_0, DYLD_IOS_VERSION_4_1,
    DYLD_IOS_VERSION_4_2, DYLD_IOS_VERSION_4_3, DYLD_IOS_VERSION_5_0, DYLD_IOS_VERSION_5_1,
    DYLD_IOS_VERSION_6_0, DYLD_IOS_VERSION_6_1, DYLD_IOS_VERSION_7_0, DYLD_IOS_VERSION_7_1,
    DYLD_IOS_VERSION_8_0, DYLD_IOS_VERSION_9_0, DYLD_IOS_VERSION_10_0, DYLD_IOS_VERSION_11_0,
};

// Types of sections.
pub use constants::{
    S_4BYTE_LITERALS, S_8BYTE_LITERALS, S_16BYTE_LITERALS, S_COALESCED, S_CSTRING_LITERALS,
    S_DTRACE_DOF, S_GB_ZEROFILL, S_INTERPOSING, S_LAZY_DYLIB_SYMBOL_POINTERS,
    S_LAZY_SYMBOL_POINTERS, S_LITERAL_POINTERS, S_MOD_INIT_FUNC_POINTERS, S_MOD_TERM_FUNC_POINTERS,
    S_NON_LAZY_SYMBOL_POINTERS, S_REGULAR, S_SYMBOL_STUBS, S_THREAD_LOCAL_INIT_FUNCTION_POINTERS,
    S_THREAD_LOCAL_REGULAR, S_THREAD_LOCAL_VARIABLE_POINTERS, S_THREAD_LOCAL_VARIABLES,
    S_THREAD_LOCAL_ZEROFILL, S_ZEROFILL,
};

// Attributes of sections.
pub use constants::{
    S_ATTR_DEBUG, S_ATTR_EXT_RELOC, S_ATTR_LIVE_SUPPORT, S_ATTR_LOC_RELOC, S_ATTR_NO_DEAD_STRIP,
    S_ATTR_NO_TOC, S_ATTR_PURE_INSTRUCTIONS, S_ATTR_SELF_MODIFYING_CODE, S_ATTR_SOME_INSTRUCTIONS,
    S_ATTR_STRIP_STATIC_SYMS, SECTION_ATTRIBUTES, SECTION_ATTRIBUTES_SYS, SECTION_ATTRIBUTES_USR,
    SECTION_TYPE,
};

// Names of segments and sections.
pub use constants::{
    SECT_BSS, SECT_COMMON, SECT_DATA, SECT_FVMLIB_INIT0, SECT_FVMLIB_INIT1, SECT_ICON_HEADER,
    SECT_ICON_TIFF, SECT_OBJC_MODULES, SECT_OBJC_REFS, SECT_OBJC_STRINGS, SECT_OBJC_SYMBOLS,
    SECT_TEXT, SEG_DATA, SEG_ICON, SEG_IMPORT, SEG_LINKEDIT, SEG_OBJC, SEG_PAGEZERO, SEG_TEXT,
    SEG_UNIXSTACK,
};

// Protections of segments.
pub use constants::{VM_PROT_EXECUTE, VM_PROT_READ, VM_PROT_WRITE};
