//! The bits of the field `Characteristics` of the file header: Microsoft's PE Format, "Characteristics".

ghost use Rattle.std.specs.Prelude.{◌≡◌, ◌==◌, bit_and};

/// The image has no base relocations and must be loaded at its preferred address.
pub const IMAGE_FILE_RELOCS_STRIPPED: u16 = 0x0001;

/// The image is complete and can be run.
pub const IMAGE_FILE_EXECUTABLE_IMAGE: u16 = 0x0002;

/// Line numbers were removed. Deprecated.
pub const IMAGE_FILE_LINE_NUMS_STRIPPED: u16 = 0x0004;

/// Local symbols were removed. Deprecated.
pub const IMAGE_FILE_LOCAL_SYMS_STRIPPED: u16 = 0x0008;

/// The working set is trimmed often. Obsolete.
pub const IMAGE_FILE_AGGRESSIVE_WS_TRIM: u16 = 0x0010;

/// The program handles addresses above two gigabytes.
pub const IMAGE_FILE_LARGE_ADDRESS_AWARE: u16 = 0x0020;

/// A bit without a meaning yet.
pub const RESERVED: u16 = 0x0040;

/// The least significant byte comes first. Deprecated.
pub const IMAGE_FILE_BYTES_REVERSED_LO: u16 = 0x0080;

/// The machine has words of 32 bits.
pub const IMAGE_FILE_32BIT_MACHINE: u16 = 0x0100;

/// Debugging information was removed.
pub const IMAGE_FILE_DEBUG_STRIPPED: u16 = 0x0200;

/// From a removable disk the image is copied to the swap file and run there.
pub const IMAGE_FILE_REMOVABLE_RUN_FROM_SWAP: u16 = 0x0400;

/// From a network disk the image is copied to the swap file and run there.
pub const IMAGE_FILE_NET_RUN_FROM_SWAP: u16 = 0x0800;

/// The image belongs to the system.
pub const IMAGE_FILE_SYSTEM: u16 = 0x1000;

/// The image is a dynamic-link library.
pub const IMAGE_FILE_DLL: u16 = 0x2000;

/// The image runs on a machine with one processor alone.
pub const IMAGE_FILE_UP_SYSTEM_ONLY: u16 = 0x4000;

/// The most significant byte comes first. Deprecated.
pub const IMAGE_FILE_BYTES_REVERSED_HI: u16 = 0x8000;

/// Whether the characteristics are those of a dynamic-link library.
pub fn is_dll(characteristics: u16) -> bool
    ensures { result ≡ (bit_and characteristics IMAGE_FILE_DLL == IMAGE_FILE_DLL) }
{
    characteristics & IMAGE_FILE_DLL == IMAGE_FILE_DLL
}

/// Whether the characteristics are those of an image that can be run.
pub fn is_exe(characteristics: u16) -> bool
    ensures { result ≡ (bit_and characteristics IMAGE_FILE_EXECUTABLE_IMAGE == IMAGE_FILE_EXECUTABLE_IMAGE) }
{
    characteristics & IMAGE_FILE_EXECUTABLE_IMAGE == IMAGE_FILE_EXECUTABLE_IMAGE
}
