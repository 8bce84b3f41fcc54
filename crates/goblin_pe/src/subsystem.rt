//! The numbers of the field `Subsystem` of the optional header: Microsoft's PE Format, "Windows Subsystem".

/// No subsystem is known.
pub const IMAGE_SUBSYSTEM_UNKNOWN: u16 = 0;

/// Drivers and native processes.
pub const IMAGE_SUBSYSTEM_NATIVE: u16 = 1;

/// The graphical interface of Windows.
pub const IMAGE_SUBSYSTEM_WINDOWS_GUI: u16 = 2;

/// The text console of Windows.
pub const IMAGE_SUBSYSTEM_WINDOWS_CUI: u16 = 3;

/// The text console of OS/2.
pub const IMAGE_SUBSYSTEM_OS2_CUI: u16 = 5;

/// The text console of Posix.
pub const IMAGE_SUBSYSTEM_POSIX_CUI: u16 = 7;

/// Native drivers of Windows 9x.
pub const IMAGE_SUBSYSTEM_NATIVE_WINDOWS: u16 = 8;

/// Windows CE.
pub const IMAGE_SUBSYSTEM_WINDOWS_CE_GUI: u16 = 9;

/// An application of the extensible firmware interface.
pub const IMAGE_SUBSYSTEM_EFI_APPLICATION: u16 = 10;

/// A firmware driver with services at boot.
pub const IMAGE_SUBSYSTEM_EFI_BOOT_SERVICE_DRIVER: u16 = 11;

/// A firmware driver with services at run time.
pub const IMAGE_SUBSYSTEM_EFI_RUNTIME_DRIVER: u16 = 12;

/// A firmware image in read-only memory.
pub const IMAGE_SUBSYSTEM_EFI_ROM: u16 = 13;

/// Xbox.
pub const IMAGE_SUBSYSTEM_XBOX: u16 = 14;

/// An application that boots Windows.
pub const IMAGE_SUBSYSTEM_WINDOWS_BOOT_APPLICATION: u16 = 16;
