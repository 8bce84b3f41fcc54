//! The numbers with which a Mach-O file begins, and the sizes of its header: Apple's
//! `mach-o/loader.h`, `struct mach_header` and `struct mach_header_64`. A magic number is written in
//! the byte order of the file; read big-endian, it tells that order.

/// A file of 32 bits, big-endian.
pub const MH_MAGIC: u32 = 0xfeed_face;
/// A file of 32 bits, little-endian.
pub const MH_CIGAM: u32 = 0xcefa_edfe;
/// A file of 64 bits, big-endian.
pub const MH_MAGIC_64: u32 = 0xfeed_facf;
/// A file of 64 bits, little-endian.
pub const MH_CIGAM_64: u32 = 0xcffa_edfe;

/// The size of the header of a file of 32 bits, in bytes.
pub const SIZEOF_HEADER_32: usize = 28;
/// The size of the header of a file of 64 bits, in bytes.
pub const SIZEOF_HEADER_64: usize = 32;
