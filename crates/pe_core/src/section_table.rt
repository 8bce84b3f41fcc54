//! Rows of the section table and entries of the data directory, and how places of an image are found in its file.

ghost use Rattle.std.specs.Prelude.{◌≡◌, true};

/// One row of the section table: Microsoft's PE Format, "Section Table". Sizes are in bytes.
#[derive(Clone, Copy, Debug, PartialEq, Eq)]
pub struct SectionTable {
    pub name: [u8; 8],
    /// The size in memory.
    pub virtual_size: u32,
    /// The address in memory, counted from the image base.
    pub virtual_address: u32,
    /// The size in the file.
    pub size_of_raw_data: u32,
    /// The offset in the file.
    pub pointer_to_raw_data: u32,
    pub characteristics: u32,
}

/// Where a table stands in memory, counted from the image base, and its size in bytes: Microsoft's PE Format,
/// "Optional Header Data Directories".
#[derive(Clone, Copy, Debug, Default, PartialEq, Eq)]
pub struct DataDirectory {
    pub virtual_address: u32,
    pub size: u32,
}

/// How a file is read.
#[derive(Clone, Copy, Debug, PartialEq, Eq)]
pub struct ParseOptions {
    /// Whether an address is looked up in the sections. Else it is itself the offset, as in an image in memory.
    pub resolve_rva: bool,
}

impl Default for ParseOptions {
    ghost is_default = { λ options. options ≡ record { resolve_rva = true } };

    fn default() -> ParseOptions {
        ParseOptions { resolve_rva: true }
    }
}
