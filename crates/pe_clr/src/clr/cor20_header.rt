//! The CLR header: ECMA-335, partition II, "CLI header".

ghost use Rattle.std.specs.Prelude.{◌≡◌, ◌≤◌, ◌+◌, ◌==◌, not, length, bit_and};
ghost use Rattle.pe_clr.specs.Cor20.{cor20_at, cor20_fields_at, directory_at};

use crate::clr::{
    COMIMAGE_FLAGS_32BITPREFERRED, COMIMAGE_FLAGS_32BITREQUIRED, COMIMAGE_FLAGS_IL_LIBRARY,
    COMIMAGE_FLAGS_ILONLY, COMIMAGE_FLAGS_NATIVE_ENTRYPOINT, COMIMAGE_FLAGS_STRONGNAMESIGNED,
    COMIMAGE_FLAGS_TRACKDEBUGDATA,
};
use pe_core::pe_error::Error;
use pe_core::section_table::DataDirectory;
use pe_core::steps::{demand_bytes, u16_field, u32_field};

/// The size of the header in bytes.
const HEADER_SIZE: u32 = 72;

/// Where the parts of an image's CLR data stand.
#[derive(Clone, Copy, Debug, Default, PartialEq, Eq)]
pub struct Cor20Header {
    /// The size of this header in bytes.
    pub cb: u32,
    pub major_runtime_version: u16,
    pub minor_runtime_version: u16,
    pub metadata: DataDirectory,
    /// The runtime flags, `COMIMAGE_FLAGS_*`.
    pub flags: u32,
    /// A metadata token, or the address of native code where the flags say so. 0 where there is no entry point.
    pub entry_point_token_or_rva: u32,
    pub resources: DataDirectory,
    pub strong_name_signature: DataDirectory,
    pub code_manager_table: DataDirectory,
    pub vtable_fixups: DataDirectory,
    pub export_address_table_jumps: DataDirectory,
    pub managed_native_header: DataDirectory,
}

impl Cor20Header {
    /// The header of 72 bytes at `offset`. BufferTooShort where the bytes end before it does.
    pub fn parse(bytes: &[u8], offset: usize) -> Result<Self, Error>
        ensures { result ≡ cor20_at bytes.now offset }
    {
        demand_bytes(bytes, offset, HEADER_SIZE as usize)?;
        Ok(header_fields(bytes, offset))
    }

    /// Whether the stored size is that of this header.
    pub fn is_cb_correct(&self) -> bool
        ensures { result ≡ (self.now.cb == 72) }
    {
        self.cb == HEADER_SIZE
    }

    /// Whether the image has no native code.
    pub fn is_il_only(&self) -> bool
        ensures { result ≡ not (bit_and self.now.flags COMIMAGE_FLAGS_ILONLY == 0) }
    {
        self.flags & COMIMAGE_FLAGS_ILONLY != 0
    }

    /// Whether the image runs in processes of 32 bits alone.
    pub fn is_32bit_required(&self) -> bool
        ensures { result ≡ not (bit_and self.now.flags COMIMAGE_FLAGS_32BITREQUIRED == 0) }
    {
        self.flags & COMIMAGE_FLAGS_32BITREQUIRED != 0
    }

    /// Whether the image is a library of intermediate code.
    pub fn is_il_library(&self) -> bool
        ensures { result ≡ not (bit_and self.now.flags COMIMAGE_FLAGS_IL_LIBRARY == 0) }
    {
        self.flags & COMIMAGE_FLAGS_IL_LIBRARY != 0
    }

    /// Whether the image has a strong name signature.
    pub fn is_strong_name_signed(&self) -> bool
        ensures { result ≡ not (bit_and self.now.flags COMIMAGE_FLAGS_STRONGNAMESIGNED == 0) }
    {
        self.flags & COMIMAGE_FLAGS_STRONGNAMESIGNED != 0
    }

    /// Whether the entry point is native code.
    pub fn is_native_entrypoint(&self) -> bool
        ensures { result ≡ not (bit_and self.now.flags COMIMAGE_FLAGS_NATIVE_ENTRYPOINT == 0) }
    {
        self.flags & COMIMAGE_FLAGS_NATIVE_ENTRYPOINT != 0
    }

    /// Whether the runtime keeps data for debuggers.
    pub fn is_track_debug_data(&self) -> bool
        ensures { result ≡ not (bit_and self.now.flags COMIMAGE_FLAGS_TRACKDEBUGDATA == 0) }
    {
        self.flags & COMIMAGE_FLAGS_TRACKDEBUGDATA != 0
    }

    /// Whether the image prefers a process of 32 bits.
    pub fn is_32bit_preferred(&self) -> bool
        ensures { result ≡ not (bit_and self.now.flags COMIMAGE_FLAGS_32BITPREFERRED == 0) }
    {
        self.flags & COMIMAGE_FLAGS_32BITPREFERRED != 0
    }
}

#[tactic(auto, unfolding(crate::specs::Cor20::cor20_fields_at))]
fn header_fields(bytes: &[u8], at: usize) -> Cor20Header
    requires { at + 72 ≤ length bytes.now }
    ensures { result ≡ cor20_fields_at bytes.now at }
{
    Cor20Header {
        cb: u32_field(bytes, at),
        major_runtime_version: u16_field(bytes, at + 4),
        minor_runtime_version: u16_field(bytes, at + 6),
        metadata: directory(bytes, at + 8),
        flags: u32_field(bytes, at + 16),
        entry_point_token_or_rva: u32_field(bytes, at + 20),
        resources: directory(bytes, at + 24),
        strong_name_signature: directory(bytes, at + 32),
        code_manager_table: directory(bytes, at + 40),
        vtable_fixups: directory(bytes, at + 48),
        export_address_table_jumps: directory(bytes, at + 56),
        managed_native_header: directory(bytes, at + 64),
    }
}

#[tactic(auto, unfolding(crate::specs::Cor20::directory_at))]
fn directory(bytes: &[u8], at: usize) -> DataDirectory
    requires { at + 8 ≤ length bytes.now }
    ensures { result ≡ directory_at bytes.now at }
{
    DataDirectory {
        virtual_address: u32_field(bytes, at),
        size: u32_field(bytes, at + 4),
    }
}
