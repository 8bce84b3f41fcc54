//! The directory of thread-local storage: Microsoft's PE Format, "The TLS Directory".

ghost use Rattle.std.specs.Prelude.{◌≡◌, ◌≤◌, ◌+◌, ◌*◌, length};
ghost use Rattle.goblin_pe.specs.Tls.{tls_fields_at};

use pe_core::pe_error::Error;
use pe_core::rva::offset_or_refusal;
use pe_core::section_table::{DataDirectory, ParseOptions, SectionTable};
use pe_core::steps::{address_width, demand_bytes, number_field, u32_field};

/// Where the thread-local data of an image stands. Addresses are those of the image in memory, 0 where there is none.
#[derive(Clone, Copy, Debug, Default, PartialEq, Eq)]
pub struct ImageTlsDirectory {
    pub start_address_of_raw_data: u64,
    pub end_address_of_raw_data: u64,
    pub address_of_index: u64,
    pub address_of_callbacks: u64,
    /// How many zero bytes follow the raw data.
    pub size_of_zero_fill: u32,
    /// The alignment of the raw data, `TLS_CHARACTERISTICS_ALIGN_*`.
    pub characteristics: u32,
}

impl ImageTlsDirectory {
    ghost use Rattle.std.specs.Prelude.{◌≡◌, true};
    ghost use Rattle.goblin_pe.specs.Tls.{tls_directory_of};

    /// The directory that the entry names, by the sections.
    pub fn parse(
        bytes: &[u8],
        dd: DataDirectory,
        sections: &[SectionTable],
        file_alignment: u32,
        is_64: bool,
    ) -> Result<Self, Error>
        ensures { result ≡ tls_directory_of bytes.now dd sections.now file_alignment (record { resolve_rva = true }) is_64 }
    {
        ImageTlsDirectory::parse_with_opts(
            bytes,
            dd,
            sections,
            file_alignment,
            &ParseOptions::default(),
            is_64,
        )
    }

    /// The directory that the entry names. NoOffset where it has no offset; BufferTooShort where it passes the end.
    #[tactic(auto, unfolding(crate::specs::Tls::tls_directory_of))]
    pub fn parse_with_opts(
        bytes: &[u8],
        dd: DataDirectory,
        sections: &[SectionTable],
        file_alignment: u32,
        opts: &ParseOptions,
        is_64: bool,
    ) -> Result<Self, Error>
        ensures { result ≡ tls_directory_of bytes.now dd sections.now file_alignment opts.now is_64 }
    {
        let place = offset_or_refusal(
            u64::from(dd.virtual_address),
            sections,
            file_alignment,
            opts,
        )?;
        let width = address_width(is_64);
        demand_bytes(bytes, place, 4 * width + 8)?;
        Ok(directory_fields(bytes, place, width))
    }
}

#[tactic(auto, unfolding(crate::specs::Tls::tls_fields_at))]
fn directory_fields(bytes: &[u8], at: usize, w: usize) -> ImageTlsDirectory
    requires width { w ≤ 8 }
    requires inside { at + (4 * w + 8) ≤ length bytes.now }
    ensures { result ≡ tls_fields_at bytes.now at w }
{
    ImageTlsDirectory {
        start_address_of_raw_data: number_field(bytes, at, w),
        end_address_of_raw_data: number_field(bytes, at + w, w),
        address_of_index: number_field(bytes, at + 2 * w, w),
        address_of_callbacks: number_field(bytes, at + 3 * w, w),
        size_of_zero_fill: u32_field(bytes, at + 4 * w),
        characteristics: u32_field(bytes, at + 4 * w + 4),
    }
}
