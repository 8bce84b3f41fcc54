//! Thread-local storage: Microsoft's PE Format, "The .tls Section".

mod callback_list;
mod directory;
mod mapping;

use callback_list::callbacks;
pub use directory::ImageTlsDirectory;
use mapping::{AddressMap, raw_data, slot};
use pe_core::pe_error::Error;
use pe_core::section_table::{DataDirectory, ParseOptions, SectionTable};
use pe_core::steps::address_width;
use std::alloc::Global;

/// Raw data stands anywhere.
pub const TLS_CHARACTERISTICS_ALIGN_1BYTES: u32 = 0x0010_0000;

/// Raw data stands at a multiple of 2 bytes.
pub const TLS_CHARACTERISTICS_ALIGN_2BYTES: u32 = 0x0020_0000;

/// Raw data stands at a multiple of 4 bytes.
pub const TLS_CHARACTERISTICS_ALIGN_4BYTES: u32 = 0x0030_0000;

/// Raw data stands at a multiple of 8 bytes.
pub const TLS_CHARACTERISTICS_ALIGN_8BYTES: u32 = 0x0040_0000;

/// Raw data stands at a multiple of 16 bytes.
pub const TLS_CHARACTERISTICS_ALIGN_16BYTES: u32 = 0x0050_0000;

/// Raw data stands at a multiple of 32 bytes.
pub const TLS_CHARACTERISTICS_ALIGN_32BYTES: u32 = 0x0060_0000;

/// Raw data stands at a multiple of 64 bytes.
pub const TLS_CHARACTERISTICS_ALIGN_64BYTES: u32 = 0x0070_0000;

/// Raw data stands at a multiple of 128 bytes.
pub const TLS_CHARACTERISTICS_ALIGN_128BYTES: u32 = 0x0080_0000;

/// Raw data stands at a multiple of 256 bytes.
pub const TLS_CHARACTERISTICS_ALIGN_256BYTES: u32 = 0x0090_0000;

/// Raw data stands at a multiple of 512 bytes.
pub const TLS_CHARACTERISTICS_ALIGN_512BYTES: u32 = 0x00a0_0000;

/// Raw data stands at a multiple of 1024 bytes.
pub const TLS_CHARACTERISTICS_ALIGN_1024BYTES: u32 = 0x00b0_0000;

/// Raw data stands at a multiple of 2048 bytes, in the crate goblin, whose value this is; PE Format gives 2048 bytes the
/// number of `TLS_CHARACTERISTICS_ALIGN_4096BYTES`.
pub const TLS_CHARACTERISTICS_ALIGN_2048BYTES: u32 = 0x00d0_0000;

/// Raw data stands at a multiple of 4096 bytes, in the crate goblin, whose value this is; PE Format gives 4096 bytes the
/// number of `TLS_CHARACTERISTICS_ALIGN_2048BYTES`.
pub const TLS_CHARACTERISTICS_ALIGN_4096BYTES: u32 = 0x00c0_0000;

/// Raw data stands at a multiple of 8192 bytes.
pub const TLS_CHARACTERISTICS_ALIGN_8192BYTES: u32 = 0x00e0_0000;

/// The bits that give the alignment.
pub const TLS_CHARACTERISTICS_ALIGN_MASK: u32 = 0x00f0_0000;

/// The thread-local data of an image.
#[derive(Debug, Drop, PartialEq)]
pub struct TlsData<'a> {
    pub image_tls_directory: ImageTlsDirectory,
    /// What each thread's data begins with.
    pub raw_data: Option<&'a [u8]>,
    /// The number of the image's slot.
    pub slot: Option<u32>,
    /// The addresses of functions that are called as threads come and go.
    pub callbacks: Vec<u64>,
}

impl<'a> TlsData<'a> {
    ghost use Rattle.std.specs.Prelude.{◌≡◌, true};
    ghost use Rattle.std.specs.Option.{option_map};
    ghost use Rattle.pe_core.specs.Steps.{GivesOrMemory, address_width};
    ghost use Rattle.goblin_pe.specs.Tls.{tls_view, tls_of, named_by};
    ghost use Rattle.goblin_pe.specs.AddressMap.{map_view};

    /// The thread-local data that the directory names, by the sections.
    pub fn parse(
        alloc: Global,
        bytes: &'a [u8],
        image_base: u64,
        dd: &DataDirectory,
        sections: &[SectionTable],
        file_alignment: u32,
        is_64: bool,
    ) -> Result<Option<TlsData<'a>>, Error>
        ensures { GivesOrMemory (option_map tls_view) result (tls_of bytes.now image_base dd.now sections.now file_alignment (record { resolve_rva = true }) is_64) }
    {
        TlsData::parse_with_opts(
            alloc,
            bytes,
            image_base,
            dd,
            sections,
            file_alignment,
            &ParseOptions::default(),
            is_64,
        )
    }

    /// The thread-local data that the directory names, always Some where nothing is refused. NoOffset where the directory,
    /// the callbacks or a callback has no offset; BufferTooShort where the bytes end before a field or before the zero
    /// behind the callbacks; TlsOrder where the raw data starts above its end; BelowBase where an address is below the
    /// image base; OutOfMemory where the callbacks find no memory. The first that holds, in the order of the fields.
    #[tactic(auto, unfolding(crate::specs::Tls::tls_of))]
    pub fn parse_with_opts(
        alloc: Global,
        bytes: &'a [u8],
        image_base: u64,
        dd: &DataDirectory,
        sections: &[SectionTable],
        file_alignment: u32,
        opts: &ParseOptions,
        is_64: bool,
    ) -> Result<Option<TlsData<'a>>, Error>
        ensures { GivesOrMemory (option_map tls_view) result (tls_of bytes.now image_base dd.now sections.now file_alignment opts.now is_64) }
    {
        let directory = ImageTlsDirectory::parse_with_opts(
            bytes,
            *dd,
            sections,
            file_alignment,
            opts,
            is_64,
        )?;
        let map = AddressMap {
            image_base,
            sections,
            file_alignment,
            opts,
        };
        TlsData::named_by(alloc, bytes, &map, is_64, directory)
    }

    #[tactic(auto, unfolding(crate::specs::Tls::named_by))]
    fn named_by(
        alloc: Global,
        bytes: &'a [u8],
        map: &AddressMap,
        is_64: bool,
        directory: ImageTlsDirectory,
    ) -> Result<Option<TlsData<'a>>, Error>
        ensures { GivesOrMemory (option_map tls_view) result (named_by bytes.now (map_view map.now) (address_width is_64) directory) }
    {
        let raw_data = raw_data(
            bytes,
            map,
            directory.start_address_of_raw_data,
            directory.end_address_of_raw_data,
        )?;
        let slot = slot(bytes, map, directory.address_of_index)?;
        let callbacks = callbacks(alloc, bytes, map, is_64, directory.address_of_callbacks)?;
        Ok(Some(TlsData {
            image_tls_directory: directory,
            raw_data,
            slot,
            callbacks,
        }))
    }
}
