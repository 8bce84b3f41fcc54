//! CLR metadata: ECMA-335, partition II, "CLI header" and "Metadata root".

mod cor20_header;
mod metadata_root;
mod storage;
mod streams;

pub use cor20_header::Cor20Header;
use metadata_root::metadata_at;
use pe_core::pe_error::Error;
use pe_core::rva::offset_or_refusal;
use pe_core::section_table::{DataDirectory, ParseOptions, SectionTable};
pub use storage::{StorageHeader, StorageSignature, StorageStream};
pub use streams::ClrSectionIterator;
use streams::{first_named, stream_bytes};

/// `BSJB`, with which metadata begins.
pub const DOTNET_SIGNATURE: u32 = 0x424a_5342;

/// The image has intermediate code alone.
pub const COMIMAGE_FLAGS_ILONLY: u32 = 0x00000001;

/// The image runs in processes of 32 bits alone.
pub const COMIMAGE_FLAGS_32BITREQUIRED: u32 = 0x00000002;

/// The image is a library of intermediate code.
pub const COMIMAGE_FLAGS_IL_LIBRARY: u32 = 0x00000004;

/// The image has a strong name signature.
pub const COMIMAGE_FLAGS_STRONGNAMESIGNED: u32 = 0x00000008;

/// The entry point is native code.
pub const COMIMAGE_FLAGS_NATIVE_ENTRYPOINT: u32 = 0x00000010;

/// The runtime keeps data for debuggers.
pub const COMIMAGE_FLAGS_TRACKDEBUGDATA: u32 = 0x00010000;

/// The image prefers a process of 32 bits, and runs in one of 64.
pub const COMIMAGE_FLAGS_32BITPREFERRED: u32 = 0x00020000;

/// The major version of the second runtime.
pub const COR_VERSION_MAJOR_V2: u32 = 2;

/// The major version of the runtime.
pub const COR_VERSION_MAJOR: u32 = COR_VERSION_MAJOR_V2;

/// The minor version of the runtime.
pub const COR_VERSION_MINOR: u32 = 5;

/// The length of a deleted name.
pub const COR_DELETED_NAME_LENGTH: u32 = 8;

/// The length of the name of a gap in a virtual table.
pub const COR_VTABLEGAP_NAME_LENGTH: u32 = 8;

/// Entries of 32 bits.
pub const COR_VTABLE_32BIT: u32 = 0x01;

/// Entries of 64 bits.
pub const COR_VTABLE_64BIT: u32 = 0x02;

/// The entries are called from native code.
pub const COR_VTABLE_FROM_UNMANAGED: u32 = 0x04;

/// Calls from native code keep their application domain.
pub const COR_VTABLE_FROM_UNMANAGED_RETAIN_APPDOMAIN: u32 = 0x08;

/// The most derived method is called.
pub const COR_VTABLE_CALL_MOST_DERIVED: u32 = 0x10;

/// The CLR data of an image.
#[derive(Clone, Copy, Debug, Default, PartialEq)]
pub struct ClrData<'a> {
    /// The number with which the metadata begins, `DOTNET_SIGNATURE` where it is metadata.
    pub signature: u32,
    pub cor20_header: Cor20Header,
    pub storage_header: StorageHeader,
    pub metadata_header: StorageSignature<'a>,
    /// The rows of the streams and the streams, from the storage header's end up to the metadata's end.
    pub metadata_data: &'a [u8],
    /// How many bytes of the metadata stand before these.
    pub offset_of_metadata: usize,
}

impl<'a> ClrData<'a> {
    ghost use Rattle.std.specs.Prelude.{◌≡◌, ◌==◌, true};
    ghost use Rattle.pe_core.specs.Steps.{Gives};
    ghost use Rattle.std.specs.Option.{option_copied};
    ghost use Rattle.pe_clr.specs.Clr.{clr_view, clr_of};
    ghost use Rattle.pe_clr.specs.Streams.{rows_counted, streams_counted, mvid_among};

    /// The CLR data that the directory names, by the sections.
    pub fn parse(
        bytes: &'a [u8],
        dd: &DataDirectory,
        sections: &[SectionTable],
        file_alignment: u32,
    ) -> Result<ClrData<'a>, Error>
        ensures { Gives clr_view result (clr_of bytes.now dd.now sections.now file_alignment (record { resolve_rva = true })) }
    {
        ClrData::parse_with_opts(
            bytes,
            dd,
            sections,
            file_alignment,
            &ParseOptions::default(),
        )
    }

    /// The CLR data that the directory names. NoOffset where the header or the metadata has no offset; BufferTooShort
    /// where the bytes end before a field or the version; MetadataRange where the metadata passes the file, or its headers
    /// pass the metadata; BadText where the version isn't UTF-8. The first that holds, in the order of the fields.
    #[tactic(auto, unfolding(crate::specs::Clr::clr_of))]
    pub fn parse_with_opts(
        bytes: &'a [u8],
        dd: &DataDirectory,
        sections: &[SectionTable],
        file_alignment: u32,
        opts: &ParseOptions,
    ) -> Result<ClrData<'a>, Error>
        ensures { Gives clr_view result (clr_of bytes.now dd.now sections.now file_alignment opts.now) }
    {
        let offset = offset_or_refusal(
            u64::from(dd.virtual_address),
            sections,
            file_alignment,
            opts,
        )?;
        let header = Cor20Header::parse(bytes, offset)?;
        let address = u64::from(header.metadata.virtual_address);
        let start = offset_or_refusal(address, sections, file_alignment, opts)?;
        metadata_at(bytes, header, start, header.metadata.size as usize)
    }

    /// Whether the metadata begins with its signature.
    pub fn is_valid(&self) -> bool
        ensures { result ≡ (self.now.signature == DOTNET_SIGNATURE) }
    {
        self.signature == DOTNET_SIGNATURE
    }

    /// The streams in order, up to and with the first error. None where `metadata_data` is empty.
    pub fn sections(&self) -> ClrSectionIterator<'a>
        ensures { let n = self.now.storage_header.streams in
            result ≡ record { count = n; left = rows_counted self.now.metadata_data.now n; answers = streams_counted self.now.metadata_data.now n } }
    {
        ClrSectionIterator::new(self.storage_header, self.metadata_data)
    }

    /// The module's version identifier: the bytes of the first stream named `#GUID`, None where no stream has that name.
    /// An error of a stream before it is the answer; StreamBeforeMetadata where its offset lies before `metadata_data`;
    /// BufferTooShort where its bytes pass the end.
    #[tactic(auto, unfolding(crate::specs::Streams::mvid_among))]
    pub fn mvid(&self) -> Result<Option<&'a [u8]>, Error>
        ensures { Gives option_copied result (mvid_among self.now.metadata_data.now self.now.offset_of_metadata (streams_counted self.now.metadata_data.now self.now.storage_header.streams)) }
    {
        match first_named(self.sections(), "#GUID")? {
            Some(stream) => {
                let bytes = stream_bytes(self.metadata_data, self.offset_of_metadata, stream)?;
                Ok(Some(bytes))
            }
            None => Ok(None),
        }
    }
}
