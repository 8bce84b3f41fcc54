//! The headers of CLR metadata: ECMA-335, partition II, "Metadata root" and "Stream header".

ghost use Rattle.std.specs.Prelude.{◌≡◌, ◌≤◌, ◌<◌, ◌+◌, ◌==◌, length, drop, IfOk, IfSome, OnErr, OnOk};
ghost use Rattle.std.specs.List.{position_from};
ghost use Rattle.pe_core.specs.Steps.{Gives};
ghost use Rattle.pe_clr.specs.Storage.{storage_header_at, text_or_bad, sized_text_at, ended_text_at, signature_end, stream_end};

use crate::clr::DOTNET_SIGNATURE;
use pe_core::pe_error::{Case, Error};
use pe_core::steps::{demand_bytes, u8_field, u16_at, u16_field, u32_at};

/// The size of a storage signature without its version.
const SIGNATURE_SIZE: usize = 16;

pub const STORAGE_HEADER_SIZE: usize = 4;
/// The size of what stands before a stream's name.
const STREAM_NUMBERS_SIZE: usize = 8;
/// Rows of streams begin at multiples of this.
const ROW_ALIGN: usize = 4;

/// The beginning of the metadata root. `version` has `version_len` bytes.
#[derive(Clone, Copy, Debug, Default, PartialEq, Eq)]
pub struct StorageSignature<'a> {
    pub signature: u32,
    pub major_version: u16,
    pub minor_version: u16,
    pub extra_data: u32,
    pub version_len: u32,
    pub version: &'a str,
}

impl<'a> StorageSignature<'a> {
    ghost use Rattle.std.specs.Prelude.{◌≡◌, ◌≤◌, ◌==◌, length, IfOk, OnErr, OnOk};
    ghost use Rattle.pe_core.specs.Steps.{Gives};
    ghost use Rattle.pe_clr.specs.Storage.{storage_signature_at, signature_view, signature_end};

    /// The signature at `offset`, which then is its end. After a refusal `offset` stays. BufferTooShort where the bytes
    /// end before a field or the version; BadText where the version isn't UTF-8.
    pub fn parse(bytes: &'a [u8], offset: &mut usize) -> Result<StorageSignature<'a>, Error>
        ensures read { Gives signature_view result (storage_signature_at bytes.now offset.old) }
        ensures moved { IfOk result (λ s. offset.new ≡ signature_end offset.old s.version_len) }
        ensures inside { OnOk result (offset.new ≤ length bytes.now) }
        ensures stays { OnErr result (offset.new ≡ offset.old) }
    {
        let signature = StorageSignature::at(bytes, *offset)?;
        *offset += SIGNATURE_SIZE + signature.version_len as usize;
        Ok(signature)
    }

    /// Whether the signature is that of metadata.
    pub fn is_valid(&self) -> bool
        ensures { result ≡ (self.now.signature == DOTNET_SIGNATURE) }
    {
        self.signature == DOTNET_SIGNATURE
    }

    #[tactic(auto, unfolding(crate::specs::Storage::storage_signature_at))]
    fn at(bytes: &'a [u8], at: usize) -> Result<StorageSignature<'a>, Error>
        ensures read { Gives signature_view result (storage_signature_at bytes.now at) }
        ensures inside { IfOk result (λ s. signature_end at s.version_len ≤ length bytes.now) }
    {
        let signature = u32_at(bytes, at)?;
        let major_version = u16_at(bytes, at + 4)?;
        let minor_version = u16_at(bytes, at + 6)?;
        let extra_data = u32_at(bytes, at + 8)?;
        let version_len = u32_at(bytes, at + 12)?;
        let version = sized_text(bytes, at + SIGNATURE_SIZE, version_len as usize)?;
        Ok(StorageSignature {
            signature,
            major_version,
            minor_version,
            extra_data,
            version_len,
            version,
        })
    }
}

/// What follows the version in the metadata root.
#[derive(Clone, Copy, Debug, Default, PartialEq, Eq)]
pub struct StorageHeader {
    pub flags: u8,
    pub reserved: u8,
    /// How many streams there are.
    pub streams: u16,
}

/// The storage header at `at`.
pub fn storage_header(bytes: &[u8], at: usize) -> Result<StorageHeader, Error>
    ensures read { result ≡ storage_header_at bytes.now at }
    ensures inside { OnOk result (at + 4 ≤ length bytes.now) }
{
    demand_bytes(bytes, at, STORAGE_HEADER_SIZE)?;
    Ok(StorageHeader {
        flags: u8_field(bytes, at),
        reserved: u8_field(bytes, at + 1),
        streams: u16_field(bytes, at + 2),
    })
}

/// Where a stream stands, in bytes from the metadata's start, and its name.
#[derive(Clone, Copy, Debug, Default, PartialEq, Eq)]
pub struct StorageStream<'a> {
    pub offset: u32,
    pub size: u32,
    pub name: &'a str,
}

impl<'a> StorageStream<'a> {
    ghost use Rattle.std.specs.Prelude.{◌≡◌, ◌≤◌, ◌+◌, length, IfOk, OnErr};
    ghost use Rattle.pe_core.specs.Steps.{Gives};
    ghost use Rattle.pe_clr.specs.Storage.{storage_stream_at, stream_view, stream_end};

    /// The stream's row at `offset`, which then is the place of the next row. After a refusal `offset` stays.
    /// BufferTooShort where the bytes end before a number; NoTextEnd where no zero byte ends the name; BadText where it
    /// isn't UTF-8.
    pub fn parse(bytes: &'a [u8], offset: &mut usize) -> Result<StorageStream<'a>, Error>
        ensures read { Gives stream_view result (storage_stream_at bytes.now offset.old) }
        ensures moved { IfOk result (λ s. offset.new ≡ stream_end offset.old s.name.now) }
        ensures stays { OnErr result (offset.new ≡ offset.old) }
    {
        let stream = StorageStream::at(bytes, *offset)?;
        let end = *offset + STREAM_NUMBERS_SIZE + stream.name.len() + 1;
        *offset = end + (ROW_ALIGN - end % ROW_ALIGN) % ROW_ALIGN;
        Ok(stream)
    }

    #[tactic(auto, unfolding(crate::specs::Storage::storage_stream_at))]
    fn at(bytes: &'a [u8], at: usize) -> Result<StorageStream<'a>, Error>
        ensures read { Gives stream_view result (storage_stream_at bytes.now at) }
        ensures inside { IfOk result (λ s. at + 8 + length s.name.now + 1 ≤ length bytes.now) }
    {
        let offset = u32_at(bytes, at)?;
        let size = u32_at(bytes, at + 4)?;
        let name = ended_text(bytes, at + STREAM_NUMBERS_SIZE)?;
        Ok(StorageStream { offset, size, name })
    }
}

/// The `size` bytes at `at` as a text.
#[tactic(auto, unfolding(crate::specs::Storage::sized_text_at, byte_core::specs::Number::bytes_at))]
fn sized_text(bytes: &[u8], at: usize, size: usize) -> Result<&str, Error>
    ensures text { Gives (λ text. text.now) result (sized_text_at bytes.now at size) }
    ensures inside { OnOk result (at + size ≤ length bytes.now) }
{
    demand_bytes(bytes, at, size)?;
    text(&bytes[at..at + size])
}

/// The bytes from `at` up to the first zero byte as a text.
fn ended_text(bytes: &[u8], at: usize) -> Result<&str, Error>
    requires { at ≤ length bytes.now }
    ensures text { Gives (λ text. text.now) result (ended_text_at bytes.now at) }
    ensures inside { IfOk result (λ text. at + length text.now + 1 ≤ length bytes.now) }
{
    let rest = &bytes[at..];
    match first_zero(rest) {
        Some(size) => text(&rest[..size]),
        None => Err(Error::Malformed(Case::NoTextEnd)),
    }
}

fn first_zero(bytes: &[u8]) -> Option<usize>
    ensures first { result ≡ position_from (λ x. x == 0) 0 bytes.now }
    ensures inside { IfSome result (λ n. n < length bytes.now) }
{
    bytes.iter().position(|byte| *byte == 0)
}

fn text(bytes: &[u8]) -> Result<&str, Error>
    ensures text { Gives (λ text. text.now) result (text_or_bad bytes.now) }
    ensures same { IfOk result (λ text. text.now ≡ bytes.now) }
{
    match str::from_utf8(bytes) {
        Ok(text) => Ok(text),
        Err(_) => Err(Error::Malformed(Case::BadText)),
    }
}
