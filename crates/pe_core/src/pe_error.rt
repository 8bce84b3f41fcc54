//! Why a PE file is refused.

ghost use Rattle.std.specs.Prelude.{◌≡◌, Some};
ghost use Rattle.pe_core.specs.declared.pe_error.Error.TheVariants.{OutOfMemory};

use std::alloc::{AllocError, AllocFailed};
use std::fmt;

/// What is wrong with a file. A number that it keeps is the one that was tested.
#[derive(Clone, Copy, Debug, PartialEq, Eq)]
pub enum Case {
    /// A relative virtual address that no section holds, or a file alignment that is no power of two.
    NoOffset(u64),
    /// The CLR metadata, or the headers in it, pass their end.
    MetadataRange,
    /// A text that isn't UTF-8.
    BadText,
    /// A stream's name without a zero byte behind it.
    NoTextEnd,
    /// A stream that begins before the place from which streams are counted.
    StreamBeforeMetadata,
    /// A load configuration of fewer than 4 bytes.
    TooSmall,
    /// A directory that passes the end of the file.
    DirectoryRange,
    /// Raw data whose start is above its end.
    TlsOrder,
    /// An address below the image base.
    BelowBase(u64),
    /// The places that a signature leaves out aren't in order inside the file.
    HeaderPlaces,
    /// The section of this number, from 0, passes the end of the file.
    SectionRange(usize),
    /// The certificates pass the end of the file.
    CertificateRange,
}

/// Why a reader gives no value.
#[derive(Clone, Copy, Debug, PartialEq, Eq)]
pub enum Error {
    Malformed(Case),
    /// The bytes end before a field.
    BufferTooShort,
    OutOfMemory,
}

impl From<AllocError> for Error {
    ghost from_gives = { λ _ error. error ≡ OutOfMemory };

    fn from(_error: AllocError) -> Error {
        Error::OutOfMemory
    }
}

impl<T: Drop> From<AllocFailed<T>> for Error {
    ghost from_gives = { λ _ error. error ≡ OutOfMemory };

    fn from(_error: AllocFailed<T>) -> Error {
        Error::OutOfMemory
    }
}

impl fmt::Display for Case {
    ghost use Rattle.pe_core.specs.Texts.{case_text};

    ghost output = { λ case. Some (case_text case) };

    fn fmt<W: fmt::Write>(&self, f: &mut fmt::Formatter<W>) -> fmt::Result {
        match self {
            Case::NoOffset(rva) => {
                write!(f, "no offset for the relative virtual address 0x{rva:x}")
            }
            Case::MetadataRange => f.write_str("CLR metadata past its end"),
            Case::BadText => f.write_str("text that is not UTF-8"),
            Case::NoTextEnd => f.write_str("stream name without an end"),
            Case::StreamBeforeMetadata => f.write_str("CLR stream before the metadata"),
            Case::TooSmall => f.write_str("load configuration too small"),
            Case::DirectoryRange => f.write_str("directory past the end of the file"),
            Case::TlsOrder => f.write_str("thread-local data ends before it starts"),
            Case::BelowBase(address) => write!(f, "address 0x{address:x} below the image base"),
            Case::HeaderPlaces => f.write_str("excluded places out of order"),
            Case::SectionRange(i) => write!(f, "section {i} past the end of the file"),
            Case::CertificateRange => f.write_str("certificates past the end of the file"),
        }
    }
}

impl fmt::Display for Error {
    ghost use Rattle.pe_core.specs.Texts.{error_text};

    ghost output = { λ error. Some (error_text error) };

    fn fmt<W: fmt::Write>(&self, f: &mut fmt::Formatter<W>) -> fmt::Result {
        match self {
            Error::Malformed(case) => write!(f, "malformed: {case}"),
            Error::BufferTooShort => f.write_str("buffer too short"),
            Error::OutOfMemory => f.write_str("out of memory"),
        }
    }
}

impl std::error::Error for Case {}

impl std::error::Error for Error {}
