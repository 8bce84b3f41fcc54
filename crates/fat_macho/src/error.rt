//! Why a fat file is not made or read.

ghost use Rattle.std.specs.Prelude.{◌≡◌};
ghost use Rattle.fat_macho.specs.Errors.{error_from_goblin};
ghost use Rattle.fat_macho.specs.Texts.{io_text, case_text};
ghost use Rattle.fat_macho.specs.declared.error.Error.TheVariants.{OutOfMemory};

use std::alloc::{AllocError, AllocFailed};
use std::fmt;

/// Which call of the outside failed.
#[derive(Clone, Copy, Debug, PartialEq, Eq)]
pub enum IoCause {
    /// A source was not read.
    Source,
    /// A sink took nothing.
    Sink,
    /// A file was not opened.
    Open,
}

/// Why bytes are no image that a fat file can take, or no fat file.
#[derive(Clone, Copy, Debug, PartialEq, Eq)]
pub enum InvalidCase {
    /// They begin as nothing that is known.
    NotMachO,
    /// They end inside the header of a Mach-O file.
    ShortHeader,
    /// An entry of a fat file is a fat file.
    NestedFat,
    /// They are an archive.
    Archive,
    /// They are bitcode.
    Bitcode,
    /// They end inside the header of a fat file.
    ShortFatHeader,
    /// They end inside the table of a fat file.
    TablePastEnd,
    /// They end inside or before a slice of a fat file.
    SlicePastEnd,
    /// The entries of a fat file have 64 bits.
    Fat64,
}

/// Why a fat file is not made or read.
#[derive(Clone, Copy, Debug, PartialEq, Eq)]
pub enum Error {
    /// A call of the outside failed.
    Io(IoCause),
    /// A number of the file can't be read.
    Goblin(goblin_mach::Error),
    /// The bytes are no fat file.
    NotFatBinary,
    /// The bytes are no Mach-O file that can be taken, or no fat file.
    InvalidMachO(InvalidCase),
    /// A slice of that architecture is there already. It keeps the architecture's name, `unknown` where it has none.
    DuplicatedArch(&'static str),
    /// More slices than the table can count. It keeps how many they would be.
    TooMany { count: u64 },
    /// A longer file than can be told. It keeps how many bytes it would have.
    TooLarge { amount: u128 },
    /// Memory ran out.
    OutOfMemory,
}

fn io_text(cause: IoCause) -> &'static str
    ensures { result.now ≡ io_text cause }
{
    match cause {
        IoCause::Source => "reading failed",
        IoCause::Sink => "writing failed",
        IoCause::Open => "opening failed",
    }
}

fn case_text(case: InvalidCase) -> &'static str
    ensures { result.now ≡ case_text case }
{
    match case {
        InvalidCase::NotMachO => "input is not a macho file",
        InvalidCase::ShortHeader => "bytes size is smaller than a Mach-O header",
        InvalidCase::NestedFat => "fat binary nested inside a fat binary",
        InvalidCase::Archive => "archive input is unsupported",
        InvalidCase::Bitcode => "bitcode input is unsupported",
        InvalidCase::ShortFatHeader => "truncated fat header",
        InvalidCase::TablePastEnd => "fat arch table runs past the end of the input",
        InvalidCase::SlicePastEnd => "fat arch slice out of bounds",
        InvalidCase::Fat64 => "64-bit fat binaries are not supported",
    }
}

impl fmt::Display for IoCause {
    ghost use Rattle.std.specs.Prelude.{Some};
    ghost use Rattle.fat_macho.specs.Texts.{io_text};

    ghost output = { λ cause. Some (io_text cause) };

    fn fmt<W: fmt::Write>(&self, f: &mut fmt::Formatter<W>) -> fmt::Result {
        f.write_str(io_text(*self))
    }
}

impl fmt::Display for InvalidCase {
    ghost use Rattle.std.specs.Prelude.{Some};
    ghost use Rattle.fat_macho.specs.Texts.{case_text};

    ghost output = { λ case. Some (case_text case) };

    fn fmt<W: fmt::Write>(&self, f: &mut fmt::Formatter<W>) -> fmt::Result {
        f.write_str(case_text(*self))
    }
}

impl fmt::Display for Error {
    ghost use Rattle.fat_macho.specs.Texts.{error_text};

    ghost output = { error_text };

    fn fmt<W: fmt::Write>(&self, f: &mut fmt::Formatter<W>) -> fmt::Result {
        match self {
            Error::Io(cause) => write!(f, "{cause}"),
            Error::Goblin(cause) => write!(f, "{cause}"),
            Error::NotFatBinary => f.write_str("input is not a valid Mach-O fat binary"),
            Error::InvalidMachO(case) => write!(f, "{case}"),
            Error::DuplicatedArch(name) => write!(f, "duplicated architecture {name}"),
            Error::TooMany { count } => write!(f, "too many slices: {count}"),
            Error::TooLarge { amount } => write!(f, "too large file: {amount}"),
            Error::OutOfMemory => f.write_str("out of memory"),
        }
    }
}

impl std::error::Error for IoCause {}

impl std::error::Error for InvalidCase {}

impl std::error::Error for Error {}

impl From<goblin_mach::Error> for Error {
    ghost from_gives = { λ cause error. error ≡ error_from_goblin cause };

    fn from(cause: goblin_mach::Error) -> Error {
        match cause {
            goblin_mach::Error::OutOfMemory => Error::OutOfMemory,
            other => Error::Goblin(other),
        }
    }
}

impl From<AllocError> for Error {
    ghost from_gives = { λ _ error. error ≡ OutOfMemory };

    fn from(_error: AllocError) -> Error {
        Error::OutOfMemory
    }
}

impl<T: Drop> From<AllocFailed<T>> for Error {
    ghost from_gives = { λ _ error. error ≡ OutOfMemory };

    fn from(_error: AllocFailed<T>) -> Error {
        Error::OutOfMemory
    }
}
