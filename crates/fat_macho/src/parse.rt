//! What an input is, by its first bytes: Apple's `mach-o/loader.h` and `mach-o/fat.h`.

ghost use Rattle.std.specs.Prelude.{◌≡◌, ◌≤◌, ◌+◌, length, option_map, Some};
ghost use Rattle.fat_macho.specs.ClassView.{class_view, header_view};
ghost use Rattle.fat_macho.specs.Parse.{class_of, thin_class, other_class, thin_header, header_number};

use byte_core::u32_field;
use goblin_mach::{
    FAT_MAGIC, FAT_MAGIC_64, MH_CIGAM, MH_CIGAM_64, MH_MAGIC, MH_MAGIC_64, SIZEOF_HEADER_32,
    SIZEOF_HEADER_64, peek,
};

// The number with which bitcode begins, big-endian.
const BITCODE_MAGIC: u32 = 0xdec0_170b;

const ARCHIVE_MAGIC: [u8; 8] = *b"!<arch>\n";

/// What the first bytes of an input tell.
#[derive(Clone, Copy, Debug, PartialEq, Eq)]
pub enum InputClass {
    /// A file of one architecture.
    Thin { cputype: u32, cpusubtype: u32 },
    /// A file of one architecture that ends inside its header.
    Cut,
    /// A fat file. The entries of its table have 64 bits where `wide` is true.
    Fat { wide: bool },
    Bitcode,
    Archive,
    Unknown,
}

/// How a Mach-O file of one architecture begins.
#[derive(Clone, Copy, Debug, PartialEq, Eq)]
pub struct ThinHeader {
    /// Its numbers are big-endian.
    pub big: bool,
    /// Its size in bytes.
    pub size: usize,
}

/// The class of an input.
#[tactic(auto, unfolding(crate::specs::Parse::class_of))]
pub fn class_of(bytes: &[u8]) -> InputClass
    ensures { class_view result ≡ class_of bytes.now }
{
    let Ok(magic) = peek(bytes, 0) else {
        return InputClass::Unknown;
    };
    match thin_header(magic) {
        Some(header) => thin_class(bytes, header),
        None => other_class(bytes, magic),
    }
}

// The byte order and the size of the header that begins with this number, None where it begins no file of one architecture.
fn thin_header(magic: u32) -> Option<ThinHeader>
    ensures { option_map header_view result ≡ thin_header magic }
{
    let (big, size) = match magic {
        MH_MAGIC => (true, SIZEOF_HEADER_32),
        MH_CIGAM => (false, SIZEOF_HEADER_32),
        MH_MAGIC_64 => (true, SIZEOF_HEADER_64),
        MH_CIGAM_64 => (false, SIZEOF_HEADER_64),
        _ => return None,
    };
    Some(ThinHeader { big, size })
}

fn thin_class(bytes: &[u8], header: ThinHeader) -> InputClass
    requires { 12 ≤ header.size }
    ensures { class_view result ≡ thin_class bytes.now (Some (header_view header)) }
{
    if bytes.len() < header.size {
        return InputClass::Cut;
    }
    InputClass::Thin {
        cputype: header_number(bytes, header.big, 4),
        cpusubtype: header_number(bytes, header.big, 8),
    }
}

// The number of the four bytes at `at`.
fn header_number(bytes: &[u8], big: bool, at: usize) -> u32
    requires { at + 4 ≤ length bytes.now }
    ensures { result ≡ header_number big bytes.now at }
{
    if big {
        peek(bytes, at).unwrap()
    } else {
        u32_field(bytes, at)
    }
}

// The class of an input that begins with this number, which is no file of one architecture.
#[tactic(auto, unfolding(byte_core::specs::Number::bytes_at))]
fn other_class(bytes: &[u8], magic: u32) -> InputClass
    ensures { class_view result ≡ other_class bytes.now magic }
{
    match magic {
        FAT_MAGIC => InputClass::Fat { wide: false },
        FAT_MAGIC_64 => InputClass::Fat { wide: true },
        BITCODE_MAGIC => InputClass::Bitcode,
        _ if bytes.starts_with(&ARCHIVE_MAGIC) => InputClass::Archive,
        _ => InputClass::Unknown,
    }
}
