//! A fat file whose table lies in it: `fat_header`, `fat_arch` and `fat_arch_64`. All its numbers are big-endian.

ghost use Rattle.std.specs.Prelude.{◌≡◌, ◌==◌, ◌≤◌, ◌<◌, ◌+◌, ◌*◌, ◌^◌, ◌↔◌, nat_le, length, IsSome, IfSome, IfNone};
ghost use Rattle.byte_core.specs.Number.{bytes_at, big_number_at};
ghost use Rattle.image_read.specs.FatFile.{fat_count, has_wide_entries, fat_table_end, narrow_entry_at, wide_entry_at, fat_entry};
ghost use Rattle.image_read.specs.FatRows.{IsFatMagic, HasFatTable, SameFatEntry};

use byte_core::be_at;
use std::marker::Model;

const FAT_MAGIC: u32 = 0xcafe_babe;

const FAT_MAGIC_64: u32 = 0xcafe_babf;

// The size of the header in bytes; the table stands behind it.
const HEADER_SIZE: usize = 8;

// The sizes of an entry of each width, in bytes.
const ENTRY_SIZE: usize = 20;

const ENTRY_64_SIZE: usize = 32;

/// A file whose table lies in it. A contract sees the bytes of the file.
#[derive(Debug, Drop)]
pub struct FatFile<'a> {
    bytes: &'a [u8],
    // The entries have 64 bits.
    wide: bool,
    count: u32,
}

impl<'a> Model for FatFile<'a> {
    ghost use Rattle.std.specs.Prelude.{List, ℕ};
    ghost use Rattle.image_read.specs.FatFileView.{IsFatFile};

    ghost Value = { List ℕ };

    ghost view = { λ file. file.bytes.now };

    ghost invariant = { IsFatFile };
}

impl<'a> FatFile<'a> {
    /// The file, None where it doesn't begin as a fat file or its table leaves it.
    pub fn new(bytes: &'a [u8]) -> Option<FatFile<'a>>
        ensures bytes { IfSome result (λ file. file ≡ bytes.now) }
        ensures exact { IsSome result ↔ HasFatTable bytes.now }
    {
        if bytes.len() < HEADER_SIZE {
            return None;
        }
        let wide = has_wide_entries(big_u32(bytes, 0))?;
        let count = big_u32(bytes, 4);
        if table_end(wide, count) > bytes.len() {
            return None;
        }
        Some(FatFile { bytes, wide, count })
    }

    /// Whether the entries of the table have 64 bits.
    pub fn is_fat64(&self) -> bool
        ensures { result ≡ has_wide_entries self.now }
    {
        self.wide
    }

    /// How many entries the table has.
    pub fn count(&self) -> u32
        ensures { result ≡ fat_count self.now }
    {
        self.count
    }

    /// Entry `k` of the table.
    #[tactic(auto, unfolding(crate::specs::FatFile::fat_entry))]
    pub fn entry(&self, k: u32) -> EntryNumbers
        requires { k < fat_count self.now }
        ensures { SameFatEntry result (fat_entry self.now (has_wide_entries self.now) k) }
    {
        let at = table_end(self.wide, k);
        if self.wide {
            EntryNumbers::wide(self.bytes, at)
        } else {
            EntryNumbers::narrow(self.bytes, at)
        }
    }

    /// Whether so many bytes from `offset` on lie in the file.
    pub fn has_inside(&self, offset: u64, size: u64) -> bool
        ensures { result ≡ nat_le (offset + size) (length self.now) }
    {
        let len = self.bytes.len() as u64;
        size <= len && offset <= len - size
    }

    /// The `size` bytes at `start`.
    #[tactic(auto, unfolding(byte_core::specs::Number::bytes_at))]
    pub fn range(&self, start: usize, size: usize) -> &'a [u8]
        requires { start + size ≤ length self.now }
        ensures { result.now ≡ bytes_at self.now start size }
    {
        let bytes = self.bytes;
        &bytes[start..start + size]
    }
}

/// The numbers of an entry.
#[derive(Clone, Copy, Debug, PartialEq, Eq)]
pub struct EntryNumbers {
    pub cputype: u32,
    pub cpusubtype: u32,
    pub offset: u64,
    pub size: u64,
    pub align: u32,
}

impl EntryNumbers {
    // The entry of 32 bits at `at`.
    fn narrow(bytes: &[u8], at: usize) -> EntryNumbers
        requires { at + 20 ≤ length bytes.now }
        ensures { SameFatEntry result (narrow_entry_at bytes.now at) }
    {
        EntryNumbers {
            cputype: big_u32(bytes, at),
            cpusubtype: big_u32(bytes, at + 4),
            offset: u64::from(big_u32(bytes, at + 8)),
            size: u64::from(big_u32(bytes, at + 12)),
            align: big_u32(bytes, at + 16),
        }
    }

    // The entry of 64 bits at `at`.
    fn wide(bytes: &[u8], at: usize) -> EntryNumbers
        requires { at + 32 ≤ length bytes.now }
        ensures { SameFatEntry result (wide_entry_at bytes.now at) }
    {
        EntryNumbers {
            cputype: big_u32(bytes, at),
            cpusubtype: big_u32(bytes, at + 4),
            offset: big_field(bytes, at + 8, 8),
            size: big_field(bytes, at + 16, 8),
            align: big_u32(bytes, at + 24),
        }
    }
}

// Whether the entries behind this number have 64 bits, None where it begins no fat file.
fn has_wide_entries(magic: u32) -> Option<bool>
    ensures width { IfSome result (λ wide. wide ≡ (magic == 0xcafebabf)) }
    ensures exact { IsSome result ↔ IsFatMagic magic }
{
    match magic {
        FAT_MAGIC => Some(false),
        FAT_MAGIC_64 => Some(true),
        _ => None,
    }
}

// Where the table of so many entries ends, and where the entry of that number begins.
fn table_end(wide: bool, count: u32) -> usize
    ensures { result ≡ fat_table_end wide count }
{
    if wide {
        HEADER_SIZE + ENTRY_64_SIZE * count as usize
    } else {
        HEADER_SIZE + ENTRY_SIZE * count as usize
    }
}

// The big-endian number of the 4 bytes at `at`.
fn big_u32(bytes: &[u8], at: usize) -> u32
    requires { at + 4 ≤ length bytes.now }
    ensures { result ≡ big_number_at bytes.now at 4 }
{
    big_field(bytes, at, 4) as u32
}

// The big-endian number of the `width` bytes at `at`.
fn big_field(bytes: &[u8], at: usize, width: usize) -> u64
    requires width { width ≤ 8 }
    requires inside { at + width ≤ length bytes.now }
    ensures value { result ≡ big_number_at bytes.now at width }
    ensures bound { result < 256 ^ width }
{
    be_at(bytes, at, width).unwrap()
}
