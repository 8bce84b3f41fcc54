//! The table with which a fat file begins: Apple's `mach-o/fat.h`, `struct fat_header` and
//! `struct fat_arch`. All its numbers are big-endian.

ghost use Rattle.std.specs.Prelude.{◌≡◌, ◌+◌, ◌^◌, ◌<◌, ◌≤◌, length, IfOk, IfErr, IfSome, IfNone};
ghost use Rattle.std.specs.Iterator.{YieldsFirst, item_count};
ghost use Rattle.byte_core.specs.Number.{where_inside};
ghost use Rattle.goblin_mach.specs.FatTable.{word_at, fat_table, fat_items, fat_arches, whole_entries, arch_at, place_of_arch, ExplainsTable};

use crate::Error;
use byte_core::be_at;
use std::alloc::Global;
use std::marker::Model;

/// A fat file whose entries have 32-bit offsets.
pub const FAT_MAGIC: u32 = 0xcafe_babe;
/// A fat file whose entries have 64-bit offsets.
pub const FAT_MAGIC_64: u32 = 0xcafe_babf;

/// The size of the header of a fat file, in bytes: its magic number and the number of entries.
pub const SIZEOF_FAT_HEADER: usize = 8;
/// The size of an entry with a 32-bit offset, in bytes.
pub const SIZEOF_FAT_ARCH: usize = 20;

/// The big-endian number of the four bytes at `offset`.
pub fn peek(bytes: &[u8], offset: usize) -> Result<u32, Error>
    ensures ok { IfOk result (λ number. (offset + 4 ≤ length bytes.now) × (number ≡ word_at bytes.now offset)) }
    ensures cause { IfErr result (λ error. (error ≡ Error.BufferTooShort) × (length bytes.now < offset + 4)) }
{
    word(bytes, offset).ok_or(Error::BufferTooShort)
}

/// An entry of a fat file: where the file of one architecture lies in it.
#[derive(Clone, Copy, Debug, PartialEq, Eq)]
pub struct FatArch {
    /// The processor type.
    pub cputype: u32,
    /// The processor subtype, with its feature bits.
    pub cpusubtype: u32,
    /// The offset of the architecture's file from the start of the fat file.
    pub offset: u32,
    /// The size of the architecture's file, in bytes.
    pub size: u32,
    /// The alignment of the offset, as a power of two.
    pub align: u32,
}

/// The table of a fat file. A contract sees the bytes of the file and how many entries are asked for.
#[derive(Debug, Drop)]
pub struct MultiArch<'a> {
    bytes: &'a [u8],
    /// The number of entries: at first the header's. Each number may be set; entries past the end of
    /// the file are not read.
    pub narches: usize,
}

impl<'a> Model for MultiArch<'a> {
    ghost use Rattle.goblin_mach.specs.FatFile.{FatFile};

    ghost Value = { FatFile };

    ghost view = { λ fat. record { bytes = fat.bytes.now; narches = fat.narches } };
}

impl<'a> MultiArch<'a> {
    /// The table of the fat file that these bytes are. Its magic number is not looked at.
    pub fn new(bytes: &'a [u8]) -> Result<MultiArch<'a>, Error>
        ensures ok { IfOk result (λ fat. (8 ≤ length bytes.now) × (fat ≡ fat_table bytes.now)) }
        ensures cause { IfErr result (λ error. (error ≡ Error.BufferTooShort) × (length bytes.now < 8)) }
    {
        let narches = peek(bytes, 4)? as usize;
        Ok(MultiArch { bytes, narches })
    }

    /// The bytes of the fat file.
    pub fn bytes(&self) -> &'a [u8]
        ensures { result.now ≡ (self.now).bytes }
    {
        self.bytes
    }

    /// The entries by number. The first that the file doesn't have whole is the last item, an error.
    pub fn iter_arches(&self) -> FatArchIterator<'_>
        ensures items { result ≡ fat_items self.now }
        ensures bound { length result < 2 ^ 64 }
    {
        FatArchIterator {
            bytes: self.bytes,
            number: 0,
            narches: self.narches,
        }
    }

    /// All entries by number, or the first error.
    pub fn arches(&self, alloc: Global) -> Result<Vec<FatArch>, Error>
        ensures ok { IfOk result (λ arches. arches.items ≡ fat_arches self.now) }
        ensures whole { IfOk result (λ _. self.now.narches ≤ whole_entries self.now.bytes) }
        ensures cause { IfErr result (ExplainsTable self.now) }
    {
        let mut arches = Vec::new(alloc);
        for arch in self.iter_arches() {
            arches.push(arch?)?;
        }
        Ok(arches)
    }
}

/// The entries of a fat file by number, up to the first that the file doesn't have whole, which is an
/// error. A contract sees the items that are left.
#[derive(Debug, Drop)]
pub struct FatArchIterator<'a> {
    bytes: &'a [u8],
    // The number of the next entry, and how many entries are asked for.
    number: usize,
    narches: usize,
}

impl<'a> Model for FatArchIterator<'a> {
    ghost use Rattle.std.specs.Prelude.{List, ◌≤◌, Result};
    ghost use Rattle.goblin_mach.specs.declared.fat.FatArch.{FatArch};
    ghost use Rattle.goblin_mach.specs.declared.mach_error.Error.{Error};
    ghost use Rattle.goblin_mach.specs.FatTable.{items_from, whole_entries};

    ghost Value = { List (Result FatArch Error) };

    ghost view = { λ it. items_from it.bytes.now it.number it.narches };

    ghost invariant = { λ it. (it.number ≤ it.narches) × (it.number ≤ whole_entries it.bytes.now) };
}

impl<'a> Iterator for FatArchIterator<'a> {
    type Item = Result<FatArch, Error>;

    ghost next_gives = { YieldsFirst (λ rest. rest) };

    ghost remaining = { item_count (λ rest. rest) };

    #[tactic(auto, using(crate::proofs::Items::item_next, crate::proofs::Items::items_end, crate::proofs::Items::item_missing))]
    fn next(&mut self) -> Option<Result<FatArch, Error>> {
        if self.number == self.narches {
            return None;
        }
        match read_arch(self.bytes, self.number) {
            Some(arch) => {
                self.number += 1;
                Some(Ok(arch))
            }
            None => {
                self.narches = self.number;
                Some(Err(Error::BufferTooShort))
            }
        }
    }
}

// The entry of that number, None where the file doesn't have it whole.
#[tactic(auto, unfolding(crate::specs::FatTable::arch_at))]
fn read_arch(bytes: &[u8], number: usize) -> Option<FatArch>
    requires { number ≤ whole_entries bytes.now }
    ensures found { IfSome result (λ arch. (place_of_arch (number + 1) ≤ length bytes.now) × (arch ≡ arch_at bytes.now number)) }
    ensures missing { IfNone result (length bytes.now < place_of_arch (number + 1)) }
{
    let place = SIZEOF_FAT_HEADER + SIZEOF_FAT_ARCH * number;
    Some(FatArch {
        cputype: word(bytes, place)?,
        cpusubtype: word(bytes, place + 4)?,
        offset: word(bytes, place + 8)?,
        size: word(bytes, place + 12)?,
        align: word(bytes, place + 16)?,
    })
}

// The big-endian number of the four bytes at `offset`, None where they leave the bytes.
fn word(bytes: &[u8], offset: usize) -> Option<u32>
    ensures { result ≡ where_inside bytes.now offset 4 (word_at bytes.now offset) }
{
    let number = be_at(bytes, offset, 4)?;
    let word = number as u32;
    Some(word)
}
