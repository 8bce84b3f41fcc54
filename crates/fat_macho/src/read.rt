//! Reading of fat files whose entries have 32 bits.

ghost use Rattle.std.specs.Prelude.{◌≡◌, IfOk, IfErr, OnOk, Some, None, option_map, find};
ghost use Rattle.goblin_mach.specs.FatTable.{fat_table, fat_arches};
ghost use Rattle.fat_macho.specs.Reader.{reader_cause, range_of, is_entry_of, extract_of};

use crate::architecture::is_same_arch;
use crate::parse::{InputClass, class_of};
use crate::{Error, InvalidCase};
use goblin_mach::cputype::get_arch_from_flag;
use goblin_mach::{FatArch, MultiArch, peek};
use std::marker::Model;

/// A fat file whose entries have 32 bits. A contract sees its bytes, and how many entries are asked for.
#[derive(Debug, Drop)]
pub struct FatReader<'a> {
    table: MultiArch<'a>,
}

impl<'a> Model for FatReader<'a> {
    ghost use Rattle.goblin_mach.specs.FatFile.{FatFile};

    ghost Value = { FatFile };

    ghost view = { λ reader. reader.table };
}

impl<'a> FatReader<'a> {
    /// The reader of a fat file. The first of these that holds is why there is none: under 4 bytes, or a number that begins
    /// nothing known (Goblin), a short header of a thin image or entries of 64 bits (InvalidMachO), a thin image, an archive
    /// or bitcode (NotFatBinary), under 8 bytes (Goblin).
    #[tactic(auto, unfolding(crate::specs::Reader::reader_cause))]
    pub fn new(buffer: &'a [u8]) -> Result<FatReader<'a>, Error>
        ensures ok { IfOk result (λ reader. reader ≡ fat_table buffer.now) }
        ensures none { OnOk result (reader_cause buffer.now ≡ None) }
        ensures cause { IfErr result (λ e. reader_cause buffer.now ≡ Some e) }
    {
        let magic = peek(buffer, 0)?;
        match class_of(buffer) {
            InputClass::Fat { wide: false } => {
                let table = MultiArch::new(buffer)?;
                Ok(FatReader { table })
            }
            InputClass::Fat { wide: true } => Err(Error::InvalidMachO(InvalidCase::Fat64)),
            InputClass::Cut => Err(Error::InvalidMachO(InvalidCase::ShortHeader)),
            InputClass::Unknown => Err(Error::Goblin(goblin_mach::Error::BadMagic(u64::from(
                magic,
            )))),
            InputClass::Thin { .. } | InputClass::Bitcode | InputClass::Archive => {
                Err(Error::NotFatBinary)
            }
        }
    }

    /// The bytes of the first entry of that architecture which the file has whole. None where there is none, or where its
    /// bytes leave the file.
    #[tactic(auto, unfolding(crate::specs::Reader::extract_of))]
    pub fn extract(&self, arch_name: &str) -> Option<&'a [u8]>
        ensures { option_map (λ bytes. bytes.now) result ≡ extract_of self.now arch_name.now }
    {
        let pair = get_arch_from_flag(arch_name)?;
        let entry = first_entry(&self.table, pair)?;
        slice_in(self.table.bytes(), &entry)
    }

    /// The table of the file.
    pub fn multi_arch(&self) -> &MultiArch<'a>
        ensures { result.now ≡ self.now }
    {
        &self.table
    }

    /// The table of the file, to ask for another number of entries.
    pub fn multi_arch_mut(&mut self) -> &mut MultiArch<'a>
        ensures { result.now ≡ self.old }
    {
        &mut self.table
    }
}

// The first entry of the architecture of this type and subtype.
#[tactic(auto, using(crate::proofs::FirstEntry::among_items))]
fn first_entry(table: &MultiArch<'_>, pair: (u32, u32)) -> Option<FatArch>
    ensures { result ≡ find (is_entry_of pair) (fat_arches table.now) }
{
    for item in table.iter_arches() {
        let Ok(entry) = item else {
            return None;
        };
        if is_same_arch(pair, (entry.cputype, entry.cpusubtype)) {
            return Some(entry);
        }
    }
    None
}

// The bytes of an entry, None where they leave the file.
#[tactic(auto, unfolding(byte_core::specs::Number::bytes_at))]
fn slice_in<'a>(bytes: &'a [u8], entry: &FatArch) -> Option<&'a [u8]>
    ensures { option_map (λ bytes. bytes.now) result ≡ range_of bytes.now entry.now }
{
    let start = entry.offset as usize;
    bytes.get(start..start + entry.size as usize)
}
