//! Reading of fat files.

ghost use Rattle.std.specs.Prelude.{◌≡◌, ◌≤◌, ◌<◌, ◌+◌, ◌↔◌, map, length, IsTrue, IfOk, IfErr};
ghost use Rattle.std.specs.List.{range_with_len};
ghost use Rattle.image_read.specs.ElfRows.{EachRow};
ghost use Rattle.image_read.specs.Explains.{ExplainsBy};
ghost use Rattle.image_read.specs.FatFile.{fat_count, has_wide_entries, fat_entry};
ghost use Rattle.image_read.specs.FatImage.{IsFat, FatReads, slice_data, fat_image_of};
ghost use Rattle.image_read.specs.FatRows.{IsSoundSlice};
ghost use Rattle.image_read.specs.FatViews.{fat_slice_of};

use crate::ReadError;
use crate::fat::file::FatFile;
use crate::fat::{FatImage, FatSlice};
use std::alloc::{AllocError, Global};

/// The image of a fat file. It is judged before any memory is taken.
pub fn read_fat<'a>(alloc: Global, bytes: &'a [u8]) -> Result<FatImage<'a>, ReadError>
    ensures ok { IfOk result (FatReads bytes.now) }
    ensures cause { IfErr result (ExplainsBy (IsFat bytes.now)) }
{
    let file = FatFile::new(bytes).ok_or(ReadError::NoReading)?;
    if !are_slices(&file) {
        return Err(ReadError::NoReading);
    }
    Ok(image_of(alloc, &file)?)
}

// Whether each slice lies in the file.
#[tactic(auto, using(crate::proofs::Rows::each_none, crate::proofs::Rows::each_next, crate::proofs::Rows::each_end))]
fn are_slices(file: &FatFile<'_>) -> bool
    ensures { IsTrue result ↔ EachRow (IsSoundSlice file.now) 0 (fat_count file.now) }
{
    for k in 0..file.count() {
        if !is_slice(file, k) {
            return false;
        }
    }
    true
}

fn is_slice(file: &FatFile<'_>, k: u32) -> bool
    requires { k < fat_count file.now }
    ensures { IsTrue result ↔ IsSoundSlice file.now k }
{
    let entry = file.entry(k);
    file.has_inside(entry.offset, entry.size)
}

#[tactic(auto, unfolding(crate::specs::FatImage::fat_image_of))]
fn image_of<'a>(alloc: Global, file: &FatFile<'a>) -> Result<FatImage<'a>, AllocError>
    requires { EachRow (IsSoundSlice file.now) 0 (fat_count file.now) }
    ensures { IfOk result (λ image. image ≡ fat_image_of file.now) }
{
    let slices = slices_of(alloc, file)?;
    Ok(FatImage::new(file.is_fat64(), slices))
}

// The slices in the order of the table.
fn slices_of<'a>(alloc: Global, file: &FatFile<'a>) -> Result<Vec<FatSlice<'a>>, AllocError>
    requires { EachRow (IsSoundSlice file.now) 0 (fat_count file.now) }
    ensures { IfOk result (λ slices. map fat_slice_of slices.items ≡ map (slice_data file.now) (range_with_len 0 (fat_count file.now))) }
{
    let mut slices = Vec::with_capacity(alloc, file.count() as usize)?;
    for k in 0..file.count() {
        slices.push(slice(file, k))?;
    }
    Ok(slices)
}

fn slice<'a>(file: &FatFile<'a>, k: u32) -> FatSlice<'a>
    requires row { k < fat_count file.now }
    requires sound { IsSoundSlice file.now k }
    ensures { fat_slice_of result ≡ slice_data file.now k }
{
    let entry = file.entry(k);
    FatSlice {
        cputype: entry.cputype,
        cpusubtype: entry.cpusubtype,
        align: entry.align,
        offset: entry.offset,
        bytes: file.range(entry.offset as usize, entry.size as usize),
    }
}
