//! A fat image as JSON: its slices as lists of numbers.

ghost use Rattle.std.specs.Prelude.{◌≡◌, ◌++◌, OnOk, IfOk, map};
ghost use Rattle.serde_json.specs.Written.{compact_text};
ghost use Rattle.json_form.specs.Written.{list_value};
ghost use Rattle.image_read.specs.FatViews.{fat_slice_of};
ghost use Rattle.image_json.specs.FatJson.{fat_slice_value, fat_text};

use crate::pieces::{push_comma, push_flag, push_number, push_numbers};
use image_read::{FatImage, FatSlice};
use std::alloc::{AllocError, Global};

/// The image as one JSON object without white space: format, width of the entries and slices.
pub fn fat_text(alloc: Global, image: &FatImage<'_>) -> Result<Vec<u8>, AllocError>
    ensures { IfOk result (λ text. text.items ≡ fat_text image.now) }
{
    let mut out = Vec::new(alloc);
    out.extend_from_slice(b"{\"format\":\"fat\",\"is_64\":")?;
    push_flag(&mut out, image.is_fat64())?;
    out.extend_from_slice(b",\"slices\":")?;
    push_slices(&mut out, image.slices())?;
    out.push(b'}')?;
    Ok(out)
}

fn push_slices(out: &mut Vec<u8>, slices: &[FatSlice<'_>]) -> Result<(), AllocError>
    ensures { OnOk result (out.new.items ≡ out.old.items ++ compact_text (list_value fat_slice_value (map fat_slice_of slices.now))) }
{
    out.push(b'[')?;
    let mut is_later = false;
    for slice in slices {
        push_comma(out, is_later)?;
        push_slice(out, slice)?;
        is_later = true;
    }
    out.push(b']')?;
    Ok(())
}

fn push_slice(out: &mut Vec<u8>, slice: &FatSlice<'_>) -> Result<(), AllocError>
    ensures { OnOk result (out.new.items ≡ out.old.items ++ compact_text (fat_slice_value (fat_slice_of slice.now))) }
{
    out.push(b'[')?;
    push_number(out, u64::from(slice.cputype))?;
    push_numbers(
        out,
        &[
            u64::from(slice.cpusubtype),
            u64::from(slice.align),
            slice.offset,
            slice.bytes.len() as u64,
        ],
    )?;
    out.push(b']')?;
    Ok(())
}
