//! What a fat file is read as: `fat_header`, `fat_arch` and `fat_arch_64`.

ghost use Rattle.std.specs.Prelude.{◌≡◌, map};
ghost use Rattle.image_read.specs.FatViews.{fat_slice_of};

use std::marker::Model;

/// The file of one architecture, its numbers as the table stores them.
#[derive(Clone, Copy, Debug, PartialEq, Eq)]
pub struct FatSlice<'a> {
    /// The processor type.
    pub cputype: u32,
    /// The processor subtype, with its feature bits.
    pub cpusubtype: u32,
    /// The alignment of the offset, as a power of two.
    pub align: u32,
    /// The offset of the bytes from the start of the fat file.
    pub offset: u64,
    pub bytes: &'a [u8],
}

/// The slices of a fat file. A contract sees it with its bytes as lists.
#[derive(Debug, Drop)]
pub struct FatImage<'a> {
    is_fat64: bool,
    slices: Vec<FatSlice<'a>>,
}

impl<'a> Model for FatImage<'a> {
    ghost use Rattle.image_read.specs.FatImage.{FatImageData};

    ghost Value = { FatImageData };

    ghost use Rattle.image_read.specs.FatImageView.{fat_image_view};

    ghost view = { fat_image_view };
}

impl<'a> FatImage<'a> {
    /// The image with these slices.
    pub(crate) fn new(is_fat64: bool, slices: Vec<FatSlice<'a>>) -> FatImage<'a>
        ensures { result ≡ record { is_fat64 = is_fat64; slices = map fat_slice_of slices.entry.items } }
    {
        FatImage { is_fat64, slices }
    }

    /// Whether the table has entries of 64 bits.
    pub fn is_fat64(&self) -> bool
        ensures { result ≡ (self.now).is_fat64 }
    {
        self.is_fat64
    }

    /// The slices in the order of the table.
    pub fn slices(&self) -> &[FatSlice<'a>]
        ensures { map fat_slice_of result.now ≡ (self.now).slices }
    {
        &self.slices
    }
}
