//! Where the slices of a fat file stand.

ghost use Rattle.std.specs.Prelude.{◌≡◌, ◌<◌, ◌≤◌, ◌+◌, ◌^◌, length, map};
ghost use Rattle.std.specs.Int.{next_multiple_of};
ghost use Rattle.std.specs.List.{AllByRecursion};
ghost use Rattle.image_read.specs.FatFile.{fat_table_end};
ghost use Rattle.fat_macho.specs.Layout.{fat_layout, layout_of, end_from, sizes_of, greatest_align};
ghost use Rattle.fat_macho.specs.FatBytes.{FitsShape};
ghost use Rattle.fat_macho.specs.LayoutView.{AreNumbersOf};
ghost use Rattle.fat_macho.specs.ShapeView.{shape_view};
ghost use Rattle.fat_macho.specs.Slices.{align_of};

use crate::shape::{Shaped, SliceShape};

/// The width of the entries of a fat file, the alignment of its slices in bytes, and its length.
#[derive(Clone, Copy, Debug)]
pub struct LayoutNumbers {
    pub wide: bool,
    pub align: u64,
    pub total: u128,
}

// The size of the header in bytes; the table stands behind it.
const HEADER_SIZE: u64 = 8;

// The sizes of an entry of each width, in bytes.
const ENTRY_SIZE: u64 = 20;

const ENTRY_64_SIZE: u64 = 32;

/// The layout of slices in their order.
#[tactic(auto, unfolding(crate::specs::Layout::fat_layout, crate::specs::Layout::layout_of))]
pub fn layout_of<T: Shaped>(slices: &[T]) -> LayoutNumbers
    requires { length slices.now < 2 ^ 33 }
    ensures numbers { AreNumbersOf result (fat_layout (map T.shape slices.now)) }
    ensures some { 0 < result.align }
    ensures bound { result.align ≤ 0x4000 }
    ensures fits { AllByRecursion FitsShape (map T.shape slices.now) }
{
    let align = greatest_align(slices);
    let count = slices.len() as u64;
    let total = end_of(slices, align, table_end(false, count));
    if total <= u128::from(u32::MAX) {
        return LayoutNumbers {
            wide: false,
            align,
            total,
        };
    }
    LayoutNumbers {
        wide: true,
        align,
        total: end_of(slices, align, table_end(true, count)),
    }
}

/// Where the table of so many entries ends.
pub fn table_end(wide: bool, count: u64) -> u64
    requires { count < 2 ^ 33 }
    ensures value { result ≡ fat_table_end wide count }
    ensures bound { result < 2 ^ 39 }
{
    if wide {
        HEADER_SIZE + ENTRY_64_SIZE * count
    } else {
        HEADER_SIZE + ENTRY_SIZE * count
    }
}

// The greatest alignment of some slices, 1 where there are none.
fn greatest_align<T: Shaped>(slices: &[T]) -> u64
    ensures value { result ≡ greatest_align (map T.shape slices.now) }
    ensures some { 0 < result }
    ensures bound { result ≤ 0x4000 }
    ensures fits { AllByRecursion FitsShape (map T.shape slices.now) }
{
    let mut align = 1;
    for slice in slices {
        align = align.max(align_of(slice.shape()));
    }
    align
}

// The alignment of a slice in bytes.
fn align_of(shape: SliceShape) -> u64
    ensures value { result ≡ align_of (shape_view shape) }
    ensures some { 0 < result }
    ensures bound { result ≤ 0x4000 }
    ensures fits { FitsShape (shape_view shape) }
{
    shape.align()
}

// Where the last of some slices ends.
fn end_of<T: Shaped>(slices: &[T], align: u64, start: u64) -> u128
    requires few { length slices.now < 2 ^ 33 }
    requires align { (0 < align) × (align ≤ 0x4000) }
    ensures { result ≡ end_from align start (sizes_of (map T.shape slices.now)) }
{
    let mut end = u128::from(start);
    for slice in slices {
        end = next_multiple(end, align) + u128::from(slice.shape().size);
    }
    end
}

// The least multiple of the alignment that isn't below this place.
fn next_multiple(at: u128, align: u64) -> u128
    requires place { at < 2 ^ 127 }
    requires align { 0 < align }
    ensures value { result ≡ next_multiple_of at align }
    ensures bound { result ≤ at + align }
{
    let align = u128::from(align);
    at + (align - at % align) % align
}
