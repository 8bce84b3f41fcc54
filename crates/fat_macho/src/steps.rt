//! The layout of a fat file, step by step.

ghost use Rattle.std.specs.Prelude.{◌≡◌, ◌+◌, ◌^◌, ◌<◌, ◌≤◌, length, map};
ghost use Rattle.std.specs.Int.{next_multiple_of};
ghost use Rattle.std.specs.Iterator.{YieldsFirst, item_count};
ghost use Rattle.fat_macho.specs.HeldViews.{raw_shape};
ghost use Rattle.fat_macho.specs.Layout.{total_of};
ghost use Rattle.fat_macho.specs.LayoutSteps.{layout_steps};

use crate::held::HeldSlice;
use crate::layout::{layout_of, table_end};
use std::marker::Model;

/// Where a slice stands in a fat file.
#[derive(Clone, Copy, Debug, PartialEq, Eq)]
pub struct LayoutStep {
    /// The place of its first byte, from the start of the file.
    pub offset: u64,
    /// How many bytes it has.
    pub size: u64,
}

/// The steps of a layout, in the order of the slices. A contract sees the steps that are left.
#[derive(Drop)]
pub struct LayoutSteps<'a> {
    slices: &'a [HeldSlice<'a>],
    align: u64,
    // Where the slice before them ends, or the table.
    end: u64,
}

impl<'a> Model for LayoutSteps<'a> {
    ghost use Rattle.std.specs.Prelude.{List, map, ◌<◌, ◌≤◌, ◌^◌};
    ghost use Rattle.fat_macho.specs.HeldViews.{raw_shape};
    ghost use Rattle.fat_macho.specs.Layout.{end_from, sizes_of};
    ghost use Rattle.fat_macho.specs.LayoutSteps.{steps_from};
    ghost use Rattle.fat_macho.specs.declared.steps.LayoutStep.{LayoutStep};

    ghost Value = { List LayoutStep };

    ghost view = { λ it. steps_from it.align it.end (sizes_of (map raw_shape it.slices.now)) };

    ghost invariant = { λ it. (0 < it.align) × (it.align ≤ 0x4000) × (end_from it.align it.end (sizes_of (map raw_shape it.slices.now)) < 2 ^ 63) };
}

impl<'a> Iterator for LayoutSteps<'a> {
    type Item = LayoutStep;

    ghost next_gives = { YieldsFirst (λ rest. rest) };

    ghost remaining = { item_count (λ rest. rest) };

    #[tactic(auto, using(crate::proofs::StepLaws::end_within))]
    fn next(&mut self) -> Option<LayoutStep> {
        match self.slices {
            [] => None,
            [first, rest @ ..] => {
                let step = step_behind(self.end, self.align, first.size());
                self.end = step.offset + step.size;
                self.slices = rest;
                Some(step)
            }
        }
    }
}

/// The steps of slices in their order.
pub fn steps_of<'a>(slices: &'a [HeldSlice<'a>]) -> LayoutSteps<'a>
    requires few { length slices.now < 2 ^ 32 }
    requires short { total_of (map raw_shape slices.now) < 2 ^ 63 }
    ensures { result ≡ layout_steps (map raw_shape slices.now) }
{
    let layout = layout_of(slices);
    LayoutSteps {
        slices,
        align: layout.align,
        end: table_end(layout.wide, slices.len() as u64),
    }
}

/// The step of a slice of this size, the least behind this place.
pub fn step_behind(end: u64, align: u64, size: u64) -> LayoutStep
    requires align { (0 < align) × (align ≤ 0x4000) }
    requires room { next_multiple_of end align + size < 2 ^ 63 }
    ensures offset { result.offset ≡ next_multiple_of end align }
    ensures size { result.size ≡ size }
{
    let past = end % align;
    LayoutStep {
        offset: end + (align - past) % align,
        size,
    }
}
