//! Whether slices can be put to others.

ghost use Rattle.std.specs.Prelude.{◌≡◌, ◌+◌, ◌^◌, ◌<◌, length, map, find, option_map, None, IfOk, IfErr, OnOk};
ghost use Rattle.fat_macho.specs.Adding.{TellsAdd};
ghost use Rattle.fat_macho.specs.Input.{is_among, joining_cause};
ghost use Rattle.fat_macho.specs.Layout.{total_of};
ghost use Rattle.fat_macho.specs.ShapeView.{shape_view};
ghost use Rattle.fat_macho.specs.Slices.{stands_before, by_shape, all_inserted, in_order_by};

use crate::Error;
use crate::layout::layout_of;
use crate::order::put_all_in_order;
use crate::shape::{Shaped, SliceShape, is_among};
use std::alloc::{AllocError, Global};

// The table of a fat file counts fewer slices than these.
const TOO_MANY: u64 = 1 << 32;

// A fat file is shorter than this.
const TOO_LARGE: u128 = 1 << 63;

/// Judges whether slices can be put to those that are held, in order and of distinct architectures.
#[tactic(auto, unfolding(crate::specs::Input::joining_cause), using(crate::proofs::JoiningLaws::duplicate_tells, crate::proofs::JoiningLaws::many_tells, crate::proofs::JoiningLaws::large_tells, crate::proofs::JoiningLaws::none_tells))]
pub fn judge<T: Shaped>(alloc: Global, held: &[T], new: &[T]) -> Result<(), Error>
    requires order { in_order_by (by_shape T.shape) held.now ≡ held.now }
    requires few { length held.now < 2 ^ 32 }
    requires bound { length new.now < 2 ^ 63 }
    ensures none { OnOk result (joining_cause (map T.shape held.now) (map T.shape new.now) ≡ None) }
    ensures cause { IfErr result (λ e. TellsAdd e (joining_cause (map T.shape held.now) (map T.shape new.now))) }
{
    if let Some(shape) = first_among(held, new) {
        return Err(shape.duplicate());
    }
    let count = held.len() as u64 + new.len() as u64;
    if count >= TOO_MANY {
        return Err(Error::TooMany { count });
    }
    let shapes = joined_shapes(alloc, held, new)?;
    let amount = total_of(&shapes);
    if amount >= TOO_LARGE {
        return Err(Error::TooLarge { amount });
    }
    Ok(())
}

// The first of some slices whose architecture is held.
fn first_among<T: Shaped>(held: &[T], new: &[T]) -> Option<SliceShape>
    ensures { option_map shape_view result ≡ find (is_among (map T.shape held.now)) (map T.shape new.now) }
{
    for slice in new {
        let shape = slice.shape();
        if is_among(held, &shape) {
            return Some(shape);
        }
    }
    None
}

// The shapes of all slices, the new ones put in order into those that are held.
#[tactic(auto, using(crate::proofs::JoiningLaws::joined))]
fn joined_shapes<T: Shaped>(
    alloc: Global,
    held: &[T],
    new: &[T],
) -> Result<Vec<SliceShape>, AllocError>
    requires few { length held.now < 2 ^ 32 }
    requires bound { length new.now < 2 ^ 63 }
    ensures shapes { IfOk result (λ shapes. map shape_view shapes.items ≡ all_inserted stands_before (map T.shape new.now) (map T.shape held.now)) }
    ensures count { IfOk result (λ shapes. length shapes.items ≡ length held.now + length new.now) }
{
    let mut shapes = shapes_of(alloc, held)?;
    let added = shapes_of(alloc, new)?;
    shapes.reserve(added.len())?;
    put_all_in_order(&mut shapes, added);
    Ok(shapes)
}

fn shapes_of<T: Shaped>(alloc: Global, slices: &[T]) -> Result<Vec<SliceShape>, AllocError>
    ensures { IfOk result (λ shapes. map shape_view shapes.items ≡ map T.shape slices.now) }
{
    let mut shapes = Vec::with_capacity(alloc, slices.len())?;
    for slice in slices {
        shapes.push(slice.shape())?;
    }
    Ok(shapes)
}

/// The length of a fat file of slices in their order, 0 without slices.
pub fn total_of<T: Shaped>(slices: &[T]) -> u128
    requires { length slices.now < 2 ^ 33 }
    ensures { result ≡ total_of (map T.shape slices.now) }
{
    if slices.is_empty() {
        return 0;
    }
    layout_of(slices).total
}
