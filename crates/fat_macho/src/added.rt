//! The slices of an input, as a writer holds them.

ghost use Rattle.std.specs.Prelude.{◌≡◌, ◌∷◌, [], length, IfOk};
ghost use Rattle.std.specs.List.{AllByRecursion, AllZip};
ghost use Rattle.fat_macho.specs.AddedViews.{HoldsRange, HoldsPart, IsRangeOf, IsSliceOf, AreOwnedParts};
ghost use Rattle.fat_macho.specs.Parts.{IsInside};
ghost use Rattle.fat_macho.specs.declared.held.SliceBytes.TheVariants.{Owned};

use crate::held::{HeldSlice, SliceBytes};
use crate::input::Part;
use std::alloc::{AllocError, Global};
use std::rc::RcSlice;

/// Where the bytes of an input lie.
#[derive(Clone, Copy)]
pub enum InputBytes<'a, 'b> {
    /// They are lent to the writer.
    Borrowed(&'a [u8]),
    /// Others share them.
    Shared(&'b RcSlice<u8>),
    /// They are those of the source of this number.
    Source(usize),
}

/// The slices that these parts of an input are, in their order.
pub fn held_parts<'a>(
    alloc: Global,
    input: InputBytes<'a, '_>,
    parts: &[Part],
) -> Result<Vec<HeldSlice<'a>>, AllocError>
    requires { AllByRecursion (HoldsPart input) parts.now }
    ensures { IfOk result (λ slices. AllZip (IsSliceOf input.entry) parts.now slices.items) }
{
    let mut slices = Vec::with_capacity(alloc, parts.len())?;
    for part in parts {
        let slice = held_part(input, part)?;
        slices.push(slice)?;
    }
    Ok(slices)
}

fn held_part<'a>(input: InputBytes<'a, '_>, part: &Part) -> Result<HeldSlice<'a>, AllocError>
    requires { HoldsPart input part.now }
    ensures { IfOk result (IsSliceOf input.entry part.now) }
{
    Ok(HeldSlice {
        cputype: part.shape.cputype,
        cpusubtype: part.shape.cpusubtype,
        bytes: range_of(input, part.offset, part.shape.size)?,
    })
}

// The range of an input.
#[tactic(auto, unfolding(byte_core::specs::Number::bytes_at))]
fn range_of<'a>(
    input: InputBytes<'a, '_>,
    offset: u64,
    size: u64,
) -> Result<SliceBytes<'a>, AllocError>
    requires { HoldsRange input offset size }
    ensures { IfOk result (IsRangeOf input.entry offset size) }
{
    match input {
        InputBytes::Borrowed(bytes) => {
            let start = offset as usize;
            Ok(SliceBytes::Borrowed(&bytes[start..start + size as usize]))
        }
        InputBytes::Shared(bytes) => Ok(SliceBytes::Shared {
            bytes: bytes.clone()?,
            offset: offset as usize,
            size: size as usize,
        }),
        InputBytes::Source(number) => Ok(SliceBytes::InSource {
            number,
            offset,
            size,
        }),
    }
}

/// The slices that these parts of owned bytes are, in their order.
#[tactic(auto, using(crate::proofs::OwnedLaws::whole_part, crate::proofs::OwnedLaws::shared_parts, crate::proofs::OwnedLaws::shared_holds))]
pub fn owned_parts<'a>(
    alloc: Global,
    bytes: Vec<u8>,
    parts: &[Part],
) -> Result<Vec<HeldSlice<'a>>, AllocError>
    requires { AllByRecursion (IsInside (length bytes.items)) parts.now }
    ensures { IfOk result (λ slices. AreOwnedParts bytes.items parts.now slices.items) }
{
    if let [part] = parts {
        if part.offset == 0 && part.shape.size == bytes.len() as u64 {
            return whole_part(alloc, bytes, part);
        }
    }
    let shared = RcSlice::from_vec(bytes)?;
    held_parts(alloc, InputBytes::Shared(&shared), parts)
}

// The one slice that all of some owned bytes are.
fn whole_part<'a>(
    alloc: Global,
    bytes: Vec<u8>,
    part: &Part,
) -> Result<Vec<HeldSlice<'a>>, AllocError>
    ensures { IfOk result (λ slices. slices.items ≡ record { cputype = part.now.shape.cputype; cpusubtype = part.now.shape.cpusubtype; bytes = Owned bytes } ∷ []) }
{
    let mut slices = Vec::with_capacity(alloc, 1)?;
    slices.push(HeldSlice {
        cputype: part.shape.cputype,
        cpusubtype: part.shape.cpusubtype,
        bytes: SliceBytes::Owned(bytes),
    })?;
    Ok(slices)
}
