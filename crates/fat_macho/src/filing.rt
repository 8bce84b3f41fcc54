//! Writing of whole fat files.

ghost use Rattle.std.specs.Prelude.{◌≡◌, ◌+◌, ◌++◌, ◌-◌, ◌^◌, ◌<◌, ◌≤◌, length, map, slice_get, replicate, option_map, IsSomeAnd, IfOk, OnOk, OnErr, IfErr};
ghost use Rattle.std.specs.Int.{next_multiple_of};
ghost use Rattle.std.specs.List.{AllByRecursion};
ghost use Rattle.std.specs.Rc.{rc_slice_items};
ghost use Rattle.byte_core.specs.Count.{Rose};
ghost use Rattle.byte_core.specs.Number.{bytes_at};
ghost use Rattle.byte_core.specs.Outside.{AppendsFront};
ghost use Rattle.byte_core.specs.Streams.{HasLength};
ghost use Rattle.fat_macho.specs.FatBytes.{FitsShape, header_bytes, row_bytes, rows_from};
ghost use Rattle.fat_macho.specs.Filing.{ChangesSources, known_contents, known_file};
ghost use Rattle.fat_macho.specs.Held.{SomeRose};
ghost use Rattle.fat_macho.specs.HeldViews.{raw_shape, known_range, known_bytes, faults_in, faults_of, held_list, LiesInSource, IsPlaced, IsWriter};
ghost use Rattle.fat_macho.specs.Layout.{end_from, sizes_of};
ghost use Rattle.fat_macho.specs.Writing.{Puts, PutsKnown, FrontKnown, FailsBy};
ghost use Rattle.fat_macho.specs.declared.error.Error.TheVariants.{Io};
ghost use Rattle.fat_macho.specs.declared.error.IoCause.TheVariants.{Sink as SinkFault};

use crate::Error;
use crate::held::{HeldSlice, SliceBytes};
use crate::layout::{layout_of, table_end};
use crate::shape::Shaped;
use crate::steps::step_behind;
use crate::table::{write_header, write_row};
use crate::writing::{copy_range, write_all, write_zeros};
use byte_core::{Sink, Source};
use std::rc::RcSlice;

/// Writes the fat file of slices in their order.
#[tactic(auto, using(crate::proofs::FilingLaws::sources_same))]
pub fn write_fat<S: Source, W: Sink>(
    sources: &mut [S],
    sink: &mut W,
    slices: &[HeldSlice<'_>],
) -> Result<(), Error>
    requires { IsWriter (map (λ s. S.source s) sources.old) slices.now }
    ensures ok { OnOk result (PutsKnown (known_file (map (λ s. S.source s) sources.old) slices.now) (W.sink sink.old) (W.sink sink.new)) }
    ensures front { OnErr result (FrontKnown (known_file (map (λ s. S.source s) sources.old) slices.now) (W.sink sink.old) (W.sink sink.new)) }
    ensures cause { IfErr result (FailsBy (SomeRose (held_list (map (λ s. S.source s) sources.old) slices.now) (held_list (map (λ s. S.source s) sources.new) slices.now)) (Rose (W.sink sink.old).faults (W.sink sink.new).faults)) }
    ensures others { ChangesSources (map (λ s. S.source s) sources.old) (map (λ s. S.source s) sources.new) }
    ensures rises { (W.sink sink.old).faults ≤ (W.sink sink.new).faults }
    ensures fits { AllByRecursion FitsShape (map raw_shape slices.now) }
{
    let layout = layout_of(slices);
    let start = table_end(layout.wide, slices.len() as u64);
    write_table(sink, slices, layout.wide, layout.align, start)?;
    write_slices(sources, sink, slices, layout.align, start)
}

// Writes the header and the table of slices that stand from this place on.
fn write_table<W: Sink>(
    sink: &mut W,
    slices: &[HeldSlice<'_>],
    wide: bool,
    align: u64,
    start: u64,
) -> Result<(), Error>
    requires few { length slices.now < 2 ^ 32 }
    requires align { (0 < align) × (align ≤ 0x4000) }
    requires short { end_from align start (sizes_of (map raw_shape slices.now)) < 2 ^ 63 }
    ensures ok { OnOk result (Puts (W.sink sink.old) (W.sink sink.new) (header_bytes wide (length slices.now) ++ rows_from wide align start (map raw_shape slices.now))) }
    ensures front { OnErr result (AppendsFront (W.sink sink.old).written (W.sink sink.new).written (header_bytes wide (length slices.now) ++ rows_from wide align start (map raw_shape slices.now))) }
    ensures failed { OnErr result (Rose (W.sink sink.old).faults (W.sink sink.new).faults) }
    ensures cause { IfErr result (λ e. e ≡ Io SinkFault) }
    ensures rises { (W.sink sink.old).faults ≤ (W.sink sink.new).faults }
{
    write_header(sink, wide, slices.len() as u32)?;
    write_rows(sink, slices, wide, align, start)
}

// Writes the entries of slices that stand from this place on.
fn write_rows<W: Sink>(
    sink: &mut W,
    slices: &[HeldSlice<'_>],
    wide: bool,
    align: u64,
    start: u64,
) -> Result<(), Error>
    requires align { (0 < align) × (align ≤ 0x4000) }
    requires short { end_from align start (sizes_of (map raw_shape slices.now)) < 2 ^ 63 }
    ensures ok { OnOk result (Puts (W.sink sink.old) (W.sink sink.new) (rows_from wide align start (map raw_shape slices.now))) }
    ensures front { OnErr result (AppendsFront (W.sink sink.old).written (W.sink sink.new).written (rows_from wide align start (map raw_shape slices.now))) }
    ensures failed { OnErr result (Rose (W.sink sink.old).faults (W.sink sink.new).faults) }
    ensures cause { IfErr result (λ e. e ≡ Io SinkFault) }
    ensures rises { (W.sink sink.old).faults ≤ (W.sink sink.new).faults }
{
    let mut end = start;
    for slice in slices {
        end = write_next_row(sink, slice, wide, align, end)?;
    }
    Ok(())
}

// Writes the entry of a slice that stands behind this place, and answers where the slice ends.
fn write_next_row<W: Sink>(
    sink: &mut W,
    slice: &HeldSlice<'_>,
    wide: bool,
    align: u64,
    end: u64,
) -> Result<u64, Error>
    requires align { (0 < align) × (align ≤ 0x4000) }
    requires room { next_multiple_of end align + (raw_shape slice.now).size < 2 ^ 63 }
    ensures end { IfOk result (λ e. e ≡ next_multiple_of end align + (raw_shape slice.now).size) }
    ensures ok { OnOk result (Puts (W.sink sink.old) (W.sink sink.new) (row_bytes wide align (raw_shape slice.now) (next_multiple_of end align))) }
    ensures front { OnErr result (AppendsFront (W.sink sink.old).written (W.sink sink.new).written (row_bytes wide align (raw_shape slice.now) (next_multiple_of end align))) }
    ensures failed { OnErr result (Rose (W.sink sink.old).faults (W.sink sink.new).faults) }
    ensures cause { IfErr result (λ e. e ≡ Io SinkFault) }
    ensures rises { (W.sink sink.old).faults ≤ (W.sink sink.new).faults }
{
    let shape = slice.shape();
    let step = step_behind(end, align, shape.size);
    write_row(sink, wide, align, &shape, step.offset)?;
    Ok(step.offset + step.size)
}

// Writes slices from this place on, each behind its gap.
#[tactic(auto, using(crate::proofs::FilingLaws::sources_same, crate::proofs::FilingLaws::sources_again, crate::proofs::LaysLaws::lays_begin))]
fn write_slices<S: Source, W: Sink>(
    sources: &mut [S],
    sink: &mut W,
    slices: &[HeldSlice<'_>],
    align: u64,
    start: u64,
) -> Result<(), Error>
    requires placed { AllByRecursion (λ h. IsPlaced (map (λ s. S.source s) sources.old) h.bytes) slices.now }
    requires lengths { AllByRecursion HasLength (map (λ s. S.source s) sources.old) }
    requires align { (0 < align) × (align ≤ 0x4000) }
    requires short { end_from align start (sizes_of (map raw_shape slices.now)) < 2 ^ 63 }
    ensures ok { OnOk result (PutsKnown (known_contents (map (λ s. S.source s) sources.old) align start slices.now) (W.sink sink.old) (W.sink sink.new)) }
    ensures front { OnErr result (FrontKnown (known_contents (map (λ s. S.source s) sources.old) align start slices.now) (W.sink sink.old) (W.sink sink.new)) }
    ensures cause { IfErr result (FailsBy (SomeRose (held_list (map (λ s. S.source s) sources.old) slices.now) (held_list (map (λ s. S.source s) sources.new) slices.now)) (Rose (W.sink sink.old).faults (W.sink sink.new).faults)) }
    ensures others { ChangesSources (map (λ s. S.source s) sources.old) (map (λ s. S.source s) sources.new) }
    ensures rises { (W.sink sink.old).faults ≤ (W.sink sink.new).faults }
{
    let mut end = start;
    for slice in slices {
        end = write_next(sources, sink, slice, align, end)?;
    }
    Ok(())
}

// Writes a gap behind this place and then the slice, and answers where the slice ends.
#[tactic(auto, using(crate::proofs::FilingLaws::sources_same))]
fn write_next<S: Source, W: Sink>(
    sources: &mut [S],
    sink: &mut W,
    slice: &HeldSlice<'_>,
    align: u64,
    end: u64,
) -> Result<u64, Error>
    requires placed { IsPlaced (map (λ s. S.source s) sources.old) (slice.now).bytes }
    requires align { (0 < align) × (align ≤ 0x4000) }
    requires room { next_multiple_of end align + (raw_shape slice.now).size < 2 ^ 63 }
    ensures end { IfOk result (λ e. e ≡ next_multiple_of end align + (raw_shape slice.now).size) }
    ensures ok { OnOk result (PutsKnown (option_map (λ b. replicate (next_multiple_of end align - end) 0 ++ b) (known_bytes (map (λ s. S.source s) sources.old) (slice.now).bytes)) (W.sink sink.old) (W.sink sink.new)) }
    ensures front { OnErr result (FrontKnown (option_map (λ b. replicate (next_multiple_of end align - end) 0 ++ b) (known_bytes (map (λ s. S.source s) sources.old) (slice.now).bytes)) (W.sink sink.old) (W.sink sink.new)) }
    ensures cause { IfErr result (FailsBy (Rose (faults_of (map (λ s. S.source s) sources.old) (slice.now).bytes) (faults_of (map (λ s. S.source s) sources.new) (slice.now).bytes)) (Rose (W.sink sink.old).faults (W.sink sink.new).faults)) }
    ensures others { ChangesSources (map (λ s. S.source s) sources.old) (map (λ s. S.source s) sources.new) }
    ensures rises { (W.sink sink.old).faults ≤ (W.sink sink.new).faults }
{
    let step = step_behind(end, align, slice.size());
    write_zeros(sink, (step.offset - end) as usize)?;
    write_slice(sources, sink, slice)?;
    Ok(step.offset + step.size)
}

// Writes the bytes of a slice.
#[tactic(auto, using(crate::proofs::FilingLaws::sources_same, crate::proofs::FilingLaws::placed_number))]
fn write_slice<S: Source, W: Sink>(
    sources: &mut [S],
    sink: &mut W,
    slice: &HeldSlice<'_>,
) -> Result<(), Error>
    requires { IsPlaced (map (λ s. S.source s) sources.old) (slice.now).bytes }
    ensures ok { OnOk result (PutsKnown (known_bytes (map (λ s. S.source s) sources.old) (slice.now).bytes) (W.sink sink.old) (W.sink sink.new)) }
    ensures front { OnErr result (FrontKnown (known_bytes (map (λ s. S.source s) sources.old) (slice.now).bytes) (W.sink sink.old) (W.sink sink.new)) }
    ensures cause { IfErr result (FailsBy (Rose (faults_of (map (λ s. S.source s) sources.old) (slice.now).bytes) (faults_of (map (λ s. S.source s) sources.new) (slice.now).bytes)) (Rose (W.sink sink.old).faults (W.sink sink.new).faults)) }
    ensures others { ChangesSources (map (λ s. S.source s) sources.old) (map (λ s. S.source s) sources.new) }
    ensures rises { (W.sink sink.old).faults ≤ (W.sink sink.new).faults }
{
    match &slice.bytes {
        SliceBytes::Borrowed(bytes) => write_all(sink, bytes),
        SliceBytes::Owned(bytes) => write_all(sink, bytes),
        SliceBytes::Shared {
            bytes,
            offset,
            size,
        } => write_all(sink, shared_range(bytes, *offset, *size)),
        SliceBytes::InSource {
            number,
            offset,
            size,
        } => copy_from(sources, sink, *number, *offset, *size),
    }
}

/// A range of bytes that others share.
#[tactic(auto, unfolding(byte_core::specs::Number::bytes_at))]
pub fn shared_range(bytes: &RcSlice<u8>, offset: usize, size: usize) -> &[u8]
    requires { offset + size ≤ length (rc_slice_items bytes.now) }
    ensures { result.now ≡ bytes_at (rc_slice_items bytes.now) offset size }
{
    &bytes.as_slice()[offset..offset + size]
}

// Writes the bytes of a range of the source of this number.
fn copy_from<S: Source, W: Sink>(
    sources: &mut [S],
    sink: &mut W,
    number: usize,
    offset: u64,
    size: u64,
) -> Result<(), Error>
    requires number { number < length sources.old }
    requires inside { IsSomeAnd (slice_get (map (λ s. S.source s) sources.old) number) (λ s. LiesInSource s offset size) }
    ensures ok { OnOk result (PutsKnown (known_range (slice_get (map (λ s. S.source s) sources.old) number) offset size) (W.sink sink.old) (W.sink sink.new)) }
    ensures front { OnErr result (FrontKnown (known_range (slice_get (map (λ s. S.source s) sources.old) number) offset size) (W.sink sink.old) (W.sink sink.new)) }
    ensures cause { IfErr result (FailsBy (Rose (faults_in (slice_get (map (λ s. S.source s) sources.old) number)) (faults_in (slice_get (map (λ s. S.source s) sources.new) number))) (Rose (W.sink sink.old).faults (W.sink sink.new).faults)) }
    ensures others { ChangesSources (map (λ s. S.source s) sources.old) (map (λ s. S.source s) sources.new) }
    ensures rises { (W.sink sink.old).faults ≤ (W.sink sink.new).faults }
{
    copy_range(&mut sources[number], sink, offset, size)
}
