//! Slices that are taken out of a writer.

ghost use Rattle.std.specs.Prelude.{◌≡◌, ◌+◌, ◌<◌, ◌≤◌, ◌↔◌, length, map, slice_get, option_map, false, IfOk, IfErr, OnOk, OnErr, IsOk, IfSome, IsSomeAnd};
ghost use Rattle.std.specs.Cow.{cow_slice_items, IsBorrowedSlice};
ghost use Rattle.std.specs.List.{AllByRecursion, remove};
ghost use Rattle.byte_core.specs.Count.{Rose};
ghost use Rattle.byte_core.specs.Number.{bytes_at};
ghost use Rattle.byte_core.specs.Streams.{ChangesFaults};
ghost use Rattle.fat_macho.specs.Filing.{ChangesSources};
ghost use Rattle.fat_macho.specs.Held.{borrowed};
ghost use Rattle.fat_macho.specs.HeldViews.{origin_of, known_range, faults_in, LiesInSource, IsPlaced};
ghost use Rattle.fat_macho.specs.Removing.{IsKnownAs, IsCopyOf, HandsOut, FailsToRead, FailsToCopy, handed_items};
ghost use Rattle.fat_macho.specs.declared.error.Error.TheVariants.{OutOfMemory};

use crate::Error;
use crate::filing::shared_range;
use crate::held::{HeldSlice, SliceBytes};
use crate::reading::read_exact;
use byte_core::Source;
use std::alloc::Global;
use std::borrow::CowSlice;

/// Takes the slice at this place out and gives its bytes.
pub fn take_out<'a, S: Source>(
    alloc: Global,
    sources: &mut [S],
    slices: &mut Vec<HeldSlice<'a>>,
    place: usize,
) -> Result<CowSlice<'a, u8>, Error>
    requires inside { place < length slices.old.items }
    requires placed { AllByRecursion (λ h. IsPlaced (map (λ s. S.source s) sources.old) h.bytes) slices.old.items }
    ensures bytes { IfOk result (λ bytes. IfSome (slice_get slices.old.items place) (λ h. HandsOut (map (λ s. S.source s) sources.old) h.bytes bytes)) }
    ensures ok { OnOk result (slices.new.items ≡ remove slices.old.items place) }
    ensures err { OnErr result (slices.new.items ≡ slices.old.items) }
    ensures cause { IfErr result (λ e. IfSome (slice_get slices.old.items place) (λ h. FailsToCopy (map (λ s. S.source s) sources.old) (map (λ s. S.source s) sources.new) h.bytes e)) }
    ensures sure { ((s : S) → (S.source s).can_fail ≡ false) → IfErr result (λ e. e ≡ OutOfMemory) }
    ensures lent { IfSome (slice_get slices.old.items place) (λ h. origin_of h.bytes ≡ borrowed → IsOk result) }
    ensures others { ChangesSources (map (λ s. S.source s) sources.old) (map (λ s. S.source s) sources.new) }
{
    let copy = copied(alloc, sources, &slices[place].bytes)?;
    let slice = slices.remove(place);
    Ok(handed_out(slice.bytes, copy))
}

// A copy of the bytes of a slice, of none where they can be handed out as they are.
#[tactic(auto, using(crate::proofs::FilingLaws::sources_same, crate::proofs::FilingLaws::placed_number))]
fn copied<S: Source>(
    alloc: Global,
    sources: &mut [S],
    bytes: &SliceBytes<'_>,
) -> Result<Vec<u8>, Error>
    requires { IsPlaced (map (λ s. S.source s) sources.old) bytes.now }
    ensures copy { IfOk result (λ copy. IsCopyOf (map (λ s. S.source s) sources.old) bytes.now copy.items) }
    ensures cause { IfErr result (FailsToCopy (map (λ s. S.source s) sources.old) (map (λ s. S.source s) sources.new) bytes.now) }
    ensures sure { ((s : S) → (S.source s).can_fail ≡ false) → IfErr result (λ e. e ≡ OutOfMemory) }
    ensures lent { origin_of bytes.now ≡ borrowed → IsOk result }
    ensures others { ChangesSources (map (λ s. S.source s) sources.old) (map (λ s. S.source s) sources.new) }
{
    match bytes {
        SliceBytes::Borrowed(_) | SliceBytes::Owned(_) => Ok(Vec::new(alloc)),
        SliceBytes::Shared {
            bytes,
            offset,
            size,
        } => Ok(shared_range(bytes, *offset, *size).to_vec(alloc)?),
        SliceBytes::InSource {
            number,
            offset,
            size,
        } => read_from(alloc, sources, *number, *offset, *size),
    }
}

// The bytes of a range of the source of this number.
fn read_from<S: Source>(
    alloc: Global,
    sources: &mut [S],
    number: usize,
    offset: u64,
    size: u64,
) -> Result<Vec<u8>, Error>
    requires number { number < length sources.old }
    requires inside { IsSomeAnd (slice_get (map (λ s. S.source s) sources.old) number) (λ s. LiesInSource s offset size) }
    ensures bytes { IfOk result (λ bytes. IsKnownAs (known_range (slice_get (map (λ s. S.source s) sources.old) number) offset size) bytes.items) }
    ensures cause { IfErr result (FailsToRead (Rose (faults_in (slice_get (map (λ s. S.source s) sources.old) number)) (faults_in (slice_get (map (λ s. S.source s) sources.new) number)))) }
    ensures sure { ((s : S) → (S.source s).can_fail ≡ false) → IfErr result (λ e. e ≡ OutOfMemory) }
    ensures others { ChangesSources (map (λ s. S.source s) sources.old) (map (λ s. S.source s) sources.new) }
{
    read_range(alloc, &mut sources[number], offset, size)
}

// The bytes of a range of a source.
fn read_range<S: Source>(
    alloc: Global,
    source: &mut S,
    offset: u64,
    size: u64,
) -> Result<Vec<u8>, Error>
    requires { offset + size ≤ (S.source source.old).length }
    ensures bytes { IfOk result (λ bytes. IsKnownAs (option_map (λ b. bytes_at b offset size) (S.source source.old).bytes) bytes.items) }
    ensures cause { IfErr result (FailsToRead (Rose (S.source source.old).faults (S.source source.new).faults)) }
    ensures sure { (S.source source.old).can_fail ≡ false → IfErr result (λ e. e ≡ OutOfMemory) }
    ensures others { ChangesFaults (S.source source.old) (S.source source.new) }
{
    // The length of a source has 64 bits, so no place in it has more.
    let _len = source.len();
    let mut bytes = vec![in alloc; 0; size as usize]?;
    read_exact(source, &mut bytes, offset)?;
    Ok(bytes)
}

// The bytes of a slice, or their copy where they can't be handed out as they are.
fn handed_out<'a>(bytes: SliceBytes<'a>, copy: Vec<u8>) -> CowSlice<'a, u8>
    ensures items { cow_slice_items result ≡ handed_items bytes.entry copy.items }
    ensures lent { (origin_of bytes.entry ≡ borrowed) ↔ IsBorrowedSlice result }
{
    match bytes {
        SliceBytes::Borrowed(bytes) => CowSlice::Borrowed(bytes),
        SliceBytes::Owned(bytes) => CowSlice::Owned(bytes),
        SliceBytes::Shared { .. } | SliceBytes::InSource { .. } => CowSlice::Owned(copy),
    }
}
