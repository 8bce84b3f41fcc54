//! Writing of fat files.

ghost use Rattle.std.specs.Prelude.{◌≡◌, ◌==◌, ◌^◌, ◌<◌, ◌≤◌, ◌⊎◌, ◌↔◌, [], ◌∷◌, ◌++◌, length, map, true, false, is_some, IfSome, IfOk, IfErr, OnOk, OnErr, IsOk, None};
ghost use Rattle.std.specs.Cow.{cow_slice_items, IsBorrowedSlice};
ghost use Rattle.std.specs.Rc.{rc_slice_items};
ghost use Rattle.std.specs.Vec.{vec_len, vec_capacity};
ghost use Rattle.byte_core.specs.Count.{Rose};
ghost use Rattle.fat_macho.specs.Adding.{TellsAdd};
ghost use Rattle.fat_macho.specs.Held.{borrowed, owned, shapes_held, slice_named, other_slices, IsAdded, IsTaken, IsAddError, AddsShapes, KeepsSlices, TakesFile, TakesFront, SomeRose, NamedRose};
ghost use Rattle.fat_macho.specs.HeldViews.{raw_shape};
ghost use Rattle.fat_macho.specs.Input.{joining_cause};
ghost use Rattle.fat_macho.specs.Layout.{total_of};
ghost use Rattle.fat_macho.specs.LayoutSteps.{layout_steps};
ghost use Rattle.fat_macho.specs.declared.error.Error.TheVariants.{Io, OutOfMemory};
ghost use Rattle.fat_macho.specs.declared.error.IoCause.TheVariants.{Source as SourceFault, Sink as SinkFault};
ghost use Rattle.fat_macho.specs.Slices.{by_shape, all_inserted, in_order_by};

use crate::Error;
use crate::added::{InputBytes, held_parts, owned_parts};
use crate::filing::write_fat;
use crate::held::HeldSlice;
use crate::input::input_parts;
use crate::joining::{judge, total_of};
use crate::named::place_named;
use crate::order::put_all_in_order;
use crate::removing::take_out;
use crate::steps::{LayoutSteps, steps_of};
use byte_core::{PlainSource, Sink, Source};
use std::alloc::Global;
use std::borrow::CowSlice;
use std::marker::Model;
use std::rc::RcSlice;

/// Slices that are to be a fat file, in the order of the file. A contract sees them as a list.
#[derive(Drop)]
pub struct FatWriter<'a, S: Source + Drop> {
    alloc: Global,
    slices: Vec<HeldSlice<'a>>,
    sources: Vec<S>,
}

impl<'a, S: Source + Drop> Model for FatWriter<'a, S> {
    ghost use Rattle.std.specs.Prelude.{List, map};
    ghost use Rattle.fat_macho.specs.Held.{Held};
    ghost use Rattle.fat_macho.specs.HeldViews.{held_list, IsWriter};

    ghost Value = { List Held };

    ghost view = { λ w. held_list (map (λ s. S.source s) w.sources.items) w.slices.items };

    ghost invariant = { λ w. IsWriter (map (λ s. S.source s) w.sources.items) w.slices.items };
}

impl<'a, S: Source + Drop> FatWriter<'a, S> {
    /// A writer with no slices.
    pub fn new(alloc: Global) -> Self
        ensures { result ≡ [] }
    {
        FatWriter {
            alloc,
            slices: Vec::new(alloc),
            sources: Vec::new(alloc),
        }
    }

    /// How many slices there are.
    pub fn len(&self) -> usize
        ensures { result ≡ length self.now }
    {
        self.slices.len()
    }

    /// Whether there are no slices.
    pub fn is_empty(&self) -> bool
        ensures { result ≡ (length self.now == 0) }
    {
        self.slices.is_empty()
    }

    /// Whether there is a slice of the architecture of this name.
    pub fn exists(&self, arch: &str) -> bool
        ensures { result ≡ is_some (slice_named self.now arch.now) }
    {
        place_named(&self.slices, arch).is_some()
    }

    /// How long the fat file is in bytes, 0 without slices.
    pub fn total_size(&self) -> u64
        ensures { result ≡ total_of (shapes_held self.now) }
    {
        total_of(&self.slices) as u64
    }

    /// Where each slice stands in the fat file, in the order of the file.
    pub fn layout(&self) -> LayoutSteps<'_>
        ensures { result ≡ layout_steps (shapes_held self.now) }
    {
        steps_of(&self.slices)
    }

    /// Adds a thin image, or all slices of a fat file in one step.
    pub fn add(&mut self, bytes: &'a [u8]) -> Result<(), Error>
        ensures added { IsAdded result self.old self.new borrowed bytes.now }
    {
        let parts = input_parts(self.alloc, &mut PlainSource::new(bytes))?;
        let slices = held_parts(self.alloc, InputBytes::Borrowed(bytes), &parts)?;
        join(self.alloc, &mut self.slices, slices)
    }

    /// The same of bytes that the writer takes over. They are dropped where they are refused.
    pub fn add_owned(&mut self, bytes: Vec<u8>) -> Result<(), Error>
        ensures added { IsAdded result self.old self.new owned bytes.items }
    {
        let parts = input_parts(self.alloc, &mut PlainSource::new(&bytes))?;
        let slices = owned_parts(self.alloc, bytes, &parts)?;
        join(self.alloc, &mut self.slices, slices)
    }

    /// The same of bytes that others share.
    pub fn add_shared(&mut self, bytes: RcSlice<u8>) -> Result<(), Error>
        ensures added { IsAdded result self.old self.new owned (rc_slice_items bytes) }
    {
        let parts = input_parts(self.alloc, &mut PlainSource::new(bytes.as_slice()))?;
        let slices = held_parts(self.alloc, InputBytes::Shared(&bytes), &parts)?;
        join(self.alloc, &mut self.slices, slices)
    }

    /// The same of a source that the writer takes over. It is dropped where it is refused, and `Io` comes only where it can
    /// fail.
    pub fn add_source(&mut self, mut source: S) -> Result<(), Error>
        ensures added { IfSome (S.source source).bytes (IsTaken result self.old self.new) }
        ensures untold { (S.source source).bytes ≡ None → OnOk result (AddsShapes self.old self.new) }
        ensures reading { IfErr result (λ e. e ≡ Io SourceFault → (S.source source).can_fail ≡ true) }
        ensures kinds { IfErr result (λ e. IsAddError e) }
        ensures err { OnErr result (self.new ≡ self.old) }
    {
        let parts = input_parts(self.alloc, &mut source)?;
        let number = self.sources.len();
        let slices = held_parts(self.alloc, InputBytes::Source(number), &parts)?;
        self.sources.reserve(1)?;
        join(self.alloc, &mut self.slices, slices)?;
        push_reserved(&mut self.sources, source);
        Ok(())
    }

    /// Takes the slice of the architecture of this name out and gives its bytes, borrowed where they were borrowed, else owned.
    /// None where there is no such slice. A refused call leaves the slices as they were.
    pub fn remove(&mut self, arch: &str) -> Result<Option<CowSlice<'a, u8>>, Error>
        ensures none { IfOk result (λ found. (found ≡ None) ↔ (slice_named self.old arch.now ≡ None)) }
        ensures bytes { IfOk result (λ found. IfSome found (λ bytes. IfSome (slice_named self.old arch.now) (λ h. IfSome h.bytes (λ known. cow_slice_items bytes ≡ known)))) }
        ensures lent { IfOk result (λ found. IfSome found (λ bytes. IfSome (slice_named self.old arch.now) (λ h. (h.origin ≡ borrowed) ↔ IsBorrowedSlice bytes))) }
        ensures absent { slice_named self.old arch.now ≡ None → IsOk result }
        ensures given { IfSome (slice_named self.old arch.now) (λ h. h.origin ≡ borrowed → IsOk result) }
        ensures ok { OnOk result (KeepsSlices (other_slices self.old arch.now) self.new) }
        ensures reading { IfErr result (λ e. e ≡ Io SourceFault → NamedRose self.old self.new arch.now) }
        ensures causes { IfErr result (λ e. (e ≡ OutOfMemory) ⊎ (e ≡ Io SourceFault)) }
        ensures sure { ((s : S) → (S.source s).can_fail ≡ false) → IfErr result (λ e. e ≡ OutOfMemory) }
        ensures err { OnErr result (KeepsSlices self.old self.new) }
    {
        let Some(place) = place_named(&self.slices, arch) else {
            return Ok(None);
        };
        let bytes = take_out(self.alloc, &mut self.sources, &mut self.slices, place)?;
        Ok(Some(bytes))
    }

    /// Writes the fat file behind what the sink took, nothing where there are no slices. Where a read or a write fails, a
    /// front of the file was written.
    pub fn write_to<W: Sink>(&mut self, sink: &mut W) -> Result<(), Error>
        ensures ok { OnOk result (TakesFile self.old (W.sink sink.old).written (W.sink sink.new).written) }
        ensures front { OnErr result (TakesFront self.old (W.sink sink.old).written (W.sink sink.new).written) }
        ensures reading { IfErr result (λ e. e ≡ Io SourceFault → SomeRose self.old self.new) }
        ensures writing { IfErr result (λ e. e ≡ Io SinkFault → Rose (W.sink sink.old).faults (W.sink sink.new).faults) }
        ensures causes { IfErr result (λ e. (e ≡ Io SourceFault) ⊎ (e ≡ Io SinkFault)) }
        ensures rises { (W.sink sink.old).faults ≤ (W.sink sink.new).faults }
        ensures kept { KeepsSlices self.old self.new }
    {
        if self.slices.is_empty() {
            return Ok(());
        }
        write_fat(&mut self.sources, sink, &self.slices)
    }
}

// Puts slices in order to those that are held, all or none.
fn join<'a>(
    alloc: Global,
    held: &mut Vec<HeldSlice<'a>>,
    new: Vec<HeldSlice<'a>>,
) -> Result<(), Error>
    requires order { in_order_by (by_shape raw_shape) held.old.items ≡ held.old.items }
    requires few { length held.old.items < 2 ^ 32 }
    ensures none { OnOk result (joining_cause (map raw_shape held.old.items) (map raw_shape new.entry.items) ≡ None) }
    ensures cause { IfErr result (λ e. TellsAdd e (joining_cause (map raw_shape held.old.items) (map raw_shape new.entry.items))) }
    ensures ok { OnOk result (held.new.items ≡ all_inserted (by_shape raw_shape) new.entry.items held.old.items) }
    ensures err { OnErr result (held.new.items ≡ held.old.items) }
{
    judge(alloc, held, &new)?;
    held.reserve(new.len())?;
    put_all_in_order(held, new);
    Ok(())
}

// Puts an item behind a list that has room for it.
fn push_reserved<T: Drop>(list: &mut Vec<T>, item: T)
    requires { vec_len list.old < vec_capacity list.old }
    ensures { list.new.items ≡ list.old.items ++ item ∷ [] }
{
    if list.push(item).is_err() {
        unreachable!()
    }
}
