//! The images of an input, read as a source.

ghost use Rattle.std.specs.Prelude.{◌≡◌, ◌+◌, ◌^◌, ◌<◌, ◌≤◌, min, if◌then◌else◌, [], ◌∷◌, ◌++◌, length, map, IfOk, IfErr, OnErr, IsSomeAnd, Some};
ghost use Rattle.std.specs.List.{range_with_len};
ghost use Rattle.byte_core.specs.Number.{bytes_at, big_number_at};
ghost use Rattle.byte_core.specs.Streams.{HasLength, ChangesFaults};
ghost use Rattle.image_read.specs.FatFile.{fat_table_end, fat_entry_size, narrow_entry_at, wide_entry_at};
ghost use Rattle.fat_macho.specs.ClassView.{class_view};
ghost use Rattle.fat_macho.specs.Input.{refusal_told, first_cause, class_cause, entry_cause, fat_cause, input_cause};
ghost use Rattle.fat_macho.specs.Parse.{class_of};
ghost use Rattle.fat_macho.specs.Parts.{IsClassAt, ReadFails, Fails, IsThin, IsPartAt, IsCount, IsEntryAt, IsEntryPart, AreEntryParts, AreFatParts, AreParts};
ghost use Rattle.fat_macho.specs.declared.error.Error.TheVariants.{Io};
ghost use Rattle.fat_macho.specs.declared.error.IoCause.TheVariants.{Source as SourceFault};

use crate::layout::table_end;
use crate::parse::{InputClass, class_of};
use crate::reading::read_exact;
use crate::shape::{Shaped, SliceShape, is_among};
use crate::{Error, InvalidCase};
use byte_core::{Source, be_at};
use goblin_mach::peek;
use std::alloc::{AllocError, Global};

// The class of an input shows in so many bytes.
const FRONT_SIZE: usize = 32;

const HEADER_SIZE: usize = 8;

const ENTRY_SIZE: usize = 20;

const ENTRY_64_SIZE: usize = 32;

/// A thin image of an input.
#[derive(Clone, Copy, Debug)]
pub struct Part {
    /// Its architecture and its size.
    pub shape: SliceShape,
    /// The place of its first byte, from the start of the input.
    pub offset: u64,
}

/// The range of an entry of a fat file.
#[derive(Clone, Copy, Debug)]
pub struct Entry {
    pub offset: u64,
    pub size: u64,
}

impl Shaped for Part {
    ghost use Rattle.fat_macho.specs.ShapeView.{shape_view};

    ghost shape = { λ part. shape_view part.shape };

    fn shape(&self) -> SliceShape {
        self.shape
    }
}

/// The images of an input that isn't refused by itself: a thin image is one, a fat file has its entries in order.
#[tactic(auto, using(crate::proofs::PartLaws::io_fails, crate::proofs::InputLaws::fat_input_fails, crate::proofs::InputLaws::fat_input_parts, crate::proofs::InputLaws::one_input_fails, crate::proofs::InputLaws::one_input_part))]
pub fn input_parts<S: Source>(alloc: Global, source: &mut S) -> Result<Vec<Part>, Error>
    ensures parts { IfOk result (λ parts. AreParts (S.source source.old) parts.items) }
    ensures cause { IfErr result (Fails (S.source source.old) (S.source source.new) input_cause) }
    ensures others { ChangesFaults (S.source source.old) (S.source source.new) }
    ensures known { HasLength (S.source source.old) }
{
    let len = source.len();
    match class_at(source, 0, len)? {
        InputClass::Fat { wide } => fat_parts(alloc, source, wide),
        class => {
            let part = part_of(class, 0, len)?;
            Ok(one_part(alloc, part)?)
        }
    }
}

// The images of a fat file whose entries have this width.
#[tactic(auto, using(crate::proofs::PartLaws::io_fails, crate::proofs::InputLaws::header_fails, crate::proofs::InputLaws::table_fails, crate::proofs::InputLaws::fat_fails, crate::proofs::InputLaws::fat_parts))]
fn fat_parts<S: Source>(alloc: Global, source: &mut S, wide: bool) -> Result<Vec<Part>, Error>
    ensures parts { IfOk result (λ parts. AreFatParts (S.source source.old) wide parts.items) }
    ensures cause { IfErr result (Fails (S.source source.old) (S.source source.new) (λ b. fat_cause b wide)) }
    ensures others { ChangesFaults (S.source source.old) (S.source source.new) }
{
    let len = source.len();
    if len < HEADER_SIZE as u64 {
        return Err(Error::InvalidMachO(InvalidCase::ShortFatHeader));
    }
    let count = count_at(source)?;
    if len < table_end(wide, u64::from(count)) {
        return Err(Error::InvalidMachO(InvalidCase::TablePastEnd));
    }
    entry_parts(alloc, source, wide, count)
}

// The images of the first entries.
fn entry_parts<S: Source>(
    alloc: Global,
    source: &mut S,
    wide: bool,
    count: u32,
) -> Result<Vec<Part>, Error>
    requires { fat_table_end wide count ≤ (S.source source.old).length }
    ensures parts { IfOk result (λ parts. AreEntryParts (S.source source.old) wide count parts.items) }
    ensures cause { IfErr result (Fails (S.source source.old) (S.source source.new) (λ b. first_cause (map (entry_cause b wide) (range_with_len 0 count)))) }
    ensures others { ChangesFaults (S.source source.old) (S.source source.new) }
{
    let mut parts = Vec::new(alloc);
    for k in 0..count {
        let part = next_part(source, wide, k, &parts)?;
        parts.push(part)?;
    }
    Ok(parts)
}

// The image of entry `k` behind those of the entries before it.
#[tactic(auto, using(crate::proofs::InputLaws::duplicate_fails, crate::proofs::InputLaws::next_parts))]
fn next_part<S: Source>(source: &mut S, wide: bool, k: u32, parts: &[Part]) -> Result<Part, Error>
    requires inside { fat_table_end wide (k + 1) ≤ (S.source source.old).length }
    requires before { AreEntryParts (S.source source.old) wide k parts.now }
    ensures parts { IfOk result (λ part. AreEntryParts (S.source source.old) wide (k + 1) (parts.now ++ part ∷ [])) }
    ensures cause { IfErr result (Fails (S.source source.old) (S.source source.new) (λ b. entry_cause b wide k)) }
    ensures others { ChangesFaults (S.source source.old) (S.source source.new) }
{
    let part = entry_part(source, wide, k)?;
    if is_among(parts, &part.shape) {
        return Err(part.shape.duplicate());
    }
    Ok(part)
}

// The image of entry `k`.
#[tactic(auto, using(crate::proofs::PartLaws::io_fails, crate::proofs::InputLaws::past_fails, crate::proofs::InputLaws::entry_fails, crate::proofs::InputLaws::entry_part))]
fn entry_part<S: Source>(source: &mut S, wide: bool, k: u32) -> Result<Part, Error>
    requires inside { fat_table_end wide (k + 1) ≤ (S.source source.old).length }
    ensures part { IfOk result (IsEntryPart (S.source source.old) wide k) }
    ensures cause { IfErr result (Fails (S.source source.old) (S.source source.new) (λ b. entry_cause b wide k)) }
    ensures others { ChangesFaults (S.source source.old) (S.source source.new) }
    ensures known { HasLength (S.source source.old) }
{
    let len = source.len();
    let entry = entry_at(source, wide, k)?;
    if entry.size > len || entry.offset > len - entry.size {
        return Err(Error::InvalidMachO(InvalidCase::SlicePastEnd));
    }
    part_at(source, entry.offset, entry.size)
}

fn one_part(alloc: Global, part: Part) -> Result<Vec<Part>, AllocError>
    ensures { IfOk result (λ parts. parts.items ≡ part ∷ []) }
{
    let mut parts = Vec::with_capacity(alloc, 1)?;
    parts.push(part)?;
    Ok(parts)
}

// The thin image of a range.
#[tactic(auto, using(crate::proofs::PartLaws::part_at, crate::proofs::PartLaws::class_fails, crate::proofs::PartLaws::io_fails))]
fn part_at<S: Source>(source: &mut S, offset: u64, size: u64) -> Result<Part, Error>
    requires inside { offset + size ≤ (S.source source.old).length }
    requires bound { offset + size < 2 ^ 64 }
    ensures part { IfOk result (IsPartAt (S.source source.old).bytes offset size) }
    ensures cause { IfErr result (Fails (S.source source.old) (S.source source.new) (λ b. class_cause (class_of (bytes_at b offset size)))) }
    ensures others { ChangesFaults (S.source source.old) (S.source source.new) }
{
    let class = class_at(source, offset, size)?;
    part_of(class, offset, size)
}

// The thin image of this class, in this range.
fn part_of(class: InputClass, offset: u64, size: u64) -> Result<Part, Error>
    ensures part { IfOk result (IsThin (class_view class) offset size) }
    ensures cause { IfErr result (λ e. IsSomeAnd (refusal_told e) (λ refusal. class_cause (class_view class) ≡ Some refusal)) }
{
    let case = match class {
        InputClass::Thin {
            cputype,
            cpusubtype,
        } => {
            let shape = SliceShape {
                cputype,
                cpusubtype,
                size,
            };
            return Ok(Part { shape, offset });
        }
        InputClass::Cut => InvalidCase::ShortHeader,
        InputClass::Fat { .. } => InvalidCase::NestedFat,
        InputClass::Bitcode => InvalidCase::Bitcode,
        InputClass::Archive => InvalidCase::Archive,
        InputClass::Unknown => InvalidCase::NotMachO,
    };
    Err(Error::InvalidMachO(case))
}

// The class of a range.
#[tactic(auto, using(crate::proofs::Classes::read_fails))]
fn class_at<S: Source>(source: &mut S, offset: u64, size: u64) -> Result<InputClass, Error>
    requires inside { offset + size ≤ (S.source source.old).length }
    requires bound { offset + size < 2 ^ 64 }
    ensures class { IfOk result (IsClassAt (S.source source.old).bytes offset size) }
    ensures failed { OnErr result (ReadFails (S.source source.old) (S.source source.new)) }
    ensures cause { IfErr result (λ e. e ≡ Io SourceFault) }
    ensures others { ChangesFaults (S.source source.old) (S.source source.new) }
{
    let mut front = [0; FRONT_SIZE];
    let front = &mut front[..front_len(size)];
    read_exact(source, front, offset)?;
    Ok(class_of(front))
}

// How many bytes of an input are looked at for its class.
fn front_len(size: u64) -> usize
    ensures value { result ≡ min size 32 }
{
    if size < FRONT_SIZE as u64 {
        size as usize
    } else {
        FRONT_SIZE
    }
}

// How many entries the header of a fat file counts.
#[tactic(auto, using(crate::proofs::Classes::read_fails, crate::proofs::PartLaws::count_at))]
fn count_at<S: Source>(source: &mut S) -> Result<u32, Error>
    requires { 8 ≤ (S.source source.old).length }
    ensures count { IfOk result (IsCount (S.source source.old).bytes) }
    ensures failed { OnErr result (ReadFails (S.source source.old) (S.source source.new)) }
    ensures cause { IfErr result (λ e. e ≡ Io SourceFault) }
    ensures others { ChangesFaults (S.source source.old) (S.source source.new) }
{
    let mut header = [0; HEADER_SIZE];
    let header = &mut header[..];
    read_exact(source, header, 0)?;
    Ok(peek(header, 4).unwrap())
}

// The range of entry `k`.
#[tactic(auto, using(crate::proofs::Classes::read_fails, crate::proofs::PartLaws::entry_at))]
fn entry_at<S: Source>(source: &mut S, wide: bool, k: u32) -> Result<Entry, Error>
    requires { fat_table_end wide (k + 1) ≤ (S.source source.old).length }
    ensures entry { IfOk result (IsEntryAt (S.source source.old).bytes wide k) }
    ensures failed { OnErr result (ReadFails (S.source source.old) (S.source source.new)) }
    ensures cause { IfErr result (λ e. e ≡ Io SourceFault) }
    ensures others { ChangesFaults (S.source source.old) (S.source source.new) }
{
    let mut bytes = [0; ENTRY_64_SIZE];
    let bytes = &mut bytes[..entry_size(wide)];
    read_exact(source, bytes, table_end(wide, u64::from(k)))?;
    Ok(entry_of(bytes, wide))
}

fn entry_size(wide: bool) -> usize
    ensures value { result ≡ fat_entry_size wide }
    ensures bound { result ≤ 32 }
{
    if wide { ENTRY_64_SIZE } else { ENTRY_SIZE }
}

// The range of an entry of this width.
fn entry_of(bytes: &[u8], wide: bool) -> Entry
    requires { fat_entry_size wide ≤ length bytes.now }
    ensures offset { result.offset ≡ (if wide then wide_entry_at bytes.now 0 else narrow_entry_at bytes.now 0).offset }
    ensures size { result.size ≡ (if wide then wide_entry_at bytes.now 0 else narrow_entry_at bytes.now 0).size }
{
    if wide {
        Entry {
            offset: be_at(bytes, 8, 8).unwrap(),
            size: be_at(bytes, 16, 8).unwrap(),
        }
    } else {
        Entry {
            offset: be_at(bytes, 8, 4).unwrap(),
            size: be_at(bytes, 12, 4).unwrap(),
        }
    }
}
