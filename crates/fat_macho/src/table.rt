//! The header and the table of a fat file: Apple's `mach-o/fat.h`, `struct fat_header`, `struct fat_arch` and
//! `struct fat_arch_64`.

ghost use Rattle.std.specs.Prelude.{◌≡◌, ◌+◌, ◌++◌, ◌<◌, ◌≤◌, length, take, OnOk, OnErr, IfErr};
ghost use Rattle.byte_core.specs.Count.{Rose};
ghost use Rattle.byte_core.specs.Outside.{AppendsFront};
ghost use Rattle.image_read.specs.FatFile.{fat_entry_size};
ghost use Rattle.fat_macho.specs.FatBytes.{big_bytes, header_bytes, narrow_row, wide_row, row_bytes};
ghost use Rattle.fat_macho.specs.FatHolds.{power_of};
ghost use Rattle.fat_macho.specs.ShapeView.{shape_view};
ghost use Rattle.fat_macho.specs.Writing.{Puts};
ghost use Rattle.fat_macho.specs.declared.error.Error.TheVariants.{Io};
ghost use Rattle.fat_macho.specs.declared.error.IoCause.TheVariants.{Sink as SinkFault};

use crate::Error;
use crate::shape::SliceShape;
use crate::writing::write_all;
use byte_core::{Sink, place_number};
use goblin_mach::{FAT_MAGIC, FAT_MAGIC_64};

const HEADER_SIZE: usize = 8;

// The size of the longest entry in bytes.
const MAX_ENTRY_SIZE: usize = 32;

/// Writes the header of a table of so many entries.
#[tactic(auto, unfolding(crate::specs::FatBytes::header_bytes))]
pub fn write_header<W: Sink>(sink: &mut W, wide: bool, count: u32) -> Result<(), Error>
    ensures ok { OnOk result (Puts (W.sink sink.old) (W.sink sink.new) (header_bytes wide count)) }
    ensures front { OnErr result (AppendsFront (W.sink sink.old).written (W.sink sink.new).written (header_bytes wide count)) }
    ensures failed { OnErr result (Rose (W.sink sink.old).faults (W.sink sink.new).faults) }
    ensures cause { IfErr result (λ e. e ≡ Io SinkFault) }
    ensures rises { (W.sink sink.old).faults ≤ (W.sink sink.new).faults }
{
    let mut header = [0; HEADER_SIZE];
    let end = place_header(&mut header, wide, count);
    write_all(sink, &header[..end])
}

#[tactic(auto, unfolding(crate::specs::FatBytes::header_bytes))]
fn place_header(out: &mut [u8], wide: bool, count: u32) -> usize
    requires { 8 ≤ length out.old }
    ensures bytes { take result out.new ≡ header_bytes wide count }
    ensures inside { result ≤ length out.new }
    ensures len { length out.new ≡ length out.old }
{
    let magic = if wide { FAT_MAGIC_64 } else { FAT_MAGIC };
    let at = place_big(out, 0, 4, u64::from(magic));
    place_big(out, at, 4, u64::from(count))
}

/// Writes the entry of a slice that stands at this offset.
pub fn write_row<W: Sink>(
    sink: &mut W,
    wide: bool,
    align: u64,
    shape: &SliceShape,
    offset: u64,
) -> Result<(), Error>
    ensures ok { OnOk result (Puts (W.sink sink.old) (W.sink sink.new) (row_bytes wide align (shape_view shape.now) offset)) }
    ensures front { OnErr result (AppendsFront (W.sink sink.old).written (W.sink sink.new).written (row_bytes wide align (shape_view shape.now) offset)) }
    ensures failed { OnErr result (Rose (W.sink sink.old).faults (W.sink sink.new).faults) }
    ensures cause { IfErr result (λ e. e ≡ Io SinkFault) }
    ensures rises { (W.sink sink.old).faults ≤ (W.sink sink.new).faults }
{
    let mut row = [0; MAX_ENTRY_SIZE];
    let end = if wide {
        place_wide_row(&mut row, align, shape, offset)
    } else {
        place_narrow_row(&mut row, align, shape, offset)
    };
    write_all(sink, &row[..end])
}

#[tactic(auto, unfolding(crate::specs::FatBytes::narrow_row))]
fn place_narrow_row(out: &mut [u8], align: u64, shape: &SliceShape, offset: u64) -> usize
    requires { 20 ≤ length out.old }
    ensures bytes { take result out.new ≡ narrow_row align (shape_view shape.now) offset }
    ensures inside { result ≤ length out.new }
    ensures len { length out.new ≡ length out.old }
{
    let at = place_big(out, 0, 4, u64::from(shape.cputype));
    let at = place_big(out, at, 4, u64::from(shape.cpusubtype));
    let at = place_big(out, at, 4, offset);
    let at = place_big(out, at, 4, shape.size);
    place_big(out, at, 4, power_of(align))
}

#[tactic(auto, unfolding(crate::specs::FatBytes::wide_row))]
fn place_wide_row(out: &mut [u8], align: u64, shape: &SliceShape, offset: u64) -> usize
    requires { 32 ≤ length out.old }
    ensures bytes { take result out.new ≡ wide_row align (shape_view shape.now) offset }
    ensures inside { result ≤ length out.new }
    ensures len { length out.new ≡ length out.old }
{
    let at = place_big(out, 0, 4, u64::from(shape.cputype));
    let at = place_big(out, at, 4, u64::from(shape.cpusubtype));
    let at = place_big(out, at, 8, offset);
    let at = place_big(out, at, 8, shape.size);
    let at = place_big(out, at, 4, power_of(align));
    place_big(out, at, 4, 0)
}

// The power of two that an alignment of slices is.
fn power_of(align: u64) -> u64
    ensures { result ≡ power_of align }
{
    match align {
        0x4000 => 14,
        0x2000 => 13,
        0x1000 => 12,
        _ => 0,
    }
}

// Writes the `width` lowest bytes of a number, the highest byte first.
fn place_big(out: &mut [u8], at: usize, width: usize, value: u64) -> usize
    requires { at + width ≤ length out.old }
    ensures bytes { take result out.new ≡ take at out.old ++ big_bytes width value }
    ensures end { result ≡ at + width }
    ensures len { length out.new ≡ length out.old }
{
    let end = place_number(out, at, width, value);
    out[at..end].reverse();
    end
}
