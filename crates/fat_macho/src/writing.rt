//! Writing to sinks.

ghost use Rattle.std.specs.Prelude.{◌≡◌, ◌+◌, ◌^◌, ◌<◌, ◌≤◌, min, length, take, replicate, option_map, IfOk, OnOk, OnErr, IfErr};
ghost use Rattle.byte_core.specs.Count.{Rose};
ghost use Rattle.byte_core.specs.Number.{bytes_at};
ghost use Rattle.byte_core.specs.Outside.{AppendsFront};
ghost use Rattle.byte_core.specs.Streams.{HasLength, ChangesFaults};
ghost use Rattle.fat_macho.specs.Writing.{Puts, PutsKnown, FrontKnown, FailsBy};
ghost use Rattle.fat_macho.specs.declared.error.Error.TheVariants.{Io};
ghost use Rattle.fat_macho.specs.declared.error.IoCause.TheVariants.{Sink as SinkFault};

use crate::reading::read_exact;
use crate::{Error, IoCause};
use byte_core::{Sink, Source};

// Gaps and sources are written in blocks of so many bytes.
const BLOCK_SIZE: usize = 4096;

/// Writes all the bytes.
#[tactic(auto, using(crate::proofs::PutLaws::part_begins, crate::proofs::PutLaws::part_ends))]
pub fn write_all<W: Sink>(sink: &mut W, bytes: &[u8]) -> Result<(), Error>
    ensures ok { OnOk result (Puts (W.sink sink.old) (W.sink sink.new) bytes.now) }
    ensures front { OnErr result (AppendsFront (W.sink sink.old).written (W.sink sink.new).written bytes.now) }
    ensures failed { OnErr result (Rose (W.sink sink.old).faults (W.sink sink.new).faults) }
    ensures cause { IfErr result (λ e. e ≡ Io SinkFault) }
    ensures rises { (W.sink sink.old).faults ≤ (W.sink sink.new).faults }
{
    let mut done = 0;
    'writing: while done < bytes.len() {
        done += write_some(sink, &bytes[done..])?;
    }
    Ok(())
}

// Writes some of the bytes.
fn write_some<W: Sink>(sink: &mut W, bytes: &[u8]) -> Result<usize, Error>
    requires { 0 < length bytes.now }
    ensures some { IfOk result (λ n. 0 < n) }
    ensures count { IfOk result (λ n. n ≤ length bytes.now) }
    ensures ok { IfOk result (λ n. Puts (W.sink sink.old) (W.sink sink.new) (take n bytes.now)) }
    ensures kept { OnErr result ((W.sink sink.new).written ≡ (W.sink sink.old).written) }
    ensures failed { OnErr result (Rose (W.sink sink.old).faults (W.sink sink.new).faults) }
    ensures cause { IfErr result (λ e. e ≡ Io SinkFault) }
    ensures rises { (W.sink sink.old).faults ≤ (W.sink sink.new).faults }
{
    match sink.write(bytes) {
        Ok(count) => Ok(count),
        Err(_) => Err(Error::Io(IoCause::Sink)),
    }
}

/// Writes so many zeros.
pub fn write_zeros<W: Sink>(sink: &mut W, count: usize) -> Result<(), Error>
    ensures ok { OnOk result (Puts (W.sink sink.old) (W.sink sink.new) (replicate count 0)) }
    ensures front { OnErr result (AppendsFront (W.sink sink.old).written (W.sink sink.new).written (replicate count 0)) }
    ensures failed { OnErr result (Rose (W.sink sink.old).faults (W.sink sink.new).faults) }
    ensures cause { IfErr result (λ e. e ≡ Io SinkFault) }
    ensures rises { (W.sink sink.old).faults ≤ (W.sink sink.new).faults }
{
    let block = [0; BLOCK_SIZE];
    write_repeated(sink, &block, count)
}

// Writes so many zeros out of a block of them.
fn write_repeated<W: Sink>(sink: &mut W, block: &[u8], count: usize) -> Result<(), Error>
    requires zeros { block.now ≡ replicate (length block.now) 0 }
    requires some { 0 < length block.now }
    ensures ok { OnOk result (Puts (W.sink sink.old) (W.sink sink.new) (replicate count 0)) }
    ensures front { OnErr result (AppendsFront (W.sink sink.old).written (W.sink sink.new).written (replicate count 0)) }
    ensures failed { OnErr result (Rose (W.sink sink.old).faults (W.sink sink.new).faults) }
    ensures cause { IfErr result (λ e. e ≡ Io SinkFault) }
    ensures rises { (W.sink sink.old).faults ≤ (W.sink sink.new).faults }
{
    let mut left = count;
    'zeros: while left > 0 {
        let n = left.min(block.len());
        write_all(sink, &block[..n])?;
        left -= n;
    }
    Ok(())
}

/// Writes the bytes of a range of a source.
pub fn copy_range<S: Source, W: Sink>(
    source: &mut S,
    sink: &mut W,
    offset: u64,
    size: u64,
) -> Result<(), Error>
    requires { offset + size ≤ (S.source source.old).length }
    ensures ok { OnOk result (PutsKnown (option_map (λ b. bytes_at b offset size) (S.source source.old).bytes) (W.sink sink.old) (W.sink sink.new)) }
    ensures front { OnErr result (FrontKnown (option_map (λ b. bytes_at b offset size) (S.source source.old).bytes) (W.sink sink.old) (W.sink sink.new)) }
    ensures cause { IfErr result (FailsBy (Rose (S.source source.old).faults (S.source source.new).faults) (Rose (W.sink sink.old).faults (W.sink sink.new).faults)) }
    ensures others { ChangesFaults (S.source source.old) (S.source source.new) }
    ensures rises { (W.sink sink.old).faults ≤ (W.sink sink.new).faults }
{
    // The length of a source has 64 bits, so no place in it has more.
    let _len = source.len();
    let mut block = [0; BLOCK_SIZE];
    copy_by_blocks(source, sink, &mut block, offset, size)
}

// The same through a buffer.
fn copy_by_blocks<S: Source, W: Sink>(
    source: &mut S,
    sink: &mut W,
    buf: &mut [u8],
    offset: u64,
    size: u64,
) -> Result<(), Error>
    requires inside { offset + size ≤ (S.source source.old).length }
    requires bound { offset + size < 2 ^ 64 }
    requires some { 0 < length buf.old }
    ensures ok { OnOk result (PutsKnown (option_map (λ b. bytes_at b offset size) (S.source source.old).bytes) (W.sink sink.old) (W.sink sink.new)) }
    ensures front { OnErr result (FrontKnown (option_map (λ b. bytes_at b offset size) (S.source source.old).bytes) (W.sink sink.old) (W.sink sink.new)) }
    ensures cause { IfErr result (FailsBy (Rose (S.source source.old).faults (S.source source.new).faults) (Rose (W.sink sink.old).faults (W.sink sink.new).faults)) }
    ensures others { ChangesFaults (S.source source.old) (S.source source.new) }
    ensures rises { (W.sink sink.old).faults ≤ (W.sink sink.new).faults }
{
    let mut done = 0;
    'copying: while done < size {
        let n = part_len(size - done, buf.len());
        copy_block(source, sink, &mut buf[..n], offset + done)?;
        done += n as u64;
    }
    Ok(())
}

// How many of so many bytes a buffer has room for.
fn part_len(left: u64, room: usize) -> usize
    ensures { result ≡ min left room }
{
    if left < room as u64 {
        left as usize
    } else {
        room
    }
}

// Copies as many bytes as the buffer has, from this place of a source on.
fn copy_block<S: Source, W: Sink>(
    source: &mut S,
    sink: &mut W,
    buf: &mut [u8],
    at: u64,
) -> Result<(), Error>
    requires inside { at + length buf.old ≤ (S.source source.old).length }
    requires bound { at + length buf.old < 2 ^ 64 }
    ensures ok { OnOk result (PutsKnown (option_map (λ b. bytes_at b at (length buf.old)) (S.source source.old).bytes) (W.sink sink.old) (W.sink sink.new)) }
    ensures front { OnErr result (FrontKnown (option_map (λ b. bytes_at b at (length buf.old)) (S.source source.old).bytes) (W.sink sink.old) (W.sink sink.new)) }
    ensures cause { IfErr result (FailsBy (Rose (S.source source.old).faults (S.source source.new).faults) (Rose (W.sink sink.old).faults (W.sink sink.new).faults)) }
    ensures others { ChangesFaults (S.source source.old) (S.source source.new) }
    ensures rises { (W.sink sink.old).faults ≤ (W.sink sink.new).faults }
    ensures room { length buf.new ≡ length buf.old }
{
    read_exact(source, buf, at)?;
    write_all(sink, buf)
}
