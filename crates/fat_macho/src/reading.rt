//! Reading of sources.

ghost use Rattle.std.specs.Prelude.{◌≡◌, ◌+◌, ◌^◌, ◌<◌, ◌≤◌, length, false, IfOk, IfErr, OnOk, OnErr, IsOk};
ghost use Rattle.byte_core.specs.Count.{Rose};
ghost use Rattle.byte_core.specs.Streams.{ChangesFaults};
ghost use Rattle.fat_macho.specs.Reading.{HoldsFront, HoldsRange};
ghost use Rattle.fat_macho.specs.declared.error.Error.TheVariants.{Io};
ghost use Rattle.fat_macho.specs.declared.error.IoCause.TheVariants.{Source as SourceFault};

use crate::{Error, IoCause};
use byte_core::Source;

/// Fills the buffer with bytes from `offset` on.
#[tactic(auto, using(crate::proofs::Fronts::no_front, crate::proofs::Fronts::whole_front, crate::proofs::Fronts::faults_again, crate::proofs::Fronts::no_faults))]
pub fn read_exact<S: Source>(source: &mut S, buf: &mut [u8], offset: u64) -> Result<(), Error>
    requires inside { offset + length buf.old ≤ (S.source source.old).length }
    requires bound { offset + length buf.old < 2 ^ 64 }
    ensures room { length buf.new ≡ length buf.old }
    ensures bytes { OnOk result (HoldsRange (S.source source.old).bytes buf.new offset (length buf.new)) }
    ensures failed { OnErr result (Rose (S.source source.old).faults (S.source source.new).faults) }
    ensures cause { IfErr result (λ e. e ≡ Io SourceFault) }
    ensures sure { (S.source source.old).can_fail ≡ false → IsOk result }
    ensures others { ChangesFaults (S.source source.old) (S.source source.new) }
{
    let mut done = 0;
    'reading: while done < buf.len() {
        done += read_more(source, buf, offset, done)?;
    }
    Ok(())
}

// Reads some bytes behind those that are there.
#[tactic(auto, using(crate::proofs::Fronts::more_front))]
fn read_more<S: Source>(
    source: &mut S,
    buf: &mut [u8],
    offset: u64,
    done: usize,
) -> Result<usize, Error>
    requires inside { offset + length buf.old ≤ (S.source source.old).length }
    requires bound { offset + length buf.old < 2 ^ 64 }
    requires left { done < length buf.old }
    requires front { HoldsFront (S.source source.old).bytes buf.old offset done }
    ensures some { IfOk result (λ count. 0 < count) }
    ensures room { IfOk result (λ count. done + count ≤ length buf.new) }
    ensures front { IfOk result (λ count. HoldsFront (S.source source.old).bytes buf.new offset (done + count)) }
    ensures length { length buf.new ≡ length buf.old }
    ensures failed { OnErr result (Rose (S.source source.old).faults (S.source source.new).faults) }
    ensures cause { IfErr result (λ e. e ≡ Io SourceFault) }
    ensures sure { (S.source source.old).can_fail ≡ false → IsOk result }
    ensures others { ChangesFaults (S.source source.old) (S.source source.new) }
{
    match source.read_at(&mut buf[done..], offset + done as u64) {
        Ok(count) => Ok(count),
        Err(_) => Err(Error::Io(IoCause::Source)),
    }
}
