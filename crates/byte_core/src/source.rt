//! Sources: bytes that are read by their places.

ghost use Rattle.std.specs.Prelude.{◌≡◌, ◌+◌, ◌<◌, ◌≤◌, length, take, false, IfOk, OnErr, IfSome, IsOk};
ghost use Rattle.byte_core.specs.Count.{Rose};
ghost use Rattle.byte_core.specs.Number.{bytes_at};
ghost use Rattle.byte_core.specs.Streams.{SourceData, HasLength, ChangesFaults};

use crate::Failed;

/// Bytes that are read by their places. A call answers [`Failed`] only where the count of faults rose; neither the length
/// nor the bytes change.
pub trait Source {
    /// What a contract sees of the source.
    ghost source: { Self → SourceData };

    /// How many bytes it has.
    fn len(&self) -> u64
        ensures length { result ≡ (source self.now).length }
        ensures known { HasLength (source self.now) };

    /// Reads bytes from `offset` on into the front of the buffer, and answers how many: at least one where the offset is
    /// below the length and the buffer isn't empty, none at or past the length.
    fn read_at(&mut self, buf: &mut [u8], offset: u64) -> Result<usize, Failed>
        ensures count { IfOk result (λ n. n ≤ length buf.new) }
        ensures bytes { IfOk result (λ n. IfSome (source self.old).bytes (λ bytes. take n buf.new ≡ bytes_at bytes offset n)) }
        ensures inside { IfOk result (λ n. 0 < n → offset + n ≤ (source self.old).length) }
        ensures some { IfOk result (λ n. 0 < length buf.new → offset < (source self.old).length → 0 < n) }
        ensures room { length buf.new ≡ length buf.old }
        ensures failed { OnErr result (Rose (source self.old).faults (source self.new).faults) }
        ensures sure { (source self.old).can_fail ≡ false → IsOk result }
        ensures others { ChangesFaults (source self.old) (source self.new) };
}
