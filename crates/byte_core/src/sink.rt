//! Sinks: what takes bytes behind those that it took before.

ghost use Rattle.std.specs.Prelude.{◌≡◌, ◌<◌, ◌≤◌, length, take, IfOk, OnErr};
ghost use Rattle.byte_core.specs.Count.{Rose};
ghost use Rattle.byte_core.specs.Outside.{Appends};
ghost use Rattle.byte_core.specs.Streams.{SinkData};

use crate::Failed;

/// What takes bytes behind those that it took before. A call answers [`Failed`] only where the count of faults rose, and
/// takes nothing then.
pub trait Sink {
    /// What a contract sees of the sink.
    ghost sink: { Self → SinkData };

    /// Puts a front of the bytes behind what was taken, at least one byte of a buffer that isn't empty, and answers how
    /// many.
    fn write(&mut self, buf: &[u8]) -> Result<usize, Failed>
        ensures count { IfOk result (λ n. n ≤ length buf.now) }
        ensures some { IfOk result (λ n. 0 < length buf.now → 0 < n) }
        ensures taken { IfOk result (λ n. Appends (sink self.old).written (sink self.new).written (take n buf.now)) }
        ensures failed { OnErr result (Rose (sink self.old).faults (sink self.new).faults) }
        ensures kept { OnErr result ((sink self.new).written ≡ (sink self.old).written) }
        ensures rises { (sink self.old).faults ≤ (sink self.new).faults };
}
