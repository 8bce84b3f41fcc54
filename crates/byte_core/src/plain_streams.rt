//! A source and a sink that never fail.

ghost use Rattle.std.specs.Prelude.{◌≡◌};

use crate::copying::copy_at;
use crate::{Failed, Sink, Source};
use std::marker::Model;

/// A source of borrowed bytes that never fails. A contract sees its bytes.
#[derive(Drop)]
pub struct PlainSource<'a> {
    bytes: &'a [u8],
}

impl<'a> Model for PlainSource<'a> {
    ghost use Rattle.std.specs.Prelude.{List, ℕ};

    ghost Value = { List ℕ };

    ghost view = { λ s. s.bytes.now };
}

impl<'a> PlainSource<'a> {
    /// A source of these bytes.
    pub fn new(bytes: &'a [u8]) -> PlainSource<'a>
        ensures { result ≡ bytes.now }
    {
        PlainSource { bytes }
    }
}

impl Source for PlainSource<'_> {
    ghost use Rattle.std.specs.Prelude.{◌≡◌, ◌+◌, ◌-◌, ◌<◌, ◌≤◌, min, length, take, false, Ok, IfOk, OnErr, IfSome, IsOk};
    ghost use Rattle.byte_core.specs.Count.{Rose};
    ghost use Rattle.byte_core.specs.Number.{bytes_at};
    ghost use Rattle.byte_core.specs.Streams.{SourceData, HasLength, ChangesFaults};
    ghost use Rattle.byte_core.specs.PlainStreams.{plain_source};

    ghost source = { plain_source };

    fn len(&self) -> u64 {
        self.bytes.len() as u64
    }

    fn read_at(&mut self, buf: &mut [u8], offset: u64) -> Result<usize, Failed>
        ensures count { IfOk result (λ n. n ≤ length buf.new) }
        ensures bytes { IfOk result (λ n. IfSome (plain_source self.old).bytes (λ bytes. take n buf.new ≡ bytes_at bytes offset n)) }
        ensures inside { IfOk result (λ n. 0 < n → offset + n ≤ (plain_source self.old).length) }
        ensures some { IfOk result (λ n. 0 < length buf.new → offset < (plain_source self.old).length → 0 < n) }
        ensures room { length buf.new ≡ length buf.old }
        ensures failed { OnErr result (Rose (plain_source self.old).faults (plain_source self.new).faults) }
        ensures sure { (plain_source self.old).can_fail ≡ false → IsOk result }
        ensures others { ChangesFaults (plain_source self.old) (plain_source self.new) }
        ensures never { result ≡ Ok (min (length buf.new) (length self.old - offset)) }
        ensures same { self.new ≡ self.old }
    {
        Ok(copy_at(self.bytes, buf, offset))
    }
}

/// A sink that never fails. What it is given to write isn't kept, so it tells nothing of it.
#[derive(Clone, Copy, Debug, PartialEq, Eq)]
pub struct PlainSink;

impl Sink for PlainSink {
    ghost use Rattle.std.specs.Prelude.{◌≡◌, ◌<◌, ◌≤◌, length, take, Ok, IfOk, OnErr};
    ghost use Rattle.byte_core.specs.Count.{Rose};
    ghost use Rattle.byte_core.specs.Outside.{Appends};
    ghost use Rattle.byte_core.specs.Streams.{SinkData};
    ghost use Rattle.byte_core.specs.PlainStreams.{plain_sink};

    ghost sink = { λ _. plain_sink };

    fn write(&mut self, buf: &[u8]) -> Result<usize, Failed>
        ensures count { IfOk result (λ n. n ≤ length buf.now) }
        ensures some { IfOk result (λ n. 0 < length buf.now → 0 < n) }
        ensures taken { IfOk result (λ n. Appends plain_sink.written plain_sink.written (take n buf.now)) }
        ensures failed { OnErr result (Rose plain_sink.faults plain_sink.faults) }
        ensures never { result ≡ Ok (length buf.now) }
    {
        Ok(buf.len())
    }
}
