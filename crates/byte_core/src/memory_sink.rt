//! A sink in memory.

ghost use Rattle.std.specs.Prelude.{◌≡◌, [], Some, IfOk};
ghost use Rattle.byte_core.specs.MemorySink.{MemSinkData};

use crate::{Failed, Sink};
use std::alloc::{AllocError, Global};
use std::marker::Model;

/// A sink that keeps what it takes. It fails at the writes whose numbers it was given, counted from 0, and where a write of
/// some bytes finds no room. All room is taken when it is made: no write takes memory.
#[derive(Drop)]
pub struct MemSink<'a> {
    taken: Vec<u8>,
    fails: &'a [u64],
    writes: u64,
    faults: u64,
    room: usize,
}

impl<'a> Model for MemSink<'a> {
    ghost use Rattle.std.specs.Prelude.{◌≤◌};
    ghost use Rattle.std.specs.Vec.{vec_len, vec_capacity};
    ghost use Rattle.byte_core.specs.MemorySink.{MemSinkData, sink_view};

    ghost Value = { MemSinkData };

    ghost view = { sink_view };

    ghost invariant = { λ s. (vec_len s.taken ≤ s.room) × (s.room ≤ vec_capacity s.taken) };
}

impl<'a> MemSink<'a> {
    /// A sink with room for so many bytes.
    pub fn new(alloc: Global, fails: &'a [u64], room: usize) -> Result<MemSink<'a>, AllocError>
        ensures { IfOk result (λ sink. sink ≡ record {
          sink = record { written = Some []; faults = 0 };
          failing = fails.now;
          writes = 0;
          room = room;
        }) }
    {
        let taken = Vec::with_capacity(alloc, room)?;
        Ok(MemSink {
            taken,
            fails,
            writes: 0,
            faults: 0,
            room,
        })
    }

    /// All that it took.
    pub fn taken(&self) -> &[u8]
        ensures { Some result.now ≡ self.now.sink.written }
    {
        &self.taken
    }

    /// All that it took, without a copy.
    pub fn into_taken(self) -> Vec<u8>
        ensures { Some result.items ≡ self.entry.sink.written }
    {
        self.taken
    }
}

impl Sink for MemSink<'_> {
    ghost use Rattle.std.specs.Prelude.{◌≡◌, ◌<◌, ◌≤◌, ◌↔◌, ◌⊎◌, min, length, take, IfOk, OnErr, IsErr, Contains};
    ghost use Rattle.byte_core.specs.Count.{Rose};
    ghost use Rattle.byte_core.specs.Outside.{Appends};
    ghost use Rattle.byte_core.specs.Streams.{SinkData};
    ghost use Rattle.byte_core.specs.MemorySink.{MemSinkData, after_write, after_failed_write};

    ghost sink = { λ s. s.sink };

    fn write(&mut self, buf: &[u8]) -> Result<usize, Failed>
        ensures count { IfOk result (λ n. n ≤ length buf.now) }
        ensures some { IfOk result (λ n. 0 < length buf.now → 0 < n) }
        ensures taken { IfOk result (λ n. Appends self.old.sink.written self.new.sink.written (take n buf.now)) }
        ensures failed { OnErr result (Rose self.old.sink.faults self.new.sink.faults) }
        ensures kept { OnErr result (self.new.sink.written ≡ self.old.sink.written) }
        ensures rises { self.old.sink.faults ≤ self.new.sink.faults }
        ensures amount { IfOk result (λ n. n ≡ min (length buf.now) self.old.room) }
        ensures exact { IsErr result ↔ Contains self.old.failing self.old.writes ⊎ ((0 < length buf.now) × (self.old.room ≡ 0)) }
        ensures ok { IfOk result (λ n. self.new ≡ after_write self.old buf.now n) }
        ensures err { OnErr result (self.new ≡ after_failed_write self.old) }
    {
        let call = self.writes;
        self.writes = self.writes.saturating_add(1);
        let n = buf.len().min(self.room - self.taken.len());
        if self.fails.contains(&call) || (n == 0 && !buf.is_empty()) {
            self.faults = self.faults.saturating_add(1);
            return Err(Failed);
        }
        if self.taken.extend_from_slice(&buf[..n]).is_err() {
            unreachable!()
        }
        Ok(n)
    }
}
