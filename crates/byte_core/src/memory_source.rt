//! A source in memory, for tests and for programs without files.

ghost use Rattle.std.specs.Prelude.{◌≡◌, nat_lt, length, Some};
ghost use Rattle.byte_core.specs.MemorySource.{MemSourceData};

use crate::copying::copy_at;
use crate::{Failed, Source};
use std::marker::Model;

/// A source of borrowed bytes. It fails at the reads whose numbers it was given, counted from 0, and can fail where there
/// are such.
#[derive(Drop)]
pub struct MemSource<'a> {
    bytes: &'a [u8],
    fails: &'a [u64],
    reads: u64,
    faults: u64,
}

impl<'a> Model for MemSource<'a> {
    ghost use Rattle.byte_core.specs.MemorySource.{MemSourceData, source_view};

    ghost Value = { MemSourceData };

    ghost view = { source_view };
}

impl<'a> MemSource<'a> {
    /// A source of these bytes.
    pub fn new(bytes: &'a [u8], fails: &'a [u64]) -> MemSource<'a>
        ensures { result ≡ record {
          source = record { length = length bytes.now; bytes = Some bytes.now; can_fail = nat_lt 0 (length fails.now); faults = 0 };
          failing = fails.now;
          reads = 0;
        } }
    {
        MemSource {
            bytes,
            fails,
            reads: 0,
            faults: 0,
        }
    }
}

impl Source for MemSource<'_> {
    ghost use Rattle.std.specs.Prelude.{◌≡◌, ◌+◌, ◌-◌, ◌<◌, ◌≤◌, ◌↔◌, min, length, take, false, IfOk, OnOk, OnErr, IfSome, IsOk, IsErr, Contains};
    ghost use Rattle.byte_core.specs.Count.{Rose};
    ghost use Rattle.byte_core.specs.Number.{bytes_at};
    ghost use Rattle.byte_core.specs.Streams.{SourceData, HasLength, ChangesFaults};
    ghost use Rattle.byte_core.specs.MemorySource.{MemSourceData, after_read, after_failed_read};

    ghost source = { λ s. s.source };

    fn len(&self) -> u64 {
        self.bytes.len() as u64
    }

    fn read_at(&mut self, buf: &mut [u8], offset: u64) -> Result<usize, Failed>
        ensures count { IfOk result (λ n. n ≤ length buf.new) }
        ensures bytes { IfOk result (λ n. IfSome self.old.source.bytes (λ bytes. take n buf.new ≡ bytes_at bytes offset n)) }
        ensures inside { IfOk result (λ n. 0 < n → offset + n ≤ self.old.source.length) }
        ensures some { IfOk result (λ n. 0 < length buf.new → offset < self.old.source.length → 0 < n) }
        ensures room { length buf.new ≡ length buf.old }
        ensures failed { OnErr result (Rose self.old.source.faults self.new.source.faults) }
        ensures sure { self.old.source.can_fail ≡ false → IsOk result }
        ensures others { ChangesFaults self.old.source self.new.source }
        ensures exact { IsErr result ↔ Contains self.old.failing self.old.reads }
        ensures amount { IfOk result (λ n. n ≡ min (length buf.new) (self.old.source.length - offset)) }
        ensures ok { OnOk result (self.new ≡ after_read self.old) }
        ensures err { OnErr result (self.new ≡ after_failed_read self.old) }
    {
        let call = self.reads;
        self.reads = self.reads.saturating_add(1);
        if self.fails.contains(&call) {
            self.faults = self.faults.saturating_add(1);
            return Err(Failed);
        }
        Ok(copy_at(self.bytes, buf, offset))
    }
}
