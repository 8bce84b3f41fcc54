//! A host in memory, for tests and for programs without streams.

ghost use Rattle.std.specs.Prelude.{◌≡◌, ◌<◌, ◌↔◌, ◌⊎◌, [], length, Some, None, IfOk, IfSome, IsTrue, Contains};
ghost use Rattle.byte_core.specs.Outside.{file_at};
ghost use Rattle.byte_core.specs.NamedFiles.{named_files};
ghost use Rattle.byte_core.specs.MemoryHost.{MemHostData};

use crate::copying::copy_at;
use crate::named_file::bytes_of;
use crate::{Failed, Host, NamedFile};
use std::alloc::{AllocError, Global};
use std::marker::Model;

/// The numbers of the calls that fail, counted from 0 for each method.
#[derive(Clone, Copy, Debug)]
pub struct FailingCalls<'a> {
    pub reads: &'a [u64],
    pub writes: &'a [u64],
    pub err_writes: &'a [u64],
    pub opens: &'a [u64],
    pub file_reads: &'a [u64],
}

impl FailingCalls<'_> {
    /// No call fails.
    pub const NONE: FailingCalls<'static> = FailingCalls {
        reads: &[],
        writes: &[],
        err_writes: &[],
        opens: &[],
        file_reads: &[],
    };
}

/// A host whose input, outputs and files are known. It fails at the calls whose numbers it was given,
/// where a write of some bytes finds no room, and where a path is opened that it doesn't hold. All
/// room is taken when it is made: no call takes memory.
#[derive(Drop)]
pub struct MemHost<'a> {
    input: &'a [u8],
    taken: u64,
    fails: FailingCalls<'a>,
    reads: u64,
    writes: u64,
    err_writes: u64,
    opens: u64,
    file_reads: u64,
    read_faults: u64,
    write_faults: u64,
    err_faults: u64,
    open_faults: u64,
    file_faults: u64,
    files: &'a [NamedFile<'a>],
    file: Option<&'a [u8]>,
    output: Vec<u8>,
    errors: Vec<u8>,
    room: usize,
}

impl<'a> Model for MemHost<'a> {
    ghost use Rattle.std.specs.Prelude.{◌+◌, ◌≤◌};
    ghost use Rattle.std.specs.Vec.{vec_len, vec_capacity};
    ghost use Rattle.byte_core.specs.MemoryHost.{MemHostData, host_view};

    ghost Value = { MemHostData };

    ghost view = { host_view };

    ghost invariant = { λ h. (vec_len h.output + vec_len h.errors ≤ h.room) × (h.room ≤ vec_capacity h.output) × (h.room ≤ vec_capacity h.errors) };
}

impl<'a> MemHost<'a> {
    /// A host with this input, these files, of which the first of a path counts, and room for so many
    /// bytes of output and fault text together.
    pub fn new(
        alloc: Global,
        input: &'a [u8],
        files: &'a [NamedFile<'a>],
        fails: FailingCalls<'a>,
        room: usize,
    ) -> Result<MemHost<'a>, AllocError>
        ensures { IfOk result (λ host. host ≡ record {
          outside = record {
            input = Some input.now;
            taken = 0;
            read_faults = 0;
            output = Some [];
            write_faults = 0;
            errors = Some [];
            err_faults = 0;
            files = Some (named_files files.now);
            open_faults = 0;
            file = None;
            file_faults = 0;
          };
          failing_reads = fails.entry.reads.now;
          failing_writes = fails.entry.writes.now;
          failing_err_writes = fails.entry.err_writes.now;
          failing_opens = fails.entry.opens.now;
          failing_file_reads = fails.entry.file_reads.now;
          reads = 0;
          writes = 0;
          err_writes = 0;
          opens = 0;
          file_reads = 0;
          room = room;
        }) }
    {
        let output = Vec::with_capacity(alloc, room)?;
        let errors = Vec::with_capacity(alloc, room)?;
        Ok(MemHost {
            input,
            taken: 0,
            fails,
            reads: 0,
            writes: 0,
            err_writes: 0,
            opens: 0,
            file_reads: 0,
            read_faults: 0,
            write_faults: 0,
            err_faults: 0,
            open_faults: 0,
            file_faults: 0,
            files,
            file: None,
            output,
            errors,
            room,
        })
    }

    /// How many bytes the outputs still have room for.
    fn room_left(&self) -> usize
        ensures { result ≡ self.now.room }
    {
        self.room - (self.output.len() + self.errors.len())
    }

    /// All that the output took.
    pub fn output(&self) -> &[u8]
        ensures { Some result.now ≡ self.now.outside.output }
    {
        &self.output
    }

    /// All that the fault text took.
    pub fn errors(&self) -> &[u8]
        ensures { Some result.now ≡ self.now.outside.errors }
    {
        &self.errors
    }
}

/// Whether the write of a number is one that fails, or finds no room for any of its bytes.
fn is_refused(failing: &[u64], call: u64, bytes: &[u8], room: usize) -> bool
    ensures { IsTrue result ↔ (Contains failing.now call ⊎ ((0 < length bytes.now) × (room ≡ 0))) }
{
    failing.contains(&call) || (room == 0 && !bytes.is_empty())
}

/// The bytes of the first file of a path, where the opening of that number isn't one that fails.
fn opened<'a>(files: &[NamedFile<'a>], failing: &[u64], call: u64, path: &str) -> Option<&'a [u8]>
    ensures none { (result ≡ None) ↔ (Contains failing.now call ⊎ (file_at path.now (named_files files.now) ≡ None)) }
    ensures some { IfSome result (λ bytes. file_at path.now (named_files files.now) ≡ Some bytes.now) }
{
    if failing.contains(&call) {
        return None;
    }
    bytes_of(files, path)
}

impl Host for MemHost<'_> {
    ghost use Rattle.std.specs.Prelude.{◌≡◌, ◌+◌, ◌-◌, ◌<◌, ◌≤◌, ◌↔◌, ◌⊎◌, min, length, take, None, IfOk, OnOk, IfSome, IsSome, OnErr, IsErr, Contains};
    ghost use Rattle.byte_core.specs.Count.{Rose};
    ghost use Rattle.byte_core.specs.Outside.{Outside, TakesInput, KeepsInput, ChangesInput, ChangesOutput, ChangesErrors, ChangesFile, ReadsFile, Appends, IsAtEnd, IsFileOf, file_at};
    ghost use Rattle.byte_core.specs.Number.{bytes_at};
    ghost use Rattle.byte_core.specs.MemoryHost.{MemHostData, after_read, after_failed_read, after_write, after_failed_write, after_err_write, after_failed_err_write, after_open, after_failed_open, after_file_read, after_failed_file_read};

    ghost outside = { λ h. h.outside };

    fn read(&mut self, buf: &mut [u8]) -> Result<usize, Failed>
        ensures count { IfOk result (λ n. n ≤ length buf.new) }
        ensures taken { IfOk result (λ n. TakesInput self.old.outside self.new.outside (take n buf.new)) }
        ensures end { IfOk result (λ n. n ≡ 0 → 0 < length buf.new → IsAtEnd self.new.outside) }
        ensures failed { OnErr result (Rose self.old.outside.read_faults self.new.outside.read_faults) }
        ensures kept { OnErr result (KeepsInput self.old.outside self.new.outside) }
        ensures others { ChangesInput self.old.outside self.new.outside }
        ensures exact { IsErr result ↔ Contains self.old.failing_reads self.old.reads }
        ensures amount { IfOk result (λ n. IfSome self.old.outside.input (λ left. n ≡ min (length buf.new) (length left))) }
        ensures ok { IfOk result (λ n. self.new ≡ after_read self.old n) }
        ensures err { OnErr result (self.new ≡ after_failed_read self.old) }
    {
        let call = self.reads;
        self.reads = self.reads.saturating_add(1);
        if self.fails.reads.contains(&call) {
            self.read_faults = self.read_faults.saturating_add(1);
            return Err(Failed);
        }
        let n = buf.len().min(self.input.len());
        let (front, rest) = self.input.split_at(n);
        buf[..n].copy_from_slice(front);
        self.input = rest;
        self.taken = self.taken.saturating_add(n as u64);
        Ok(n)
    }

    fn write(&mut self, buf: &[u8]) -> Result<usize, Failed>
        ensures count { IfOk result (λ n. n ≤ length buf.now) }
        ensures some { IfOk result (λ n. 0 < length buf.now → 0 < n) }
        ensures taken { IfOk result (λ n. Appends self.old.outside.output self.new.outside.output (take n buf.now)) }
        ensures failed { OnErr result (Rose self.old.outside.write_faults self.new.outside.write_faults) }
        ensures kept { OnErr result (self.new.outside.output ≡ self.old.outside.output) }
        ensures others { ChangesOutput self.old.outside self.new.outside }
        ensures amount { IfOk result (λ n. n ≡ min (length buf.now) self.old.room) }
        ensures exact { IsErr result ↔ Contains self.old.failing_writes self.old.writes ⊎ ((0 < length buf.now) × (self.old.room ≡ 0)) }
        ensures ok { IfOk result (λ n. self.new ≡ after_write self.old buf.now n) }
        ensures err { OnErr result (self.new ≡ after_failed_write self.old) }
    {
        let room = self.room_left();
        let call = self.writes;
        self.writes = self.writes.saturating_add(1);
        let n = buf.len().min(room);
        if is_refused(self.fails.writes, call, buf, room) {
            self.write_faults = self.write_faults.saturating_add(1);
            return Err(Failed);
        }
        if self.output.extend_from_slice(&buf[..n]).is_err() {
            unreachable!()
        }
        Ok(n)
    }

    fn write_err(&mut self, buf: &[u8]) -> Result<usize, Failed>
        ensures count { IfOk result (λ n. n ≤ length buf.now) }
        ensures some { IfOk result (λ n. 0 < length buf.now → 0 < n) }
        ensures taken { IfOk result (λ n. Appends self.old.outside.errors self.new.outside.errors (take n buf.now)) }
        ensures failed { OnErr result (Rose self.old.outside.err_faults self.new.outside.err_faults) }
        ensures kept { OnErr result (self.new.outside.errors ≡ self.old.outside.errors) }
        ensures others { ChangesErrors self.old.outside self.new.outside }
        ensures amount { IfOk result (λ n. n ≡ min (length buf.now) self.old.room) }
        ensures exact { IsErr result ↔ Contains self.old.failing_err_writes self.old.err_writes ⊎ ((0 < length buf.now) × (self.old.room ≡ 0)) }
        ensures ok { IfOk result (λ n. self.new ≡ after_err_write self.old buf.now n) }
        ensures err { OnErr result (self.new ≡ after_failed_err_write self.old) }
    {
        let room = self.room_left();
        let call = self.err_writes;
        self.err_writes = self.err_writes.saturating_add(1);
        let n = buf.len().min(room);
        if is_refused(self.fails.err_writes, call, buf, room) {
            self.err_faults = self.err_faults.saturating_add(1);
            return Err(Failed);
        }
        if self.errors.extend_from_slice(&buf[..n]).is_err() {
            unreachable!()
        }
        Ok(n)
    }

    fn open_file(&mut self, path: &str) -> Result<u64, Failed>
        ensures opened { IfOk result (λ n. IsFileOf self.old.outside.files path.now self.new.outside.file n) }
        ensures closed { OnErr result (self.new.outside.file ≡ None) }
        ensures failed { OnErr result (Rose self.old.outside.open_faults self.new.outside.open_faults) }
        ensures others { ChangesFile self.old.outside self.new.outside }
        ensures exact { IsErr result ↔ Contains self.old.failing_opens self.old.opens ⊎ IfSome self.old.outside.files (λ files. file_at path.now files ≡ None) }
        ensures ok { OnOk result (IfSome self.old.outside.files (λ files. IfSome (file_at path.now files) (λ bytes. self.new ≡ after_open self.old bytes))) }
        ensures err { OnErr result (self.new ≡ after_failed_open self.old) }
    {
        let call = self.opens;
        self.opens = self.opens.saturating_add(1);
        self.file = opened(self.files, self.fails.opens, call, path);
        match self.file {
            Some(bytes) => Ok(bytes.len() as u64),
            None => {
                self.open_faults = self.open_faults.saturating_add(1);
                Err(Failed)
            }
        }
    }

    fn read_file(&mut self, buf: &mut [u8], offset: u64) -> Result<usize, Failed>
        requires current { IsSome self.old.outside.file }
        ensures count { IfOk result (λ n. n ≤ length buf.new) }
        ensures bytes { IfOk result (λ n. IfSome self.old.outside.file
            (λ file. IfSome file.bytes (λ bytes. take n buf.new ≡ bytes_at bytes offset n))) }
        ensures inside { IfOk result (λ n. 0 < n → IfSome self.old.outside.file (λ file. offset + n ≤ file.length)) }
        ensures some { IfOk result (λ n. 0 < length buf.new → IfSome self.old.outside.file (λ file. offset < file.length → 0 < n)) }
        ensures room { length buf.new ≡ length buf.old }
        ensures failed { OnErr result (Rose self.old.outside.file_faults self.new.outside.file_faults) }
        ensures others { ReadsFile self.old.outside self.new.outside }
        ensures exact { IsErr result ↔ Contains self.old.failing_file_reads self.old.file_reads }
        ensures amount { IfOk result (λ n. IfSome self.old.outside.file (λ file. n ≡ min (length buf.new) (file.length - offset))) }
        ensures ok { OnOk result (self.new ≡ after_file_read self.old) }
        ensures err { OnErr result (self.new ≡ after_failed_file_read self.old) }
    {
        let Some(bytes) = self.file else {
            unreachable!()
        };
        let call = self.file_reads;
        self.file_reads = self.file_reads.saturating_add(1);
        if self.fails.file_reads.contains(&call) {
            self.file_faults = self.file_faults.saturating_add(1);
            return Err(Failed);
        }
        Ok(copy_at(bytes, buf, offset))
    }
}
