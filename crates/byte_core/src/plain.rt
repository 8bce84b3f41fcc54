//! A host that never fails.

ghost use Rattle.std.specs.Prelude.{◌≡◌, None};
ghost use Rattle.byte_core.specs.NamedFiles.{named_files};
ghost use Rattle.byte_core.specs.PlainHost.{PlainHostData};

use crate::copying::copy_at;
use crate::named_file::bytes_of;
use crate::{Failed, Host, NamedFile};
use std::marker::Model;

/// A host with a known input and known files that never fails: a file of a path that it doesn't hold is
/// empty. What it is given to write isn't kept, so it tells nothing of its outputs.
#[derive(Drop)]
pub struct PlainHost<'a> {
    input: &'a [u8],
    taken: u64,
    files: &'a [NamedFile<'a>],
    file: Option<&'a [u8]>,
}

impl<'a> Model for PlainHost<'a> {
    ghost use Rattle.std.specs.Prelude.{option_copied};
    ghost use Rattle.byte_core.specs.NamedFiles.{named_files};
    ghost use Rattle.byte_core.specs.PlainHost.{PlainHostData};

    ghost Value = { PlainHostData };

    ghost view = { λ h. record { input = h.input.now; taken = h.taken; files = named_files h.files.now; file = option_copied h.file } };
}

impl<'a> PlainHost<'a> {
    /// A host with this input and these files, of which the first of a path counts.
    pub fn new(input: &'a [u8], files: &'a [NamedFile<'a>]) -> PlainHost<'a>
        ensures { result ≡ record { input = input.now; taken = 0; files = named_files files.now; file = None } }
    {
        PlainHost {
            input,
            taken: 0,
            files,
            file: None,
        }
    }
}

impl Host for PlainHost<'_> {
    ghost use Rattle.std.specs.Prelude.{◌≡◌, ◌+◌, ◌-◌, ◌<◌, ◌≤◌, ◌∷◌, min, length, take, Ok, None, IfOk, OnErr, IsOk, IsSome, IfSome};
    ghost use Rattle.byte_core.specs.Count.{Rose};
    ghost use Rattle.byte_core.specs.Number.{bytes_at};
    ghost use Rattle.byte_core.specs.Outside.{Outside, TakesInput, KeepsInput, ChangesInput, ChangesOutput, ChangesErrors, ChangesFile, ReadsFile, Appends, IsAtEnd, IsFileOf};
    ghost use Rattle.byte_core.specs.PlainHost.{PlainHostData, plain_outside, after_opening};

    ghost outside = { plain_outside };

    fn read(&mut self, buf: &mut [u8]) -> Result<usize, Failed>
        ensures count { IfOk result (λ n. n ≤ length buf.new) }
        ensures taken { IfOk result (λ n. TakesInput (plain_outside self.old) (plain_outside self.new) (take n buf.new)) }
        ensures end { IfOk result (λ n. n ≡ 0 → 0 < length buf.new → IsAtEnd (plain_outside self.new)) }
        ensures failed { OnErr result (Rose (plain_outside self.old).read_faults (plain_outside self.new).read_faults) }
        ensures kept { OnErr result (KeepsInput (plain_outside self.old) (plain_outside self.new)) }
        ensures others { ChangesInput (plain_outside self.old) (plain_outside self.new) }
        ensures never { IsOk result }
    {
        let n = buf.len().min(self.input.len());
        let (front, rest) = self.input.split_at(n);
        buf[..n].copy_from_slice(front);
        self.input = rest;
        self.taken = self.taken.saturating_add(n as u64);
        Ok(n)
    }

    fn write(&mut self, buf: &[u8]) -> Result<usize, Failed>
        ensures count { IfOk result (λ n. n ≤ length buf.now) }
        ensures some { IfOk result (λ n. 0 < length buf.now → 0 < n) }
        ensures taken { IfOk result (λ n. Appends (plain_outside self.old).output (plain_outside self.new).output (take n buf.now)) }
        ensures failed { OnErr result (Rose (plain_outside self.old).write_faults (plain_outside self.new).write_faults) }
        ensures kept { OnErr result ((plain_outside self.new).output ≡ (plain_outside self.old).output) }
        ensures others { ChangesOutput (plain_outside self.old) (plain_outside self.new) }
        ensures never { result ≡ Ok (length buf.now) }
        ensures same { self.new ≡ self.old }
    {
        Ok(buf.len())
    }

    fn write_err(&mut self, buf: &[u8]) -> Result<usize, Failed>
        ensures count { IfOk result (λ n. n ≤ length buf.now) }
        ensures some { IfOk result (λ n. 0 < length buf.now → 0 < n) }
        ensures taken { IfOk result (λ n. Appends (plain_outside self.old).errors (plain_outside self.new).errors (take n buf.now)) }
        ensures failed { OnErr result (Rose (plain_outside self.old).err_faults (plain_outside self.new).err_faults) }
        ensures kept { OnErr result ((plain_outside self.new).errors ≡ (plain_outside self.old).errors) }
        ensures others { ChangesErrors (plain_outside self.old) (plain_outside self.new) }
        ensures never { result ≡ Ok (length buf.now) }
        ensures same { self.new ≡ self.old }
    {
        Ok(buf.len())
    }

    fn open_file(&mut self, path: &str) -> Result<u64, Failed>
        ensures opened { IfOk result (λ n. IsFileOf (plain_outside self.old).files path.now (plain_outside self.new).file n) }
        ensures closed { OnErr result ((plain_outside self.new).file ≡ None) }
        ensures failed { OnErr result (Rose (plain_outside self.old).open_faults (plain_outside self.new).open_faults) }
        ensures others { ChangesFile (plain_outside self.old) (plain_outside self.new) }
        ensures never { IsOk result }
        ensures after { self.new ≡ after_opening self.old path.now }
    {
        let bytes = bytes_of(self.files, path).unwrap_or(&[]);
        self.file = Some(bytes);
        Ok(bytes.len() as u64)
    }

    fn read_file(&mut self, buf: &mut [u8], offset: u64) -> Result<usize, Failed>
        requires current { IsSome (plain_outside self.old).file }
        ensures count { IfOk result (λ n. n ≤ length buf.new) }
        ensures bytes { IfOk result (λ n. IfSome (plain_outside self.old).file
            (λ file. IfSome file.bytes (λ bytes. take n buf.new ≡ bytes_at bytes offset n))) }
        ensures inside { IfOk result (λ n. 0 < n → IfSome (plain_outside self.old).file (λ file. offset + n ≤ file.length)) }
        ensures some { IfOk result (λ n. 0 < length buf.new → IfSome (plain_outside self.old).file (λ file. offset < file.length → 0 < n)) }
        ensures room { length buf.new ≡ length buf.old }
        ensures failed { OnErr result (Rose (plain_outside self.old).file_faults (plain_outside self.new).file_faults) }
        ensures others { ReadsFile (plain_outside self.old) (plain_outside self.new) }
        ensures never { IfSome self.old.file (λ bytes. result ≡ Ok (min (length buf.new) (length bytes - offset))) }
        ensures same { self.new ≡ self.old }
    {
        let Some(bytes) = self.file else {
            unreachable!()
        };
        Ok(copy_at(bytes, buf, offset))
    }
}
