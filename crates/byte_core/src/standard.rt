//! The adapter over a reader, two writers and the files of std, as the process's own. It is the trusted
//! edge: what passes through the streams and what the files hold isn't known.

ghost use Rattle.std.specs.Prelude.{◌≡◌, None};

use crate::{Failed, FileSource, Host, Source};
use std::io::{Read, Write};
use std::marker::Model;
use std::rt::Files;

/// A host over a reader, two writers and files. A read of the input is handed on as it is; a write of
/// nothing is a failure, as a read of nothing inside a file and each error are, and each failure counts.
#[derive(Drop)]
pub struct StreamHost<R: Files, I, O, E> {
    files: R,
    input: I,
    output: O,
    errors: E,
    taken: u64,
    read_faults: u64,
    write_faults: u64,
    err_faults: u64,
    open_faults: u64,
    file: Option<FileSource<R::File>>,
    file_faults: u64,
}

impl<R: Files, I, O, E> Model for StreamHost<R, I, O, E> {
    ghost use Rattle.std.specs.Prelude.{None, option_map};
    ghost use Rattle.byte_core.specs.Outside.{Outside};

    ghost Value = { Outside };

    ghost view = { λ h. record {
      input = None;
      taken = h.taken;
      read_faults = h.read_faults;
      output = None;
      write_faults = h.write_faults;
      errors = None;
      err_faults = h.err_faults;
      files = None;
      open_faults = h.open_faults;
      file = option_map (λ source. record { length = source.length; bytes = source.bytes }) h.file;
      file_faults = h.file_faults;
    } };
}

impl<R: Files, I, O, E> StreamHost<R, I, O, E> {
    /// A host over these files and streams.
    pub fn new(files: R, input: I, output: O, errors: E) -> Self
        ensures { result ≡ record {
          input = None;
          taken = 0;
          read_faults = 0;
          output = None;
          write_faults = 0;
          errors = None;
          err_faults = 0;
          files = None;
          open_faults = 0;
          file = None;
          file_faults = 0;
        } }
    {
        StreamHost {
            files,
            input,
            output,
            errors,
            taken: 0,
            read_faults: 0,
            write_faults: 0,
            err_faults: 0,
            open_faults: 0,
            file: None,
            file_faults: 0,
        }
    }
}

impl<R: Files, I: Read, O: Write, E: Write> Host for StreamHost<R, I, O, E> {
    ghost use Rattle.byte_core.specs.Outside.{Outside};

    ghost outside = { λ h. h };

    fn read(&mut self, buf: &mut [u8]) -> Result<usize, Failed> {
        match self.input.read(buf) {
            Ok(n) => {
                self.taken = self.taken.saturating_add(n as u64);
                Ok(n)
            }
            Err(_) => {
                self.read_faults = self.read_faults.saturating_add(1);
                Err(Failed)
            }
        }
    }

    fn write(&mut self, buf: &[u8]) -> Result<usize, Failed> {
        match self.output.write(buf) {
            Ok(n) if n > 0 || buf.is_empty() => Ok(n),
            _ => {
                self.write_faults = self.write_faults.saturating_add(1);
                Err(Failed)
            }
        }
    }

    fn write_err(&mut self, buf: &[u8]) -> Result<usize, Failed> {
        match self.errors.write(buf) {
            Ok(n) if n > 0 || buf.is_empty() => Ok(n),
            _ => {
                self.err_faults = self.err_faults.saturating_add(1);
                Err(Failed)
            }
        }
    }

    fn open_file(&mut self, path: &str) -> Result<u64, Failed> {
        self.file = None;
        match FileSource::open(&self.files, path) {
            Ok(source) => {
                let length = source.len();
                self.file = Some(source);
                Ok(length)
            }
            Err(_) => {
                self.open_faults = self.open_faults.saturating_add(1);
                Err(Failed)
            }
        }
    }

    fn read_file(&mut self, buf: &mut [u8], offset: u64) -> Result<usize, Failed> {
        let Some(source) = &mut self.file else {
            unreachable!()
        };
        match source.read_at(buf, offset) {
            Ok(n) => Ok(n),
            Err(_) => {
                self.file_faults = self.file_faults.saturating_add(1);
                Err(Failed)
            }
        }
    }
}
