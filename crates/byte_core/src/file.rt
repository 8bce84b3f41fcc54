//! The adapters over files of the system. They are the trusted edge: what a file holds isn't known.

ghost use Rattle.std.specs.Prelude.{◌≡◌, ◌≤◌, None, true, length, IfOk};

use crate::{Failed, Sink, Source};
use std::fs::OpenFile;
use std::io::{Read, Seek, SeekFrom, Write};
use std::marker::Model;
use std::rt::Files;
use std::{fs, io};

/// A source over a file that was opened. A read of nothing below the file's length is a failure, as each error is, and each
/// failure counts.
#[derive(Drop)]
pub struct FileSource<F> {
    file: F,
    length: u64,
    faults: u64,
}

impl<F> Model for FileSource<F> {
    ghost use Rattle.std.specs.Prelude.{None, true};
    ghost use Rattle.byte_core.specs.Streams.{SourceData};

    ghost Value = { SourceData };

    ghost view = { λ s. record { length = s.length; bytes = None; can_fail = true; faults = s.faults } };
}

impl<F: Read + Seek + OpenFile + Drop> FileSource<F> {
    /// The file of that path, of which no call failed. Its length is the one that the system tells.
    pub fn open<R: Files<File = F>>(rt: &R, path: &str) -> Result<FileSource<F>, Failed>
        ensures { IfOk result (λ source. (source.bytes ≡ None) × (source.can_fail ≡ true) × (source.faults ≡ 0)) }
    {
        let Ok(file) = fs::open(rt, path) else {
            return Err(Failed);
        };
        let Ok(metadata) = file.metadata() else {
            return Err(Failed);
        };
        let length = metadata.len();
        Ok(FileSource {
            file,
            length,
            faults: 0,
        })
    }
}

impl<F: Read + Seek> Source for FileSource<F> {
    ghost use Rattle.byte_core.specs.Streams.{SourceData};

    ghost source = { λ s. s };

    fn len(&self) -> u64 {
        self.length
    }

    fn read_at(&mut self, buf: &mut [u8], offset: u64) -> Result<usize, Failed> {
        if offset >= self.length || buf.is_empty() {
            return Ok(0);
        }
        let left = self.length - offset;
        let most = buf.len().min(left as usize);
        match read_from(&mut self.file, &mut buf[..most], offset) {
            Ok(n) if n > 0 => Ok(n),
            _ => {
                self.faults = self.faults.saturating_add(1);
                Err(Failed)
            }
        }
    }
}

fn read_from<F: Read + Seek>(file: &mut F, buf: &mut [u8], offset: u64) -> io::Result<usize>
    ensures count { IfOk result (λ n. n ≤ length buf.new) }
    ensures room { length buf.new ≡ length buf.old }
{
    file.seek(SeekFrom::Start(offset))?;
    file.read(buf)
}

/// A sink over a file that is written anew. A write of nothing is a failure, as each error is, and each failure counts.
#[derive(Drop)]
pub struct FileSink<F> {
    file: F,
    faults: u64,
}

impl<F> Model for FileSink<F> {
    ghost use Rattle.std.specs.Prelude.{None};
    ghost use Rattle.byte_core.specs.Streams.{SinkData};

    ghost Value = { SinkData };

    ghost view = { λ s. record { written = None; faults = s.faults } };
}

impl<F: Write + Drop> FileSink<F> {
    /// A new file of that path, in place of one that is there. No call to it failed.
    pub fn create<R: Files<File = F>>(rt: &R, path: &str) -> Result<FileSink<F>, Failed>
        ensures { IfOk result (λ sink. (sink.written ≡ None) × (sink.faults ≡ 0)) }
    {
        match fs::create(rt, path) {
            Ok(file) => Ok(FileSink { file, faults: 0 }),
            Err(_) => Err(Failed),
        }
    }
}

impl<F: Write> Sink for FileSink<F> {
    ghost use Rattle.byte_core.specs.Streams.{SinkData};

    ghost sink = { λ s. s };

    fn write(&mut self, buf: &[u8]) -> Result<usize, Failed> {
        match self.file.write(buf) {
            Ok(n) if n > 0 || buf.is_empty() => Ok(n),
            _ => {
                self.faults = self.faults.saturating_add(1);
                Err(Failed)
            }
        }
    }
}
