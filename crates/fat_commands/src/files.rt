//! Whole files of a host.

ghost use Rattle.std.specs.Prelude.{◌≡◌, ◌+◌, ◌≤◌, ◌<◌, length, IfOk, IsErrOf, OnOk, OnErr};
ghost use Rattle.byte_core.specs.Count.{Rose};
ghost use Rattle.byte_core.specs.Outside.{Outside, ReadsFile};
ghost use Rattle.fat_commands.specs.Files.{ReadsFiles, FilesRose, IsHeld, IsOpen, current_bytes};
ghost use Rattle.fat_macho.specs.Reading.{HoldsFront, HoldsRange};

use byte_core::{Failed, Host};
use std::alloc::Global;

/// Why the bytes of a file aren't there.
#[derive(Clone, Copy, Debug, PartialEq, Eq)]
pub enum FileError {
    /// The file could not be opened, or read.
    Failed,
    OutOfMemory,
}

/// All bytes of the file of a path.
#[tactic(auto, using(crate::proofs::FileLaws::opened, crate::proofs::FileLaws::held, crate::proofs::FileLaws::opens, crate::proofs::FileLaws::opens_and_reads))]
pub fn read_whole<H: Host>(alloc: Global, host: &mut H, path: &str) -> Result<Vec<u8>, FileError>
    ensures ok { IfOk result (λ bytes. IsHeld (H.outside host.old).files path.now bytes.items) }
    ensures failed { IsErrOf result FileError.Failed → FilesRose (H.outside host.old) (H.outside host.new) }
    ensures others { ReadsFiles (H.outside host.old) (H.outside host.new) }
{
    let Ok(length) = host.open_file(path) else {
        return Err(FileError::Failed);
    };
    let Ok(mut bytes) = vec![in alloc; 0u8; length as usize] else {
        return Err(FileError::OutOfMemory);
    };
    match fill(host, &mut bytes) {
        Ok(()) => Ok(bytes),
        Err(_) => Err(FileError::Failed),
    }
}

// Fills the buffer, which is as long as the current file, with the file's bytes.
#[tactic(auto, using(fat_macho::proofs::Fronts::no_front, fat_macho::proofs::Fronts::whole_front, crate::proofs::FileLaws::reads_nothing, crate::proofs::FileLaws::reads_again))]
fn fill<H: Host>(host: &mut H, buf: &mut [u8]) -> Result<(), Failed>
    requires { IsOpen (H.outside host.old).file (length buf.old) }
    ensures length { length buf.new ≡ length buf.old }
    ensures ok { OnOk result (HoldsRange (current_bytes (H.outside host.old).file) buf.new 0 (length buf.new)) }
    ensures failed { OnErr result (Rose (H.outside host.old).file_faults (H.outside host.new).file_faults) }
    ensures others { ReadsFile (H.outside host.old) (H.outside host.new) }
{
    let mut done = 0;
    'reading: while done < buf.len() {
        done += read_more(host, buf, done)?;
    }
    Ok(())
}

// Reads some bytes of the current file behind those that are there.
#[tactic(auto, using(crate::proofs::FileLaws::more_held, crate::proofs::FileLaws::is_current, crate::proofs::FileLaws::some_more))]
fn read_more<H: Host>(host: &mut H, buf: &mut [u8], done: usize) -> Result<usize, Failed>
    requires open { IsOpen (H.outside host.old).file (length buf.old) }
    requires left { done < length buf.old }
    requires front { HoldsFront (current_bytes (H.outside host.old).file) buf.old 0 done }
    ensures some { IfOk result (λ count. 0 < count) }
    ensures room { IfOk result (λ count. done + count ≤ length buf.new) }
    ensures front { IfOk result (λ count. HoldsFront (current_bytes (H.outside host.old).file) buf.new 0 (done + count)) }
    ensures length { length buf.new ≡ length buf.old }
    ensures failed { OnErr result (Rose (H.outside host.old).file_faults (H.outside host.new).file_faults) }
    ensures others { ReadsFile (H.outside host.old) (H.outside host.new) }
{
    host.read_file(&mut buf[done..], done as u64)
}
