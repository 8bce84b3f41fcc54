//! The outside of the program as a trait: what it reads and writes, with counts of what failed. A
//! contract sees the outside as one record, whose fields are known or not.

ghost use Rattle.std.specs.Prelude.{◌≡◌, ◌+◌, ◌<◌, ◌≤◌, length, take, None, IfOk, OnErr, IfSome, IsSome};
ghost use Rattle.byte_core.specs.Count.{Rose};
ghost use Rattle.byte_core.specs.Number.{bytes_at};
ghost use Rattle.byte_core.specs.Outside.{Outside, ChangesInput, ChangesOutput, ChangesErrors, ChangesFile, ReadsFile, TakesInput, KeepsInput, Appends, IsAtEnd, IsFileOf};

/// A call on the outside failed; its count of faults rose.
#[derive(Clone, Copy, Debug, PartialEq, Eq)]
pub struct Failed;

/// What a program runs on: an input, an output, a fault text, and files that are opened one at a
/// time. A call answers [`Failed`] only where its own count of faults rose, takes nothing then, and
/// changes only its own stream, or the current file.
pub trait Host {
    /// What a contract sees of the outside.
    ghost outside: { Self → Outside };

    /// Takes bytes off the front of the input, at most as many as the buffer holds, and answers how
    /// many. 0 for a buffer that isn't empty is the end of the input.
    fn read(&mut self, buf: &mut [u8]) -> Result<usize, Failed>
        ensures count { IfOk result (λ n. n ≤ length buf.new) }
        ensures taken { IfOk result (λ n. TakesInput (outside self.old) (outside self.new) (take n buf.new)) }
        ensures end { IfOk result (λ n. n ≡ 0 → 0 < length buf.new → IsAtEnd (outside self.new)) }
        ensures failed { OnErr result (Rose (outside self.old).read_faults (outside self.new).read_faults) }
        ensures kept { OnErr result (KeepsInput (outside self.old) (outside self.new)) }
        ensures others { ChangesInput (outside self.old) (outside self.new) };

    /// Puts a front of the bytes behind the output, at least one byte of a buffer that isn't empty,
    /// and answers how many.
    fn write(&mut self, buf: &[u8]) -> Result<usize, Failed>
        ensures count { IfOk result (λ n. n ≤ length buf.now) }
        ensures some { IfOk result (λ n. 0 < length buf.now → 0 < n) }
        ensures taken { IfOk result (λ n. Appends (outside self.old).output (outside self.new).output (take n buf.now)) }
        ensures failed { OnErr result (Rose (outside self.old).write_faults (outside self.new).write_faults) }
        ensures kept { OnErr result ((outside self.new).output ≡ (outside self.old).output) }
        ensures others { ChangesOutput (outside self.old) (outside self.new) };

    /// Puts a front of the bytes behind the fault text, at least one byte of a buffer that isn't
    /// empty, and answers how many.
    fn write_err(&mut self, buf: &[u8]) -> Result<usize, Failed>
        ensures count { IfOk result (λ n. n ≤ length buf.now) }
        ensures some { IfOk result (λ n. 0 < length buf.now → 0 < n) }
        ensures taken { IfOk result (λ n. Appends (outside self.old).errors (outside self.new).errors (take n buf.now)) }
        ensures failed { OnErr result (Rose (outside self.old).err_faults (outside self.new).err_faults) }
        ensures kept { OnErr result ((outside self.new).errors ≡ (outside self.old).errors) }
        ensures others { ChangesErrors (outside self.old) (outside self.new) };

    /// Makes the file of a path the current one, in place of the one before, and answers its length
    /// in bytes. After a failure no file is current.
    fn open_file(&mut self, path: &str) -> Result<u64, Failed>
        ensures opened { IfOk result (λ n. IsFileOf (outside self.old).files path.now (outside self.new).file n) }
        ensures closed { OnErr result ((outside self.new).file ≡ None) }
        ensures failed { OnErr result (Rose (outside self.old).open_faults (outside self.new).open_faults) }
        ensures others { ChangesFile (outside self.old) (outside self.new) };

    /// Reads bytes of the current file from `offset` on into the front of the buffer, and answers how
    /// many: at least one where the offset is below the file's length and the buffer isn't empty,
    /// none at or past the length.
    fn read_file(&mut self, buf: &mut [u8], offset: u64) -> Result<usize, Failed>
        requires current { IsSome (outside self.old).file }
        ensures count { IfOk result (λ n. n ≤ length buf.new) }
        ensures bytes { IfOk result (λ n. IfSome (outside self.old).file
            (λ file. IfSome file.bytes (λ bytes. take n buf.new ≡ bytes_at bytes offset n))) }
        ensures inside { IfOk result (λ n. 0 < n → IfSome (outside self.old).file (λ file. offset + n ≤ file.length)) }
        ensures some { IfOk result (λ n. 0 < length buf.new → IfSome (outside self.old).file (λ file. offset < file.length → 0 < n)) }
        ensures room { length buf.new ≡ length buf.old }
        ensures failed { OnErr result (Rose (outside self.old).file_faults (outside self.new).file_faults) }
        ensures others { ReadsFile (outside self.old) (outside self.new) };
}
