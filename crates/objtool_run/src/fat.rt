//! The commands `join` and `extract`: files to a fat file, and a slice out of one.

ghost use Rattle.std.specs.Prelude.{◌≡◌, map, string_bytes, IfOk, IfErr, IfSome, IsErrOf};
ghost use Rattle.byte_core.specs.Outside.{Outside};
ghost use Rattle.image_build.specs.Texts.{cause_text};
ghost use Rattle.fat_macho.specs.Texts.{error_text};
ghost use Rattle.fat_commands.specs.Files.{ReadsFiles, FilesRose};
ghost use Rattle.fat_commands.specs.Joining.{IsJoined, path_text};
ghost use Rattle.fat_commands.specs.Extracting.{IsExtracted, unextracted_text};
ghost use Rattle.objtool_run.specs.Fault.{line};
ghost use Rattle.objtool_run.specs.Reading.{IsFileFault};
ghost use Rattle.objtool_run.specs.Extracted.{IsUnextracted, TellsText};
ghost use Rattle.objtool_run.specs.Joined.{IsUnjoinedLine, TellsJoin, IsOfJoin};
ghost use Rattle.objtool_run.specs.Run.{Says, IsOfInput};

use crate::fault::Fault;
use byte_core::Host;
use fat_commands::{Unextracted, Unjoined, extracted, joined};
use image_build::BuildError;
use std::alloc::{AllocError, Global};

/// The fat file of the slices of the paths' files.
pub(crate) fn joined_files<H: Host>(
    alloc: Global,
    paths: &[String],
    host: &mut H,
) -> Result<Vec<u8>, Fault>
    ensures ok { IfOk result (λ bytes. IsJoined (H.outside host.old).files (map string_bytes paths.now) bytes.items) }
    ensures explained { IfErr result (λ fault. Says (IsUnjoinedLine (H.outside host.old).files (map string_bytes paths.now)) ⊥ fault) }
    ensures of_join { IfErr result (λ fault. IsOfJoin fault) }
    ensures reading { IsErrOf result Fault.ReadFailed → FilesRose (H.outside host.old) (H.outside host.new) }
    ensures others { ReadsFiles (H.outside host.old) (H.outside host.new) }
{
    match joined(alloc, host, paths) {
        Ok(bytes) => Ok(bytes),
        Err(error) => Err(join_fault(alloc, error)),
    }
}

// The fault of files that aren't joined.
fn join_fault(alloc: Global, error: Unjoined) -> Fault
    ensures { TellsJoin error result }
{
    match error {
        Unjoined::Failed => Fault::ReadFailed,
        Unjoined::OutOfMemory => Fault::OutOfMemory,
        Unjoined::Refused(error) => match path_line(alloc, &error) {
            Ok(text) => Fault::Refused(text),
            Err(_) => Fault::OutOfMemory,
        },
    }
}

// The line of a path that is refused.
fn path_line(alloc: Global, error: &BuildError) -> Result<String, AllocError>
    ensures { IfOk result (λ text. string_bytes text ≡ line (path_text error.now)) }
{
    let mut text = path_text(alloc, error)?;
    text.push_str("\n")?;
    Ok(text)
}

// The path that is refused, and the cause.
fn path_text(alloc: Global, error: &BuildError) -> Result<String, AllocError>
    ensures { IfOk result (λ text. string_bytes text ≡ path_text error.now) }
{
    let part = error.part;
    let cause = &error.cause;
    format!(in alloc; "path {part}: {cause}")
}

/// The slice of the named architecture.
pub(crate) fn extracted_slice(alloc: Global, input: &[u8], name: &str) -> Result<Vec<u8>, Fault>
    ensures ok { IfOk result (λ bytes. IsExtracted input.now name.now bytes.items) }
    ensures explained { IfErr result (λ fault. Says (IsUnextracted input.now name.now) ⊥ fault) }
    ensures of_file { IfErr result (λ fault. IsFileFault fault) }
    ensures of_input { IfErr result (λ fault. IsOfInput fault) }
{
    match extracted(input, name) {
        Ok(slice) => match slice.to_vec(alloc) {
            Ok(bytes) => Ok(bytes),
            Err(_) => Err(Fault::OutOfMemory),
        },
        Err(error) => Err(extract_fault(alloc, name, &error)),
    }
}

// The fault of a slice that isn't taken out.
fn extract_fault(alloc: Global, name: &str, error: &Unextracted) -> Fault
    ensures { TellsText name.now error.now result }
{
    match extract_line(alloc, name, error) {
        Ok(text) => Fault::Refused(text),
        Err(_) => Fault::OutOfMemory,
    }
}

// The line of a slice that isn't taken out.
fn extract_line(alloc: Global, name: &str, error: &Unextracted) -> Result<String, AllocError>
    ensures { IfOk result (λ text. IfSome (unextracted_text name.now error.now) (λ told. string_bytes text ≡ line told)) }
{
    match error {
        Unextracted::Absent => format!(in alloc; "no such architecture: {name}\n"),
        Unextracted::Refused(error) => format!(in alloc; "{error}\n"),
    }
}
