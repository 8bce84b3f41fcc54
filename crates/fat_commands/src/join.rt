//! Files joined to a fat file.

ghost use Rattle.std.specs.Prelude.{◌≡◌, ◌++◌, [], ◌∷◌, map, string_bytes, IfOk, IfErr, OnOk, IsErrOf};
ghost use Rattle.std.specs.List.{All};
ghost use Rattle.byte_core.specs.Outside.{Outside};
ghost use Rattle.image_build.specs.Parts.{part_view};
ghost use Rattle.fat_commands.specs.Files.{ReadsFiles, FilesRose};
ghost use Rattle.fat_commands.specs.Joining.{AreRead, IsJoined, KeepsRefusal, TellsUnjoined, unread_cause};

use crate::files::{FileError, read_whole};
use byte_core::Host;
use image_build::{BuildCause, BuildError, Part, build_image};
use std::alloc::Global;

/// Why files aren't joined.
#[derive(Debug, Drop)]
pub enum Unjoined {
    /// A file could not be opened, or read.
    Failed,
    /// The first file that is refused, by its number from 0 as the error's part, and why; never for want of memory.
    Refused(BuildError),
    OutOfMemory,
}

/// The fat file of the slices of the paths' files. All files are read whole, in the order of their paths, before any is
/// refused.
#[tactic(auto, using(crate::proofs::JoinLaws::few_read, crate::proofs::JoinLaws::joins, crate::proofs::JoinLaws::refuses))]
pub fn joined<H: Host>(alloc: Global, host: &mut H, paths: &[String]) -> Result<Vec<u8>, Unjoined>
    ensures ok { IfOk result (λ bytes. IsJoined (H.outside host.old).files (map string_bytes paths.now) bytes.items) }
    ensures cause { IfErr result (TellsUnjoined (H.outside host.old) (H.outside host.new) (map string_bytes paths.now)) }
    ensures others { ReadsFiles (H.outside host.old) (H.outside host.new) }
{
    let parts = match read_all(alloc, host, paths) {
        Ok(parts) => parts,
        Err(error) => return Err(unread(error)),
    };
    match build_image(alloc, &parts) {
        Ok(bytes) => Ok(bytes),
        Err(error) => Err(refused(error)),
    }
}

// The images of the paths' files.
fn read_all<H: Host>(alloc: Global, host: &mut H, paths: &[String]) -> Result<Vec<Part>, FileError>
    ensures ok { IfOk result (λ parts. AreRead (H.outside host.old).files (map string_bytes paths.now) (map part_view parts.items)) }
    ensures failed { IsErrOf result FileError.Failed → FilesRose (H.outside host.old) (H.outside host.new) }
    ensures others { ReadsFiles (H.outside host.old) (H.outside host.new) }
{
    let mut parts = Vec::new(alloc);
    for path in paths {
        let bytes = read_whole(alloc, host, path.as_str())?;
        push_image(&mut parts, bytes)?;
    }
    Ok(parts)
}

// Puts an image behind other parts.
fn push_image(parts: &mut Vec<Part>, bytes: Vec<u8>) -> Result<(), FileError>
    ensures ok { OnOk result (parts.new.items ≡ parts.old.items ++ Part.Image bytes ∷ []) }
    ensures err { IfErr result (λ e. e ≡ FileError.OutOfMemory) }
{
    match parts.push(Part::Image(bytes)) {
        Ok(()) => Ok(()),
        Err(_) => Err(FileError::OutOfMemory),
    }
}

// Why files aren't joined that are not there.
fn unread(error: FileError) -> Unjoined
    ensures { result ≡ unread_cause error }
{
    match error {
        FileError::Failed => Unjoined::Failed,
        FileError::OutOfMemory => Unjoined::OutOfMemory,
    }
}

// Why files aren't joined that a build refuses.
fn refused(error: BuildError) -> Unjoined
    ensures { KeepsRefusal error result }
{
    if matches!(error.cause, BuildCause::OutOfMemory) {
        return Unjoined::OutOfMemory;
    }
    Unjoined::Refused(error)
}
