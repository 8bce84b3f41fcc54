//! A slice taken out of a fat file.

ghost use Rattle.std.specs.Prelude.{IfOk, IfErr};
ghost use Rattle.fat_commands.specs.Extracting.{IsExtracted, TellsUnextracted};

use fat_macho::{Error, FatReader};

/// Why no slice is taken out.
#[derive(Debug, Drop)]
pub enum Unextracted {
    /// The bytes are no fat file that is read.
    Refused(Error),
    /// No slice is of the named architecture, or its bytes leave the file.
    Absent,
}

/// The bytes of the first slice of the architecture of this name, as `x86_64`, in a fat file whose entries have 32 bits.
pub fn extracted<'a>(bytes: &'a [u8], name: &str) -> Result<&'a [u8], Unextracted>
    ensures ok { IfOk result (λ slice. IsExtracted bytes.now name.now slice.now) }
    ensures cause { IfErr result (TellsUnextracted bytes.now name.now) }
{
    let reader = match FatReader::new(bytes) {
        Ok(reader) => reader,
        Err(error) => return Err(Unextracted::Refused(error)),
    };
    match reader.extract(name) {
        Some(slice) => Ok(slice),
        None => Err(Unextracted::Absent),
    }
}
