//! Files of a host in memory.

ghost use Rattle.std.specs.Prelude.{◌≡◌, option_copied};
ghost use Rattle.byte_core.specs.Outside.{file_at};
ghost use Rattle.byte_core.specs.NamedFiles.{named_files};

/// A file that a host in memory holds.
#[derive(Clone, Copy, Debug)]
pub struct NamedFile<'a> {
    pub path: &'a str,
    pub bytes: &'a [u8],
}

/// The bytes of the first file of a path.
pub(crate) fn bytes_of<'a>(files: &[NamedFile<'a>], path: &str) -> Option<&'a [u8]>
    ensures { option_copied result ≡ file_at path.now (named_files files.now) }
{
    for file in files {
        if file.path == path {
            return Some(file.bytes);
        }
    }
    None
}
