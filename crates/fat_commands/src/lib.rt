//! What the program does over fat files: whole files of a host joined to one, and a slice taken out of one.
//!
//! It stands on the hosts of `byte_core`, on the reader of fat files and on builds. The layer above may rely on this: the
//! bytes of `joined` are the fat file of the slices of all files, those of `extracted` are the slice of that name's
//! architecture, and each error has its cause.
#![tactic(auto)]

mod extract;
mod files;
mod join;

pub use extract::{Unextracted, extracted};
pub use files::{FileError, read_whole};
pub use join::{Unjoined, joined};
