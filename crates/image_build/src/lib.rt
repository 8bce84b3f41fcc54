//! Lists of parts, built to the bytes of a file.
//!
//! It stands on the module, the writers and that of fat files. The layer above may rely on this: the bytes are exactly
//! what the parts build, and an error names the part, the place and the first cause.
#![tactic(auto)]

mod build;
mod error;
mod fat;
mod part;
mod part_file;

pub use build::build_image;
pub use cranelift_object::{Command, CommandPart, apply};
pub use error::{BuildCause, BuildError, Place};
pub use part::Part;
