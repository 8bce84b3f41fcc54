//! Parts of a build.

use cranelift_object::CommandPart;

/// A part of a build.
#[derive(Drop)]
pub enum Part {
    /// A part that is made by the calls of a module.
    Commands(CommandPart),
    /// The bytes of a Mach-O file, thin or fat.
    Image(Vec<u8>),
}
