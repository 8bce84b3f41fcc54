//! What placing and linking see of x86_64 objects, whatever their format: sections with their bytes and relocations, and symbols.
//! It stands on the readers' images. The layer above may rely on this: a view is exactly what its definition gives for the
//! image, and a file has one view at most.
#![tactic(auto)]

mod elf;
mod kind;
mod laws;
mod mach;
mod view;
mod viewing;

pub use elf::elf_view;
pub use kind::FixKind;
pub use laws::one_view;
pub use mach::mach_view;
pub use view::{View, ViewReloc, ViewSection, ViewSymbol};
pub use viewing::{object_view, view_of};
