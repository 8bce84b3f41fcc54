//! 64-bit Mach-O files: Apple's `mach-o/loader.h`, `nlist.h` and `reloc.h`.

mod commands;
mod file;
mod image;
mod read;
mod relocations;
mod rows;
mod sections;
mod symbols;

pub use image::{MachImage, MachReloc64, MachSection, MachSymbol};
pub use read::read_mach;
