//! ELF64 files: System V gABI.

mod file;
mod image;
mod read;
mod relocations;
mod rows;
mod sections;
mod strings;
mod symbols;

pub use image::{ElfImage, ElfReloc, ElfSection, ElfSymbol};
pub use read::read_elf;
