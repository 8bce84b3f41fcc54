//! What is told of a file's image as JSON, written into one buffer. It stands on the images of `image_read`, and on `hex`
//! and `itoa` of the kit. The layer above may rely on each text being that of the value which `specs/` gives an image.
#![tactic(auto)]

mod elf_json;
mod fat_json;
mod mach_json;
mod pieces;
mod told;

pub use elf_json::elf_text;
pub use fat_json::fat_text;
pub use mach_json::mach_text;
pub use told::image_text;
