//! Fat files: Apple's `mach-o/fat.h`.

mod file;
mod image;
mod read;

pub use image::{FatImage, FatSlice};
pub use read::read_fat;
