//! Fat files: the files of several architectures in one.
//!
//! It stands on `byte_core`, `goblin_mach`, on the fat images of `image_read`, and on `thiserror` of the kit. The layers above
//! may rely on this: an input is classified by its first bytes, a reader gives the slice of an architecture exactly as
//! the table has it, and the layout of a written file is the least for its slices.
#![tactic(auto)]

mod added;
mod architecture;
mod error;
mod files;
mod filing;
mod held;
mod input;
mod joining;
mod laws;
mod layout;
mod named;
mod order;
mod parse;
mod read;
mod reading;
mod removing;
mod shape;
mod steps;
mod table;
mod writer;
mod writing;

pub use error::{Error, InvalidCase, IoCause};
pub use laws::layout_laws;
pub use read::FatReader;
pub use steps::{LayoutStep, LayoutSteps};
pub use writer::FatWriter;
