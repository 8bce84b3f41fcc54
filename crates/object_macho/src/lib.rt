//! The writer of Mach-O 64 object files. It stands on the objects of `object_core`, the byte layer of `byte_core` and the
//! definitions of `image_read`. The layer above may rely on this: `emit_macho` answers bytes that, read by positions,
//! hold exactly the link table of the object, and it tells the first limit of the format that the object reaches. The
//! same goes in two steps: `macho_plan` counts the numbers of the file, and `fill_macho` writes it into a slice, without
//! memory; a plan tells whether it is an object's own. A link table that fits has one file alone, which is read as the
//! image of the table.
#![tactic(auto)]

mod addend_law;
mod commands;
mod contents;
mod counted;
mod emit;
mod fill;
mod laws;
mod limits;
mod names;
mod plan;
mod plan_check;
mod records;
mod rows;
mod sections;
mod symbols;

pub use addend_law::addends_are_read_back;
pub use emit::emit_macho;
pub use fill::fill_macho;
pub use laws::{files_of_mach_tables, mach_tables_have_files};
pub use plan::{MachoPlan, macho_plan};
