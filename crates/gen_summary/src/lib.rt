//! The summary of a generated part: how much the reader sees in its file.
//!
//! It stands on the parts of `part_gen`, on the module of `cranelift_object` and on the reader of `image_read`. The layer
//! above may rely on this: the line tells the counts of what the file of the stated part is read as, and memory alone
//! can be wanting.
#![tactic(auto)]

mod part_file;
mod summary;

pub use summary::summary_text;
