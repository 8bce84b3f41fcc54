//! The bytes of a PE file that its signature covers. The layer above may rely on this: `authenticode_ranges` gives the
//! ranges of its definition or the first cause against them, and by `signed_file_law` these, joined, are the signed bytes.
#![tactic(auto)]

pub mod authenticode;
mod laws;
mod next_sections;
mod section_bytes;
mod section_order;
mod sections_by_pointer;

pub use laws::signed_file_law;
