//! What readers of PE files share: refusals, rows of the section table, offsets of addresses, and steps that read
//! numbers by places. It stands on the numbers by places of `byte_core`. The readers above may rely on this: each answer
//! is what the bytes at the stated places give, or the refusal that a definition of `specs/` gives.
#![tactic(auto)]

pub mod pe_error;
pub mod rva;
pub mod section_table;
pub mod steps;
