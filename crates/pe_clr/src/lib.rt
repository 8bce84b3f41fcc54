//! The CLR metadata of PE files. The layer above may rely on this: each answer is what the bytes at the stated places
//! give, or the first step that fails.
#![tactic(auto)]

pub mod clr;
mod laws;

pub use laws::clr_constant_laws;
