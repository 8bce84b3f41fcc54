//! Large valid parts from a number.
//!
//! It stands on the commands of `cranelift_object`. The layer above may rely on this: a seed and a count give exactly
//! the stated part, and nothing refuses that part.
#![tactic(auto)]

mod draws;
mod laws;
mod part;

pub use laws::generated_is_valid;
pub use part::gen_part;
