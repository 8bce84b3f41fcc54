//! The list of parts, read from a JSON value.

pub mod command;
pub mod definition;
pub mod libcalls;
pub mod part;
pub mod reloc;
pub mod signature;
pub mod target;
pub mod values;
