//! Declarations as JSON values: `write` makes them, `read` takes them in.

mod cause;
mod laws;
mod names;
mod read;
mod words;
mod write;

pub use cause::JsonCause;
pub use laws::json_laws;
pub(crate) use names::names_of;
pub(crate) use read::{functions_at, objects_at, version_of};
pub(crate) use write::declarations_value;
