//! Placement: the bytes that relocated objects have in memory. It stands on the views of images and on the link state of
//! parts. The layer above may rely on this: `place` answers exactly the bytes in memory of each definition, or the first
//! cause why not, of the files of parts exactly what their commands say; and the placement laws.
#![tactic(auto)]

mod addresses;
mod definitions;
mod error;
mod exports;
mod fault;
mod filling;
mod grouping;
mod holding;
mod homes;
mod judging;
mod laws;
mod leading;
mod names;
mod objects;
mod patching;
mod placing;
mod ranges;
mod rows;
mod spans;
mod twice;
mod values;

pub use error::PlaceError;
pub use laws::placement_laws;
pub use objects::object_views;
pub use placing::place;
pub use rows::{DefAddress, Extern, PlacedBytes};
