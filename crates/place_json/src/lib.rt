//! Placement over JSON values: from a value that gives objects, addresses and outside names to the lines of what is placed.
//!
//! It stands on `place` of `image_place`, on the forms of `json_form`, and on `serde_json` and `hex` of the kit. The layer
//! above may rely on this: the text has a line for each definition that is placed, and for no other; each other answer
//! has its cause; and a value has one of these answers at most.
#![tactic(auto)]

mod laws;
mod lines;
mod rows;
mod text;
mod unplaced;

pub use laws::outcomes_exclude;
pub use text::placed_text;
pub use unplaced::Unplaced;
