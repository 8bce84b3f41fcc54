//! Forms of JSON values: what a value gives by the form that a definition of `specs/` states, and the pieces of which
//! values are made. It stands on `serde_json` and `hex` of the kit. The readers above may rely on this: each answer is
//! what the definition of the same name gives, `NotForm` comes exactly where it gives nothing, and want of memory apart
//! from these.
#![tactic(auto)]

mod fields;
mod form_error;
mod items;
mod write;

pub use fields::{
    has_keys_within, hex_at, items_at, mark_at, mark_or, name_at, number_at, text_at, u32_at,
    value_at,
};
pub use form_error::FormError;
pub use items::{has_item, number_in, number_of, u32_in};
pub use write::{NumberMember, hex_or_null, number_or_null, numbers_object, numbers_value};
