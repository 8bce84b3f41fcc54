//! Readers of PE files over JSON values: from a value that gives a file's bytes and places to the text of what the reader
//! answers.
//!
//! It stands on the readers of PE files, on the forms of `json_form`, and on `serde_json` and `hex` of the kit. The layer
//! above may rely on this: each text is the one that a definition of `specs/` gives from what the reader of that name
//! answers, and each other answer has its cause.
#![tactic(auto)]

mod clr;
mod image;
mod load_config;
mod signed;
mod tls;
mod unanswered;

pub use clr::clr_text;
pub use load_config::load_config_text;
pub use signed::signed_text;
pub use tls::tls_text;
pub use unanswered::Unanswered;
