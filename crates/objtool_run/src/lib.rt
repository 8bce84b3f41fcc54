//! All that the program does, over any host: the words of the command line, the input, the form of
//! its JSON, the library's call, the output and the fault text.
//!
//! It stands on every library of the repository. The program calls [`run`] and nothing else.
#![tactic(auto)]

mod build;
mod fat;
mod fault;
mod generated;
mod input;
mod names;
mod output;
mod place;
mod program;
mod query;
mod reading;
mod script;
mod words;

pub use build::{answer, built_file};
pub use fault::Fault;
pub use input::{INPUT_LIMIT, InputError, read_input};
pub use json_form::FormError;
pub use output::{write_fault_text, write_output};
pub use program::run;
pub use reading::image_line;
pub use script::command::commands_of;
