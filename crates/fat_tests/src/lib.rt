//! Tests of fat files through public items.
#![tactic(auto)]

mod adding_tests;
mod failing_tests;
mod file_tests;
mod hollow;
mod images;
mod reader_tests;
mod removing_tests;
mod writer_tests;
