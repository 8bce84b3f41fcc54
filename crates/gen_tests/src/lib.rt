//! Tests of generated parts: their commands, and the files that they build.
#![tactic(auto)]

#[cfg(test)]
mod file_tests;
#[cfg(test)]
mod part_tests;
