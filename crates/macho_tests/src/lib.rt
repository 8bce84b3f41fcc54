//! Tests of written Mach-O files.
#![tactic(auto)]

#[cfg(test)]
mod objects;
#[cfg(test)]
mod small_files;
#[cfg(test)]
mod writing_tests;
