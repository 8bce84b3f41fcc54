//! Tests of the readers below through their public items: numbers by their places, names of
//! relocations, the tables of fat files, and the parts of PE files.
#![tactic(auto)]

#[cfg(test)]
mod clr_tests;
#[cfg(test)]
mod fat_tests;
#[cfg(test)]
mod load_config_tests;
#[cfg(test)]
mod number_tests;
#[cfg(test)]
mod offset_tests;
#[cfg(test)]
mod relocation_tests;
#[cfg(test)]
mod signed_tests;
#[cfg(test)]
mod tls_tests;
