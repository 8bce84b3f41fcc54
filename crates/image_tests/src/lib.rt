//! Tests of reading.
#![tactic(auto)]

#[cfg(test)]
mod elf_tests;
#[cfg(test)]
mod fat_tests;
#[cfg(test)]
mod mach_tests;
#[cfg(test)]
mod small_files;
#[cfg(test)]
mod small_mach_files;
