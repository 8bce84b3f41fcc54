//! Tests of written files: an object's bytes, and modules over objects.
#![tactic(auto)]

#[cfg(test)]
mod elf_tests;
#[cfg(test)]
mod mach_module_tests;
#[cfg(test)]
mod module_tests;
