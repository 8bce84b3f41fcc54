//! Tests of what definitions are made of, and of what a back end refuses of them.
#![tactic(auto)]

#[cfg(test)]
mod mach_refusal_tests;
#[cfg(test)]
mod reloc_tests;
