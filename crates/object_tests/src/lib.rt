//! Tests of objects in memory.
#![tactic(auto)]

#[cfg(test)]
mod object_tests;
