//! Tests of placement: parts that are built and placed, and files that other assemblers wrote.
#![tactic(auto)]

#[cfg(test)]
mod assembled_tests;
#[cfg(test)]
mod fault_tests;
#[cfg(test)]
mod label_tests;
#[cfg(test)]
mod large_tests;
#[cfg(test)]
mod parts;
#[cfg(test)]
mod related_tests;
#[cfg(test)]
mod row_tests;
