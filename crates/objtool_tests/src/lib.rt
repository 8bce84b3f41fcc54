//! Tests that cross crates: the whole program over a host in memory.
#![tactic(auto)]

#[cfg(test)]
mod build_tests;
#[cfg(test)]
mod command_tests;
#[cfg(test)]
mod data_files;
#[cfg(test)]
mod declaration_tests;
#[cfg(test)]
mod definition_tests;
#[cfg(test)]
mod files;
#[cfg(test)]
mod limit_tests;
#[cfg(test)]
mod list_tests;
#[cfg(test)]
mod mach_build_tests;
#[cfg(test)]
mod mach_files;
#[cfg(test)]
mod mach_part_files;
#[cfg(test)]
mod pe_tests;
#[cfg(test)]
mod query_tests;
#[cfg(test)]
mod read_tests;
#[cfg(test)]
mod repeated_name_tests;
#[cfg(test)]
mod target_files;
#[cfg(test)]
mod target_tests;
