//! The names of ELF relocation numbers: `r_to_str` tells the name of a number of a machine. The crate stands
//! on `goblin_reloc`. The layers above rely on `r_to_str`, which tells what the tables say for every pair of
//! a number and a machine, and on `name_laws`: known names are told apart from each other and from the
//! texts for unknown numbers.
#![tactic(auto)]

mod aarch64;
mod arm;
mod families;
mod laws;
mod loongarch;
mod mips;
mod names;
mod openrisc;
mod powerpc;
mod powerpc64;
mod riscv;
mod x86;
mod x86_64;

pub use laws::name_laws;
pub use names::r_to_str;
