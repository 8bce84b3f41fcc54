//! Tests of the model: the values of the code generator, and declarations.
#![tactic(auto)]

#[cfg(test)]
mod declaration_tests;
#[cfg(test)]
mod ir_tests;
#[cfg(test)]
mod json_tests;
#[cfg(test)]
mod module_text_tests;
