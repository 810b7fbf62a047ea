//! The checker of scripts.
//!
//! `check` answers the program that a parsed script is, or its first fault with its line and kind,
//! exactly as `specs/Rules.antt` of script_rules defines: statement by statement, each by its rules
//! in order. The rules of lets are carried out in let_check, those of operations in
//! operation_check, and those of types in written_types. What the statements define is a program of
//! script_program.
#![tactic(auto)]

mod checks;
mod inputs;
mod outputs;
mod rules;
mod scales;
mod signatures;

pub use checks::check;
