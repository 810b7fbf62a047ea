//! The rules of scripts, as definitions.
//!
//! `specs/Rules.antt` defines the program that a parsed script is, or its first fault with its line
//! and kind: statement by statement, each by its rules in order. The rules of operations stand in
//! `specs/Operations.antt`, and the turns of a repeat, which are collections of the script, in
//! `specs/Repeats.antt`. script_check carries the rules out, and the laws on them need no code.
#![tactic(auto)]
