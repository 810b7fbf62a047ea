//! Tests of the words of a command line: a table of literal words, and what they ask for, where a
//! run of them does not show it. Words that are refused are worked cases.
#![tactic(auto)]

#[cfg(test)]
mod asked;
