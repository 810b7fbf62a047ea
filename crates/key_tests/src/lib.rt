//! Tests of the texts of statements, and of the keys that are made of them: tables of scripts.
#![tactic(auto)]

#[cfg(test)]
mod keys;
#[cfg(test)]
mod texts;
