//! Tests of values, of their bytes and types, and of the ints that texts show: tables of cases over
//! public calls.
#![tactic(auto)]

#[cfg(test)]
mod cases;
mod hashes;

pub use hashes::hash_of_the_letter_a;
