//! Kept collections: a script in which some collections are those that an earlier run has kept
//! means for each of them and for all others what the script itself means (specs/Found.antt), where
//! what is kept is what the script means.
#![tactic(auto)]

mod laws;

pub use laws::{lists_law, saved_law};
