//! What keys tell: collections of accepted scripts over files that have one key are the same, in
//! whatever scripts they stand (specs/Keyed.antt). So what is kept of a collection under its key is
//! right wherever the key is met again.
#![tactic(auto)]

mod law;

pub use law::key_meaning_law;
