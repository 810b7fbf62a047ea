//! Tests of loads, saves and texts over the forms in memory, of what is printed, of caches in
//! memory, and of the real source, shelf, screen and cache: what they write is read back from the
//! system.
#![tactic(auto)]

#[cfg(test)]
mod tests;
