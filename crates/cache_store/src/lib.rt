//! Results that are kept from one run to the next, as a trait: a `Cache` of entries, each a value
//! under a key.
//!
//! A contract sees what a cache tells (its entries: optional, since a real disk tells nothing) and
//! a count of its failures, which never falls. A call answers `Failed` only where that count rose
//! in the call. `NoCache` has no entries and keeps none; the form in memory, for tests, stands in
//! memory_outside.
#![tactic(auto)]

mod cache;
mod entry;
mod none;

pub use cache::{Cache, FindFault};
pub use entry::CacheEntry;
pub use none::NoCache;
