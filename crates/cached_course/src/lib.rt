//! The course of a run that reuses what earlier runs have kept.
//!
//! The collections that the script's outputs read are looked for in the cache (specs/Looked.antt).
//! Those that were found are sources of the graph that is run (specs/Reused.antt), and the others
//! are kept behind the last output file (specs/Kept.antt). What each answer says stands in
//! specs/Answers.antt, and what a call promises in specs/Promises.antt: over a sound cache
//! (specs/Sound.antt) it answers as a run without a cache.
#![tactic(auto)]

mod course;
mod found;
mod laws;
mod looking;
mod missing;
mod saving;
mod short;

pub use course::run_cached;
pub use laws::memory_law;
