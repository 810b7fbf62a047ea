//! The sizes of a script's needed collections, where a run has counted.
//!
//! A run of a plan counts what the calls, groups and combinations of each collection come to. Those
//! of sources and of collections together follow: a source has as many members as its list
//! (`member_counts`), and collections together have all members of theirs. `needed_sizes` gives the
//! names and the sizes of all needed collections, in order of the script, as its direct meaning has
//! them, where the counts are those of that meaning (`AreOwnCounts`, specs/Counts.antt).
#![tactic(auto)]

mod members;
mod sizes;

pub use build_law;
pub use build_law::direct_meaning;
pub use members::member_counts;
pub use script_program;
pub use sizes::needed_sizes;
