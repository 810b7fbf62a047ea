//! Rewrites of execution graphs, and lists of them.
//!
//! A `Rewrite` merges or sinks Flattens, lifts a group, makes one Pdo of two, or marks a
//! collection. When it may be made, and what it makes, is told by the laws of each by itself
//! (`CanApply` and `applied`, specs/Rewrites.antt). A list of rewrites leads from a graph to
//! another with its marks, or stops at the first that may not be made where it stands (`Leads` and
//! `StopsAt`, specs/Replays.antt). Where a list leads is one graph, as good as the one that it
//! began with (`rewrite_law`, `replay_law`).
//!
//! Nothing here runs: the rewrites are data, and the functions state what holds of them.
#![tactic(auto)]

mod laws;
mod rewrite;

pub use laws::{replay_law, rewrite_law};
pub use rewrite::Rewrite;
