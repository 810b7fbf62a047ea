//! Rewrites of graphs, made.
//!
//! `apply` decides whether a rewrite may be made of a graph with its marks, and makes it
//! (`IsApplied`, specs/Applied.antt). `replay` makes rewrites one after another, in the order of
//! their groups, and stops at the first that may not be made (`IsReplayed`, specs/Replayed.antt).
//! When a rewrite may be made, and what it makes, is said by the laws of graph_rewrites. A rewrite
//! takes time in proportion to the graph; in a list of rewrites, kids and siblings that follow one
//! another are made under names, where only the first and the last of them do so.
#![tactic(auto)]

mod applying;
mod joins;
mod lifting;
mod marking;
mod replaying;
mod standing;

pub use applying::apply;
pub use replaying::{ReplayFault, replay};
