//! Rewrites of any sound graph, whatever its size.
//!
//! A graph that has a meaning at all (`IsSound` of exec_graph) keeps it, and its types, in each
//! rewrite that may be made of it, also where a Flatten gets 20,000 inputs or the graph a million
//! nodes (`sound_law`). Limits are asked for only where a graph is to stay well-formed
//! (`rewrite_law` of graph_rewrites): what may be made within them may be made (`CanMake`,
//! specs/Making.antt). And so it is with rewrites one after another, in any order (`list_law`).
//!
//! Nothing here runs: the functions state what holds of rewrites.
#![tactic(auto)]

mod laws;

pub use laws::{list_law, sound_law};
