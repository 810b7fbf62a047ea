//! Passes of the optimiser, written down as the rewrites that they are.
//!
//! `sinks_of` tells the merges and the steps that sinking makes, `fusions_of` the siblings and the
//! kids that fusing makes, both in order and with where they lead (`IsSinking`, specs/Sinks.antt,
//! and `IsFusion`, specs/Fusions.antt, over `IsTrace`, specs/Traces.antt). A rewrite is found in
//! the graph as it stands when it is made, so the lists are those that another reader of the graph
//! replays. Siblings and kids are made under names (graph_joins), where none of them changes what
//! others read. Kids are made under the numbers of the Pdos that they read, beside a table of the
//! numbers that nodes have where each kid takes the lesser one, under which its rewrite is written.
#![tactic(auto)]

mod callers;
mod copying;
mod fusing;
mod fusions;
mod hanging;
mod likely;
mod named;
mod numbers;
mod pairing;
mod sinking;
mod trace;

pub use copying::copy_graph;
pub use fusions::fusions_of;
pub use pass_rewrites::mscr_form;
pub use sinking::sinks_of;
pub use trace::Trace;
