//! Graphs as states: outputs under names that are each of one node in the whole graph.
//!
//! In a state two nodes become one without a change of what others read (the laws of fuse_chain).
//! `named_law` is how a graph is a state: the output j of Pdo n has the name `j * next + n`, and
//! what is read of a Pdo is told by the name alone. Numbered and told again it is the graph.
//! `sibling_law` and `kid_law` are how siblings and kids are made there, and `made_law` and
//! `join_law` say that they are those of graph_rewrites.
#![tactic(auto)]

mod laws;

pub use graph_names;
pub use laws::{join_law, kid_law, made_law, named_law, sibling_law};
