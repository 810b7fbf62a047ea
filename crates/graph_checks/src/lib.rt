//! Whether a graph is well-formed, decided by calls.
//!
//! `graph_ok` says whether a graph is well-formed (`IsGraphOk` of exec_graph), and `is_founded`
//! whether it has the part that its meaning rests on: numbers rise, all that is read is there, and
//! no path returns to its node. The program makes neither call: each pass is proved to give
//! well-formed graphs of well-formed ones.
#![tactic(auto)]

mod callers;
mod checks;
mod edges;
mod forests;
mod founded;
mod given;
mod objects;
mod order;
mod sizes;

pub use checks::graph_ok;
pub use founded::is_founded;
