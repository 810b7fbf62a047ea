//! The execution graph of a script.
//!
//! `build` makes the graph of a program exactly as `graph_of` (specs/Graphs.antt) defines it: for
//! each needed collection, in the order of the script, the nodes that make it (specs/Nodes.antt),
//! numbered one after another from 0. Counts, joins, greatest members and all members as one value
//! are made of steps, groups and combinations; of each of these the last node alone gives what the
//! collection is. What takes objects is a barrier, and so is what makes one.
//!
//! A call of a function is one node, at its names (specs/Built.antt), where one of them is needed.
//! It has an output for each name, in order; those that are needed have numbers,
//! from 0 on, and no others are read (specs/Calls.antt).
//!
//! A collection that an earlier run has kept is a source, and so are inputs. Of the names of a call
//! the kept ones stand first, and behind them the call, where one of its other names is needed.
#![tactic(auto)]

mod builder;
mod built;
mod built_for;
mod nodes;
mod numbers;
mod objects;
mod operations;
mod outputs;
mod places;
mod wanted;

pub use builder::build;
pub use built_for::origins;
pub use script_program;
