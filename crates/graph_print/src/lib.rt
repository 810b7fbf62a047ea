//! The texts of execution graphs, and the names of steps in all texts.
//!
//! A graph names inputs, functions and collections by number; its text prints the names that a
//! program has for them. `graph_text` is the text of the graph that is built of the program
//! (specs/GraphText.antt): a line for each node, in which a Pdo has one step, and a line for each
//! output of the script.
#![tactic(auto)]

mod graphs;
mod names;
mod steps;

pub use graph_build::script_program;
pub use graphs::graph_text;
pub use names::node_name;
pub use steps::{push_combiner, push_step};
