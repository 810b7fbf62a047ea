//! Kids and siblings: two Pdos of a graph become one.
//!
//! `join_kid` makes a Pdo a kid of an output that it reads, under the lesser of both numbers
//! (`kid_under` under that of the Pdo that is read), and `join_sibling` puts a Pdo behind another
//! that reads the same. Each is what the laws of graph_rewrites say (`after_kid`, `after_sibling`,
//! specs/Rewrites.antt there): the outputs of both get numbers that differ, the steps are put
//! together, what nothing reads is dropped, and what is left is numbered anew. It takes time in
//! proportion to the graph: the steps are changed where they stand, and what reads an output is
//! told once of where that is in the end. `can_be_kid` and `can_be_sibling` tell whether two Pdos
//! may become one.
#![tactic(auto)]

mod finding;
mod flags;
mod joining;
mod moves;
mod nodes;
mod pairs;
mod refits;

pub use finding::{input_at, is_pdo_at, steps_at};
pub use joining::{join_kid, join_sibling, kid_under};
pub use nodes::{Opened, replaced};
pub use pairs::{Kid, can_be_kid, can_be_sibling, can_sibling};
