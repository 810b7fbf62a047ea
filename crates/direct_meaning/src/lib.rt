//! The direct meaning of a script (specs/Direct.antt): for each needed node, the bag of its members
//! and the traps behind it; and the evaluation of a program that comes to it, node by node.
//!
//! An object is a collection of one member, or of none exactly where it has a trap
//! (specs/Objects.antt, `objects_law`); `combined_law`, `beside_law` and `operated_law` work out
//! what is made of objects.
#![tactic(auto)]

mod beside;
mod calls;
mod combining;
mod evaluation;
mod flatten;
mod kept;
mod laws;
mod node;
mod objects;
mod operate;
mod sorting;
mod steps;
mod told;

pub use evaluation::direct;
pub use laws::{beside_law, combined_law, meaning_law, objects_law, operated_law};
pub use script_laws;
pub use told::Direct;
