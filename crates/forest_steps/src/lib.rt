//! The steps of a forest on one element, and on one after another.
//!
//! What the functions of a script answer is told by `Functions`, which whoever has the script
//! implements; derived functions and combinations are made here. A step is called on an element.
//! What it emits to an output is counted, goes, each emission in order, to the steps on that
//! output, and then into the output's list, where it is kept. The first trap ends it.
//!
//! `run` (specs/Running.antt) says what steps give, and `visit_steps` gives it; `visit_one` goes on
//! with one emission that a step has answered. No list is made for one emission: it goes on as it
//! is. Nor is a record made of a pair that no step reads: its key and its value stand side by side
//! (`Emitted`).
//!
//! Counts stand by the places of outputs in preorder, for which `sizes_of` makes a table once a
//! task.
//!
//! `Elements` is what a walk goes over: elements in their order, each with its steps. They stay
//! where they are (`Borrowed`) or are handed over to their steps (`Owned`).
#![tactic(auto)]

mod answer;
mod derived;
mod elements;
mod emissions;
mod emitted;
mod fault;
mod functions;
mod once;
mod outputs;
mod sizes;
mod visit;

pub use elements::{Borrowed, Elements, Owned};
pub use emissions::Answer;
pub use emitted::Emitted;
pub use fault::StepFault;
pub use functions::Functions;
pub use outputs::{Outputs, no_counts};
pub use sizes::sizes_of;
pub use visit::{next_list, visit_one, visit_steps};
