//! One act of a stage that makes an object, run on the values of what it takes.
//!
//! `operate` calls a function once, on the values of objects, and gives the one value that the call
//! emits. `singleton` gives the value of the only pair of a list, or what a combiner makes of
//! nothing where there is no pair. Where they trap they give the trap in place of the value
//! (`object_of`, specs/Results.antt), and what they give is what the act means in a graph
//! (`act_result`, of `exec_graph`). Where an object has no value there is nothing to call, and the
//! act gives none (`no_value_law`).
#![tactic(auto)]

mod called;
mod laws;
mod single;

pub use called::operate;
pub use laws::no_value_law;
pub use single::singleton;
