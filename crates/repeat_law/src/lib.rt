//! Bounded iteration: what a script means that has the turns of a repeat as collections of its own
//! is what the turns of the repeat mean, carried out one after another (specs/Turns.antt).
#![tactic(auto)]

mod laws;

pub use laws::{fitting_law, origin_law, repeat_law, turns_law, worked_law};
