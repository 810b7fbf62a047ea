//! What the statements of a script so far define.
//!
//! A `State` takes one more definition at a time, under a name that is free, and comes to the
//! program of all. Names stand apart from collections, so a collection may have a further name or
//! one by which it is not found. It holds types under numbers; contracts see it over types as trees
//! (specs/Held.antt), in the order of the definitions, as `specs/Script.antt` of script_program
//! defines.
#![tactic(auto)]

mod operand;
mod state;

pub use operand::{Callee, Operand};
pub use state::State;
