//! The rules of operations.
//!
//! `made_by` answers the collections that an operation makes of those that a script has defined so
//! far, one for each name, or the operation's first fault, exactly as `specs/Operations.antt` of
//! script_rules defines: how each is made, and the type of its members. `collection` finds a
//! collection by its name, `collections` several, from the left, and `numbers` tells their numbers.
#![tactic(auto)]

mod combiner;
mod flatten;
mod objects;
mod operation;
mod pairs;
mod sides;
mod top;

pub use flatten::{collections, numbers};
pub use operation::{collection, made_by};
pub use script_program;
pub use script_program::{expression_check, written_types};
