//! Graphs under names: each output has a name that is of no other node.
//!
//! `named` gives the output j of Pdo n the name `j * next + n`, and tells what is read of a Pdo by
//! the name alone. `unnamed` numbers each forest from 0 on, and tells all by node and number again
//! (specs/Names.antt). In between Pdos can become one without a change of what others read.
#![tactic(auto)]

mod graphs;
mod kinds;
mod moves;
mod naming;
mod spots;

pub use graphs::{named, unnamed};
