//! What the checker's rules come to: each accepted script is well formed.
//!
//! `specs/WellFormed.antt` says what that is, without a word of rules, statements or faults: each
//! collection reads collections before it and calls a function, of types that fit, it reads objects
//! just where their values are read, each output has the columns of what it reads, and each
//! function's body is well typed. Whoever goes through a program's collections in order, as an
//! evaluation or a graph does, needs no more. The collections that are computed as needed are those
//! from which a path of reads leads to an output.
#![tactic(auto)]

mod laws;

pub use laws::{needed_law, well_formed_law};
