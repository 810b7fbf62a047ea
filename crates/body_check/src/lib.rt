//! The checker of functions' bodies: from names to slots.
//!
//! A body as it is parsed has names: of its argument, of the members of lists, of fields, of types.
//! `specs/Bodies.antt` has the rules of a body, with its first fault, and `specs/Call.antt` what a
//! call of a function means where names stand for values, by one equation for each form.
//! `check_body` answers the function with slots in place of names, or that first fault on the line
//! of the innermost statement; and what that function means is what the parsed body does. Both have
//! a list of outputs, each with its type: `emit to N` emits to output N, counted from 1, and `emit`
//! to the first.
#![tactic(auto)]

mod checks;
mod emitted;
mod frame;
mod laws;
mod statements;

pub use checks::check_body;
pub use expression_check;
pub use expression_check::written_types;
pub use laws::{call_law, statement_law};
