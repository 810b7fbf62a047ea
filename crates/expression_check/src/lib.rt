//! The checker of expressions in functions' bodies: from names to slots.
//!
//! An expression as it is parsed has names: of values, of types, of fields. `specs/Types.antt` says
//! which type it has, or its first fault from the left, and `specs/Given.antt` what it gives where
//! names stand for values, by one equation for each form. `resolve` answers the expression with
//! slots in place of names, with its type, or that first fault. `slots_law` says that such
//! slots have the type and give what the expression gives.
//!
//! What is in sight, and the type of each operation from those of its operands, is the crate
//! expression_types below; here is what goes down into an expression. `number_within` reads a
//! number in digits within limits, as `specs/Numbers.antt` defines, for the statements above.
#![tactic(auto)]

mod expression;
mod forms;
mod laws;
mod numbers;
mod typed;

pub use expression::resolve;
pub use expression_types;
pub use expression_types::written_types;
pub use laws::{expression_law, slots_law};
pub use numbers::number_within;
pub use type_table;
pub use typed::Typed;
