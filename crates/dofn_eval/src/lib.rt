//! Typed functions of the script language, and what a call of one gives.
//!
//! A function's body is a `Block` of `Stmt`s over `Expr`s, in which every name is a slot: a
//! variable is its place among the values in scope, the newest first, and a field is its place
//! in its record. `slots_mean` says what a body emits to each output on an argument, form by form,
//! or why it traps. `Fun` keeps in its type that its body is well typed, at some types of its
//! argument and its outputs. So a call of one on a value of its argument's type meets no operand of
//! another type, and what it emits to an output has that output's type. dofn_calls carries calls
//! out.
#![tactic(auto)]

mod expr;
mod fun;
mod laws;
mod stmt;

pub use expr::{Arithmetic, Binary, Comparison, Expr, Unary};
pub use fun::Fun;
pub use laws::{call_law, expression_law, statement_law};
pub use stmt::{Block, Stmt};
