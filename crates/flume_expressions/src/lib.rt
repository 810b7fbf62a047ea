//! The reading of expressions.
//!
//! Each function reads a part of an expression from the tokens that are left (flume_reading's
//! `Cursor`), and its one clause says that it reads exactly what the parser of that part in
//! flume_grammar's `specs/inner/` reads, or stops where that stops; its own pieces, which are of no
//! use apart, are in `specs/inner/Pieces.antt`.
//!
//! Nothing recurses deeper than the limit of depth. Parentheses count no depth and are counted, not
//! nested; members and fields are read by loops.
#![tactic(auto)]

mod calls;
mod ends;
pub mod expression;
mod operand;
mod operator;
mod start;

pub use operator::ANY;
