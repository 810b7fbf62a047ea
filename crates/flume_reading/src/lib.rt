//! The reading of tokens and of types.
//!
//! `Cursor` has the tokens of a script that are left. Each function reads a part of the script from
//! them, and its one clause says that it reads exactly what the parser of that part in
//! flume_grammar's `specs/inner/` reads, or stops where that stops. `following` reads what comes
//! behind a part, by the parsers of `specs/inner/Pieces.antt`.
//!
//! A type recurses no deeper than the limit of depth; its fields are read by a loop.
#![tactic(auto)]

mod cursor;
pub mod following;
pub mod reading;
mod written;

pub use cursor::Cursor;
pub use written::whole_type;
