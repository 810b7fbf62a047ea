//! Types under numbers.
//!
//! A `Types` holds each type once, as one level whose parts are numbers of earlier types. So two
//! numbers of one table are equal exactly where their types are, and a type that is written with
//! many names takes as much room as its text, however large its tree would be.
//!
//! Contracts see a table as the list of its types as trees: `type_at types id` is the tree.
#![tactic(auto)]

mod depth;
mod flat;
mod shape;
mod table;

pub use flat::{columns, input_columns};
pub use shape::{Part, Parts, Shape, TypeId};
pub use table::Types;
