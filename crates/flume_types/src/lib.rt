//! The types of values.
//!
//! A type is int, bool or text, a list of one type, a record of named fields, or an either of
//! two types. `has_type` says which values a type has, one level at a time (`typing_law`), and
//! `depth` how deep a type's parts lie.
//!
//! Values of a flat type are written as rows: `columns` are the cells of a row, and a type that
//! has none is not flat. Inputs are read as records of cells alone: `input_columns`.
#![tactic(auto)]

mod column;
mod copies;
mod deep;
mod flat;
mod same;
mod table;
mod types;
mod typing;

pub use column::{Column, ColumnFault, ColumnKind, Columns};
pub use copies::copy;
pub use deep::{depth, depth_law};
pub use flat::{columns, columns_law, input_columns};
pub use flume_value;
pub use same::{same_law, same_type};
pub use table::table_type;
pub use types::{Field, Fields, Ty};
pub use typing::{has_type, typing_law};
