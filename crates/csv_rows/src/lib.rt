//! Typed rows of CSV.
//!
//! `rows` reads the bytes of a file as values of a record type, and `rows_of` those of a file that
//! was loaded in pieces, each of which goes once it is read; `rows_by_threads` reads parts of such
//! a file side by side. The first record must name the type's fields in order, each other record is
//! one row, and the first fault in order of rows, then of columns, is the answer. `text` writes a
//! bag of values: a header, then the elements in ascending order. Both go through `csv` with its
//! default settings and no header row of its own, so quotes, line ends, blank lines and a
//! byte-order mark are what `csv` says they are.
#![tactic(auto)]

mod fault;
mod laws;
mod pieces;
mod read;
mod records;
mod shared;
mod write;

pub use fault::{RowFault, RowKind};
pub use laws::{csv_law, rows_law};
pub use pieces::rows_of;
pub use read::{rows, rows_under_columns};
pub use shared::rows_by_threads;
pub use write::{text, text_under_columns};
