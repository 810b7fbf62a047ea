//! A made input and its sums: what they are, and what makes them.
//!
//! The rows of a made input count upward; each has its number and, as its key, the last decimal
//! digit of that (`rows`, specs/Rows.antt). The file of them is written at once (`text`): it has
//! just these rows (`made_rows_law`). Its sums are those of a script with one group (`tree`,
//! specs/Sums.antt), which is checked like any other (`program`); over made rows it means the sum
//! of the numbers of each key, and none of its calls traps (`sums_law`).
#![tactic(auto)]

mod laws;
mod program;
mod rows;
mod text;
mod tree;

pub use laws::{made_rows_law, sums_law};
pub use program::sums_program;
pub use rows::rows_made;
pub use text::{made_total, text_made};
