//! Worked cases of `flume` as text: a file of cases is read (`read_cases`). The form of a file of
//! cases stands in docs/CASES.md.
//!
//! Nothing here makes a call. What is promised is that any text is read, safely: the file of cases
//! is written by hand, and a mistake in it is told by its line.
#![tactic(auto)]

mod cases;
mod commands;
mod drafts;
mod faults;
mod headings;
mod lines;
mod mistakes;
mod numbers;
mod pieces;
mod reading;

pub use cases::{CACHE_ROOM, Case, Command, Faults, HostDown, Room, TextFile, When};
pub use mistakes::{Misread, Mistake};
pub use reading::{Entry, read_cases};
