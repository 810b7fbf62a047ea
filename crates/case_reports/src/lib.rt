//! What came of the calls of a worked case of `flume`, as text (`Report`): the form of what is told
//! stands in docs/CASES.md.
//!
//! Nothing here makes a call. What is promised is that any outcome is told, safely.
#![tactic(auto)]

mod reports;
mod telling;

pub use reports::{Counts, Outcome, Report, push_title};
pub use telling::{push_name, push_number, push_text};
