//! The course of `make`: a made input and its sums are written.
//!
//! The sums are those of a script (crate made_rows) that is run over the made rows, by the usual
//! settings, on the hosts that are handed in (`summing`). Only then the files are written, the made
//! input first, and the line of the screen (`course`). What each answer says is a field of
//! `Makes` (specs/Makes.antt).
#![tactic(auto)]

mod course;
mod summing;

pub use course::make;
pub use run_course;
pub use run_course::script_loading;
