//! Plans written out as JSON, for programs to read.
//!
//! `plan_json` writes one line (specs/PlanJson.antt). What the numbers of a plan are called is
//! handed in, as in plan_writing, and collections and steps are printed as there.
#![tactic(auto)]

mod json;
mod laws;
mod values;

pub use json::plan_json;
pub use laws::utf8_law;
