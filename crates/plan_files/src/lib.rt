//! Files of plans: rewrites, and the plan that they are to lead to.
//!
//! Such a file is a JSON value of one form (`file_of`, specs/Forms.antt): an object of a `plan`,
//! which may be any value, and of `rewrites`, a list of objects, each of which tells a rewrite by
//! its numbers, `at`, and its name, `op`. `read_file` tells what a file has, and tells bytes that
//! are no JSON from values of another form (`IsReadAs`, specs/Reads.antt). `file_text` writes such
//! a file, and what it writes is of the form (`form_law`).
#![tactic(auto)]

mod file;
mod laws;
mod numbers;
mod plan_text;
mod reading;
mod rewrites;
mod writing;

pub use file::{FileFault, PlanFile};
pub use laws::form_law;
pub use reading::read_file;
pub use writing::file_text;
