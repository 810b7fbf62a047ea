//! The texts of the plans of a script.
//!
//! `plan_text` and `plan_json` write a plan as lines and as JSON, under the names that a program
//! has for inputs, functions and collections (specs/Texts.antt). How they are laid out is said in
//! plan_writing and plan_json, and how a step is named in graph_print.
#![tactic(auto)]

mod names;
mod texts;

pub use graph_print;
pub use graph_print::script_program;
pub use names::ProgramNames;
pub use texts::{plan_json, plan_text};
