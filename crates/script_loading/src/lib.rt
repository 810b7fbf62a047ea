//! The script and its inputs, as they are loaded and decoded.
//!
//! A file is loaded as often as the caller says before the source's failure is the answer
//! (`files`). The bytes of a script are parsed and checked (`script`): they are accepted as one
//! script or refused for one reason (specs/Accepted.antt, `accepted_law`). The program of one that
//! is accepted keeps what is known of it (`ready`). The inputs that a script needs (`needed`) are
//! taken in as their files are loaded, in the script's order, by whatever takes them (`reading`).
//! The rows of each are decoded under its columns (`inputs`); they are of its types (`inputs_law`).
//! A plan from outside is loaded too (`plans`). A refusal is the first that is met, with its cause
//! (specs/Causes.antt).
#![tactic(auto)]

mod files;
mod inputs;
mod laws;
mod limits;
mod needed;
mod plans;
mod reading;
mod ready;
mod script;

pub use build_law;
pub use build_law::{direct_meaning, graph_build};
pub use files::loaded;
pub use inputs::rows_of_inputs;
pub use laws::{accepted_law, inputs_law};
pub use limits::{INPUT_LIMIT, PLAN_LIMIT, SCRIPT_LIMIT};
pub use needed::Needed;
pub use plans::plan_bytes;
pub use reading::{Intake, read_inputs};
pub use ready::ReadyProgram;
pub use script::script_of;
