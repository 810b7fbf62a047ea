//! The optimiser's plan, with the rewrites that lead to it.
//!
//! `optimise_traced` gives the plan that `optimise` gives, and beside it a list of rewrites whose
//! replay ends in a graph of which that plan is formed: merges and sinks, lifts, siblings and then
//! kids in ascending order of the Pdos that go, and marks in ascending order of nodes and outputs.
//! `rewrites_json` writes both as the file of a plan, which `check_plan` takes, with that very plan
//! (`accepted_law`).
#![tactic(auto)]

mod fusing;
mod laws;
mod lifting;
mod lists;
mod marking;
mod refining;
mod sinking;
mod tracing;
mod writing;

pub use laws::accepted_law;
pub use plan_check;
pub use tracing::{Traced, optimise_traced};
pub use writing::rewrites_json;
