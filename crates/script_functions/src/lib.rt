//! The functions of a script, as the steps of a plan call them.
//!
//! Contracts see `ScriptFunctions` as the script. What a call of a function gives is what the
//! script's functions give in the script's world, over any inputs; and a function may be called on
//! what it takes, by the script's signatures. So `safe_law` of `task_safety` gives all that the
//! steps of a typed plan need: the script's world fits its signatures (`world_law`).
#![tactic(auto)]

mod emission;
mod functions;
mod laws;

pub use functions::ScriptFunctions;
pub use laws::world_law;
