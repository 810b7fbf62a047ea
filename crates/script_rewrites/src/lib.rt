//! The plan of a script, as a list of rewrites of its execution graph and what is formed of where
//! they lead.
//!
//! All passes but forming are one list of rewrites (`made_law`): the plan of an accepted script
//! comes of it as a plan from outside does of the rewrites that it comes with. A graph and a plan
//! of a script have a place for each output, so that a text has a line for each (`places_law`).
//!
//! Nothing here runs: the functions state what holds of scripts.
#![tactic(auto)]

mod laws;

pub use laws::{made_law, places_law};
