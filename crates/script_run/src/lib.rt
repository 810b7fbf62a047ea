//! The run of a script by its plan, on hosts.
//!
//! `run_script` has the tasks of a script's plan made by workers on hosts (`execute` of
//! stage_exec), over the lists of the script's needed sources. What comes of it is told in the
//! terms of the script: the members of each output, the sizes of all needed collections, and for
//! each phase of the plan the attempts that have won its tasks (`IsRan`, specs/Runs.antt); or a
//! trap of the script, or the task that was given up (`IsRunFault`). So whatever the schedule of
//! the workers and whichever attempts are lost, a run that ends without a trap comes to the
//! script's direct meaning (`plan_law`: a plan comes to what its script means).
#![tactic(auto)]

mod laws;
mod run;
mod sorting;

pub use laws::plan_law;
pub use run::{Ran, run_script};
