//! The elements of a task, one after another, on a host.
//!
//! `walk` takes elements through their steps, and asks the host at the attempt's start and before
//! each element, after a trap too. `run_owned` goes so over elements that are handed over, by the
//! steps of a forest. Where a task's elements stay where they are and are taken in parts, `ask_for`
//! asks the host for all of them first, and `run_part` takes each part through its steps. Both give
//! what each output is given, or the first trap (`IsCourse`), in the words of `task_lists`. Clauses
//! name the functions alone (`world_of`), since nothing else of a world matters to steps
//! (`forest_courses::worlds_law`).
#![tactic(auto)]

mod ask;
mod parts;
mod run;
mod walking;

pub use parts::{ask_for, run_part};
pub use run::{begin, run_owned};
pub use walking::{Course, walk};
