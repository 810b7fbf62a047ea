//! The course of a call, and what each of its answers says (specs/Answers.antt).
//!
//! The words are read (crate command_words), the script and its inputs are loaded and decoded
//! (crate script_loading), and each command does its part (`commands`): a plan is shown
//! (`showing`), a script is evaluated (`evaluation`), or its plan, or that of a file (`plans`), is
//! run on hosts (`running`). Only then its files are written, and the text of the screen
//! (`course`). A call that traps, the task that a run gave up or the first refusal met is the
//! answer, and leaves its line.
#![tactic(auto)]

mod commands;
mod course;
mod evaluation;
mod files;
mod limits;
mod plans;
mod running;
mod showing;
mod stop;

pub use course::{deliver, run, stop_told};
pub use files::{Written, file_of, with_sizes};
pub use limits::TRIES;
pub use running::{output_files, ran_on, ran_through};
pub use script_loading;
pub use script_loading::build_law;
pub use script_run;
pub use showing::{ShownPlan, plan_shown};
pub use stop::{Stop, Trapped};
