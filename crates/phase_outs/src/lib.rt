//! A phase whose tasks make outs or trap, run to its end.
//!
//! The crew gives each task's out, in order, or names a task that no attempt has won. An out may be
//! a trap. `run_to_end` sorts that out: either all tasks have made their outs, with the attempts
//! that made them (`PhaseOuts`), or the phase stops at a task (`PhaseStop`): the least that has
//! trapped, or the least that no attempt has won. Each smaller task has run and made its out.
//!
//! `AreMade` and `IsStop` (specs/Outs.antt) say so by the numbers of tasks.
#![tactic(auto)]

mod made;
mod run;
mod stop;

pub use made::PhaseOuts;
pub use run::run_to_end;
pub use stop::PhaseStop;
