//! The crew: workers that make the attempts of a phase's tasks on hosts, side by side, over one
//! claim board.
//!
//! A phase is some tasks (`Tasks`), each of which is attempted up to `tries` times until one
//! attempt of it has won. `work` is one worker: it draws attempts from the board, makes each on its
//! host, and keeps what it wins. An attempt is lost where its host is down, or where the drill
//! names it. `work_all` forks and joins one worker for each pass of a board and each host, over
//! halves of the list of hosts: no lock, no channel, no call that waits. `run_phase` makes one
//! board, lends its passes to the workers and closes it. It answers an out for each task, or the
//! least task that no attempt has won, with the outs of the smaller ones.
//!
//! `specs/Hosts.antt` says what hosts tell, `specs/Attempts.antt` what an attempt comes to,
//! `specs/Work.antt` what a worker does in its turns, `specs/Workers.antt` what all workers do with
//! a board, and `specs/Phases.antt` what a phase gives, why it gives up, and what it asks of its
//! hosts.
#![tactic(auto)]

mod attempts;
mod drill;
mod halves;
mod kept;
mod phase;
mod settings;
mod tasks;
mod worker;

pub use attempts::{Attempt, Spot};
pub use drill::{Drill, Entry};
pub use halves::work_all;
pub use kept::{Kept, KeptOut};
pub use phase::{PhaseFault, run_phase};
pub use settings::PhaseSettings;
pub use tasks::Tasks;
pub use worker::work;
