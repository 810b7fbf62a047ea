//! The phases of a plan, in the order in which a run makes them.
//!
//! A stage has a map phase, and where it groups a reduce phase; a stage that makes an object by an
//! act is a phase without tasks, and a Flatten has none. `phases` (specs/Phases.antt) lists those
//! of all stages, each over the lists that it finds, with the tasks of each, or the traps of its
//! act. `phases_law` says that their traps, in order, are all traps of the plan's tasks and acts.
//! So the first trap is that of the least trapping task, or of the act, of the first phase that has
//! one.
//!
//! Phases that have run tell of each task which attempt has won it (`HaveRun`, `PhaseWinners`), and
//! where a run stops it names the first trap or the task that was given up (`IsStopped`,
//! `RunFault`): all phases and tasks before have run without a trap (`IsReached`, specs/Told.antt).
//! The hosts were asked for the phases with tasks alone, one behind the other, each in one work of
//! the crew, whose board names the winners (`AskedInTurn`), and for none behind the one where it
//! stops (`AskedFront`).
#![tactic(auto)]

mod fault;
mod laws;
mod winners;

pub use fault::RunFault;
pub use laws::phases_law;
pub use winners::PhaseWinners;
