//! A claim board: tasks are tried several times by several workers, and of each task one attempt at
//! most is kept.
//!
//! A board is some words that its workers share. The first counts the draws: the draw `d` is the
//! attempt `d / tasks + 1` of the task `d % tasks`. Each task has a word too, which is 0 until an
//! attempt wins the task, and that attempt's number from then on. A worker holds a pass. It draws
//! an attempt, makes it, and commits it; what loses is thrown away. `close` takes the passes back
//! and tells the winners. To draw, to look and to commit are one atomic step each: there is no
//! lock, no channel and no call that waits.
//!
//! `specs/Protocol.antt` has the board as a state machine, and `protocol_laws` what holds along
//! every list of its events. `specs/Seats.antt` has the rule that the shared words keep at each
//! step, and `board_steps` the six kinds of step.
#![tactic(auto)]

mod board;
mod draw;
mod laws;
mod pass;
mod passes;
mod rule;
mod seats;
mod size;
mod steps;
mod tally;

pub use board::Board;
pub use draw::{Draw, Lost, Won};
pub use laws::protocol_laws;
pub use pass::Pass;
pub use passes::Passes;
pub use steps::board_steps;
pub use tally::Tally;
