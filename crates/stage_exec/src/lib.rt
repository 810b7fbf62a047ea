//! The executor of plans: stage after stage, each phase by a crew on the hosts that are lent.
//!
//! `execute` runs the stages of a plan in order. Of a stage it runs the map tasks, and where the
//! stage groups then the reduce tasks; what they give makes the results, which later stages read.
//! A Flatten stage has no tasks, and neither has an Operate stage: no host is asked for it, and its
//! act makes an object of the lists that it takes, which is a list of one value. The list of a
//! source and a result are dropped between the phases of the last stage that reads them, unless
//! they are outputs. In the end it gives the outputs of the plan, how many members the bag of each
//! script node has, and which attempt has won each task (`Executed`); or the first trap, or the
//! task that was given up (`RunFault`).
//!
//! Whatever the hosts do, and whoever wins, what is answered is the plan's meaning (`IsExecuted`,
//! `IsExecutionFault`: specs/Executions.antt).
//! They are asked for the plan's phases of tasks alone, one behind the other (`asked` of
//! `execute`).
#![tactic(auto)]

mod dropping;
mod executed;
mod executing;
mod flatten;
mod objects;
mod outputs;
mod phases;
mod stage;
mod stages;
mod taking;

pub use executed::Executed;
pub use executing::execute;
