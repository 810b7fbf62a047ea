//! The reduce tasks of a stage.
//!
//! A reduce task gathers what the map tasks gave for a partition of a grouping channel, and runs
//! the channel's reducer on its groups, keys ascending, on a host. Pairs stay where they are:
//! references to them are sorted once, and each value is copied once, into its group, which is
//! handed over to the reducer. Of a lifted channel accumulators are gathered in place of pairs:
//! they are merged in one table, one a key, and the reducer's root finishes each, so that no group
//! is ever made.
//!
//! `Reducing` (specs/Reducing.antt) is all that the tasks of a stage read, with what it asks
//! (`CanReduce`) and what is right for a task to give (`IsReducingValue`). Over the outs of its map
//! tasks a stage's reduce tasks can be made (`reduce_tasks_law`).
#![tactic(auto)]

mod laws;
mod lifted;
mod out;
mod reduce;
mod tasks;

pub use laws::{reduce_tasks_law, reducing_law};
pub use out::{ReduceOut, Reduced};
pub use tasks::ReduceTasks;
