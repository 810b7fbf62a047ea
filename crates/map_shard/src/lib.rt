//! What a map task of a stage reads, and what it gives.
//!
//! A map task takes a shard of the list that an input channel reads, runs the channel's steps on
//! it, and gives each output channel of the stage what that takes: the values themselves, pairs
//! parted by the partition of their keys, or, where a channel is lifted, accumulators that stand
//! for its pairs. Where the channel has an object its steps are called beside the object's value,
//! which stays where it is: each call gets a record of its own, of an element and that value.
//!
//! `MapTasks` is the map tasks of a stage, as a crew takes them. Contracts see it as a `Work`
//! (specs/Work.antt): all that the tasks read, with what it asks (`CanWork`) and what is right for
//! a task to give (`IsWorkValue`). In a typed run of a plan the tasks of each stage can be made
//! (`map_tasks_law`, behind `stage_law` of `task_safety`). `list_of` borrows the list of a
//! collection, and `take_list` takes one of several lists away.
#![tactic(auto)]

mod beside;
mod filling;
mod joining;
mod laws;
mod legs;
mod lists;
mod moving;
mod reading;
mod send;
mod single;
mod takes;
mod tasks;

pub use forest_steps;
pub use laws::map_tasks_law;
pub use lists::list_of;
pub use moving::take_list;
pub use task_safety;
pub use tasks::MapTasks;
