//! The phases of a stage, run by a crew over the lists that the stage finds.
//!
//! `map_outs` runs the map phase of a stage, and `reduce_outs` its reduce phase, where it has one.
//! Each gives the outs of its tasks, in order, and tells which attempts have won them; or it says
//! why it stopped: a task trapped, or no attempt of it has won. That the tasks can be made follows
//! from the types of the plan (`map_tasks_law` of `map_shard`, and `reduce_tasks_law` of
//! `reduce_part`).
#![tactic(auto)]

mod inputs;
mod map;
mod outs;
mod reduce;

pub use inputs::Inputs;
pub use map::map_outs;
pub use map_shard;
pub use map_shard::task_safety;
pub use reduce::reduce_outs;
pub use reduce_part;
