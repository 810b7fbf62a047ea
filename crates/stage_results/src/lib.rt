//! What the outs of a stage's tasks come to: its results, and the sizes of script nodes.
//!
//! `stage_lists` makes the results of the output channels, in order. A pass-through channel gives
//! what its map tasks gave it. A grouping channel gives for each output of its reducer the lists of
//! its partitions, one after another. All are moved, and the outs are dropped. The groups of reduce
//! tasks, and what their steps have counted, are added to the sizes of script nodes on the way;
//! `add_map_counts` adds what the steps of map tasks have counted.
#![tactic(auto)]

mod channel;
mod joining;
mod lists;
mod map_counts;
mod passed;

pub use lists::stage_lists;
pub use map_counts::add_map_counts;
pub use stage_phases;
pub use stage_phases::{map_shard, reduce_part, task_safety};
pub use step_counts;
