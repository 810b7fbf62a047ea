//! What the steps of tasks count, added to the sizes of script nodes.
//!
//! A task counts for each output of each of its steps, in preorder, how many elements it gave. An
//! output that is the last of its script node is that node's own bag, so its counts make the node's
//! size. `Owners` says of the outputs of a channel's steps whose own bags they are; it is made once
//! a channel, and `add_steps` adds by it what a task has counted. `add_groups` adds the groups of a
//! reduce task, and `add_object` the member of an object. Sizes stop at the last value of a u64
//! (`HaveGrown`, specs/Sizes.antt).
#![tactic(auto)]

mod groups;
mod objects;
mod owners;
mod sizes;

pub use groups::add_groups;
pub use objects::add_object;
pub use owners::Owners;
