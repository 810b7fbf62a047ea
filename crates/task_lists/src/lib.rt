//! The tasks of a plan: which elements each has, and what it comes to.
//!
//! A plan means bags and traps (`exec_plan`), and knows no shard and no partition. A run makes
//! lists by tasks. A map task takes a shard of the list of an input channel, and a reduce task the
//! groups of a partition of a grouping channel (specs/Tasks.antt). On each element in order run the
//! steps of a forest, each root in order, and on each of its emissions in order each kid in order
//! (specs/Runs.antt). So each collection has a list: that of a result is what the tasks emit to it,
//! in order of tasks (specs/Lists.antt).
//!
//! `tasks_law` ties the tasks to the plan's meaning: however many shards and partitions there are,
//! the list of a collection has its bag, the tasks count the sizes of script nodes, and a task or
//! the making of an object traps exactly where the plan has a trap, the first of them being one of
//! the plan's (specs/Plans.antt). `numbers_law` and `first_law` say the same by the numbers of
//! tasks.
//!
//! A task of a channel beside an object has the object's value, and its steps are called beside it
//! (`world_for`). A stage that makes an object has no tasks: its one list is the object's value. Of
//! an object whose list is empty nothing is made (`empty_law`).
//!
//! Outs of map tasks (`IsMapOut`, specs/Outs.antt) may have accumulators in place of pairs.
//! `outs_law` says what is gathered of them: what the reduce tasks need.
//!
//! Where the plan's types fit, the elements of each task are of a type that its steps take
//! (`typed_law`, specs/Typing.antt).
#![tactic(auto)]

mod laws;

pub use laws::{empty_law, first_law, numbers_law, outs_law, tasks_law, typed_law};
