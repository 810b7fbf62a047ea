//! Laws of the steps over whole bags: each is put together from groups, a combiner, and what is
//! done of each member.
//!
//! To count, put an int 1 under each member as its key, group, and add up (`count_law`). To
//! join, mark each value with its side, group both sides together, and split each group's list
//! by the marks (`join_law`). For the greatest members, put all under one key, group, and
//! combine (`top_law`); so all members come to one value, under any combiner (`whole_law`). What is
//! done of each member goes part by part (`parts_law`).
//!
//! Nothing here runs: the functions state what holds of definitions.
#![tactic(auto)]

mod laws;

pub use laws::{count_law, groups_law, join_law, parts_law, top_law, whole_law};
