//! The shards of a list.
//!
//! A list is shared out among tasks by ranges that differ by one element at most in length:
//! `shard` says which range a shard is, and `shard_of` borrows it. The shards one after another
//! are the list again (`shards_law`), so what is done with each element in the order of tasks and
//! of elements is done in the order of the list, however many shards there are.
//!
//! Lists by number stand one after another as `joined`, be it those of shards or of partitions.
//! Two lists have the same members, each as often, where each weight of members sums to the same
//! in both (`Alike` among the lemmas).
#![tactic(auto)]

mod laws;
mod ranges;

pub use laws::shards_law;
pub use ranges::{shard_of, shard_range};
