//! The reducer of a lifted channel, key by key.
//!
//! What was gathered of a partition of a lifted channel are accumulators, which `merge_borrowed`
//! makes one a key, keys ascending. The root of the channel's reducer combines: what it answers of
//! a key's group is what the key's accumulator finishes as. So the groups themselves are never
//! made: `Keys` goes over the accumulators, finishes each, and runs the steps on the root's outputs
//! on what comes of it. Over all keys in order that is what the whole reducer does on the groups
//! in order (`keys_law`).
#![tactic(auto)]

mod finish;
mod keys;
mod laws;

pub use keys::Keys;
pub use laws::keys_law;
pub use task_lists;
