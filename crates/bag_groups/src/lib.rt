//! Groups of a bag of pairs.
//!
//! A pair is the record of a key and a value, a member of a table. `grouped` says what its
//! groups are: for each key one pair of it and the list of its values, as often as the bag
//! has them. Keys rise, and so do the values of a key, so the groups are a bag's members in
//! order, and depend on nothing but the bag of the pairs (`groups_law`).
//!
//! `combined_each` says what pairs of a key and a list come to where each list is combined, by
//! a function of bags that may trap; `traps_of_each` names the keys where it traps.
#![tactic(auto)]

mod laws;
mod pairs;

pub use flume_value;
pub use laws::{combining_law, groups_law};
pub use pairs::{into_parts, key, pair, value};
