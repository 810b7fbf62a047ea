//! The two steps of a pipeline over whole tables: `group`, and then `combine`.
//!
//! `grouped` of bag_groups has one pair for each key, with the list of its values. `combine_each`
//! combines each list and stops at the first that traps, whose key it names. What the values come
//! to as a bag is `combined_each`, and which keys trap is `traps_of_each`: it meets both for any
//! pairs of a key and a list.
//!
//! `tables_law` ties the steps to types: where the pairs have the type of a table, so have their
//! groups, and the combiner takes them where it takes the type of their values. Then
//! `combine_each` gives a table again.
#![tactic(auto)]

mod fault;
mod laws;
mod parts;
mod steps;

pub use bag_groups;
pub use combine_table;
pub use fault::KeyFault;
pub use flume_value;
pub use laws::tables_law;
pub use steps::{combine_each, combine_group};
