//! What map tasks give the channels of their stage, and what is gathered of it.
//!
//! A map task gives each output channel a list of values, or lists of pairs parted by the
//! partition of their keys, or for each partition accumulators that stand for its pairs
//! (`Sent`). `part` parts pairs by their keys alone, so that all pairs of a key are in one
//! partition (`parts_law`), and `combine_pairs` makes accumulators of each part. Where pairs come
//! a few at a time, `part_more` puts them behind those that were parted before, and `lift_more`
//! into accumulators, which `finish_each` gives in the end; they take pairs with a record and pairs
//! without one (`Paired`).
//!
//! A reduce task gathers its partition of all tasks, in order of tasks. Where each task gave what
//! was right, that is all pairs of the partition, or accumulators that stand for them
//! (`gathered_law`).
#![tactic(auto)]

mod combine;
mod gather;
mod laws;
mod out;
mod parts;

pub use combine::{Paired, combine_pairs, finish_each, lift_more, none_lifted};
pub use gather::{gather_pairs, gather_partials};
pub use laws::{gathered_law, parts_law};
pub use out::{MapOut, Sent};
pub use parts::{no_pairs, part, part_more};
