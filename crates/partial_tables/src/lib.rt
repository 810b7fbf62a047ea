//! Tables of accumulators by key: how pairs are combined in parts, key by key.
//!
//! `Partials` is a table with room for so many keys, in which the accumulators of a key are
//! merged. `Lifting` makes of pairs, one after another, accumulators that stand for them, by a
//! table that is emptied whenever it is full: a key may have several, and that is all that bounded
//! room costs. `lift_borrowed` does so of a list of pairs, and `merge_borrowed` merges any such
//! accumulators into one for each key. Both leave what they are given where it is.
//!
//! The pairs are so cut into runs, each with a table of its own: all but the last have as many keys
//! as there is room for, 1024, and lack the key of the next pair (`AreTables`, specs/Runs.antt).
//!
//! `StandFor` says what accumulators stand for. What stands for parts of the pairs stands together
//! for all of them, and is merged to the accumulators of the keys' values (`partials_law`). What
//! accumulators come to depends neither on the cut nor on the order of merging (`cuts_law`).
#![tactic(auto)]

mod entries;
mod laws;
mod lift;
mod merge;
mod table;

pub use laws::{cuts_law, partials_law};
pub use lift::{Lifting, lift_borrowed};
pub use merge::merge_borrowed;
pub use table::{AddFault, Partial, Partials};
