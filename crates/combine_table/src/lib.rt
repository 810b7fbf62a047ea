//! The combiners: what a group's values come to, at once or in parts.
//!
//! The meaning is `combined`, a definition over a whole bag: it knows no order, no parts and
//! no accumulator. `combine` computes it from a list.
//!
//! Work that is shared out combines in parts. An accumulator is a value that stands for a
//! bag: `zero` for the empty one, `lift` for a bag of one value, and `merge` of two for the
//! sum of theirs. `finish` gives what the bag that an accumulator stands for is combined to.
//! So however a group's values are shared out, and in whatever order the parts are merged,
//! the end is the combination of the whole group, its trap included: that is `parts_law`,
//! and `merge_law` says that merging is associative and commutative with a unit.
#![tactic(auto)]

mod comb;
mod contents;
mod laws;
mod lists;
mod outcome;
mod partial;
mod whole;

pub use comb::Comb;
pub use flume_value;
pub use laws::{merge_law, parts_law, quotient_law, rows_law};
pub use partial::{finish, lift, merge, zero};
pub use whole::combine;
