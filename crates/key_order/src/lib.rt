//! The order of keys, mostly told by one number each.
//!
//! A sort of pairs compares two keys again and again, and to look at a key is to follow two
//! references. So a number of its key stands beside each pair: the place of the key's variant, and
//! behind it the first bits of an int or of a text (`key_number`). It never contradicts the order
//! of values (`number_law`), so the keys themselves are looked at only where two numbers are equal.
//!
//! A pair that is kept until it is grouped is a `Couple`: its key and its value stand in it, and in
//! no record of their own, and a value that is a side of an either stands there without its box.
//!
//! `group_numbered` sorts couples by these numbers alone. Those of one number mostly have one key;
//! then their values are copied out and sorted where they stand in a row, and else the couples are
//! sorted by key first. So it gives the very groups of bag_groups.
#![tactic(auto)]

mod couple;
mod groups;
mod laws;
mod mixed;
mod numbers;
mod sides;
mod sorting;

pub use couple::Couple;
pub use groups::group_numbered;
pub use laws::number_law;
pub use numbers::{first_eight, key_number};
