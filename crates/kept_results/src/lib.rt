//! What may be kept of a script's collections, and what is found of it.
//!
//! The collections that outputs read are asked for (specs/Asked.antt). What is kept of one are its
//! members, and the sizes of the collections that it rests on (specs/Kept.antt). `find_saved` finds
//! that under a key of a cache, and takes nothing else for it. Where some were found and a run has
//! counted the others, `sizes_told` has the sizes of all (specs/Sizes.antt), and `to_keep` is what
//! is kept of one that was not found.
//!
//! `given_lists` is what is given to the script in which what was found is kept (specs/Lists.antt).
#![tactic(auto)]

mod asked;
mod finding;
mod fitting;
mod keeping;
mod keyed;
mod law;
mod lists;
mod names;
mod nodes;
mod sizes;
mod typing;

pub use asked::asked_nodes;
pub use finding::{find_each, find_saved};
pub use keeping::{keep_each, kept_bytes};
pub use keyed::keyed_nodes;
pub use law::given_law;
pub use lists::{given_lists, input_numbers};
pub use nodes::{nodes_needed, rested_nodes};
pub use saved_meaning;
pub use sizes::{push_counted, push_kept, sizes_told, to_keep};
