//! What definitions over bags say of lists whose members stand in any order.
//!
//! A bag is its ascending list, and `least`, `greatest`, `distinct` and `combined` of combine_table
//! are told of that list. Of the bag of any list the first two are its n least members and its n
//! greatest, the third has its members once each (`ends_law`), and combinations are what the words
//! of a combiner say of the list itself (`combined_law`). Where a definition takes the list of a
//! collection, that is the list of its bag (`lists_law`).
//!
//! Nothing here runs: the functions state what holds of definitions.
#![tactic(auto)]

mod ends;
mod lists;

pub use ends::{combined_law, ends_law};
pub use lists::lists_law;
