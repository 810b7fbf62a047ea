//! The steps of a script over whole bags: `group`, `count`, `join` and `greatest`.
//!
//! A bag is handed over as the ascending list of its members. Each step is one pass over it that
//! sorts nothing and copies no member more than once, and what it gives is ascending again.
//!
//! What a step gives is a definition over the bag: `grouped`, `counted` with `counted_traps`,
//! `joined`, and `greatest`. They know no order of the members (`bags_law`), and give lists in
//! order, so that a step's result is the list of its own bag (`ascending_law`). `types_law` ties
//! them to types, as `keyed_steps::tables_law` does for groups.
#![tactic(auto)]

mod counts;
mod groups;
mod joins;
mod laws;
mod runs;
mod tops;

pub use counts::count;
pub use groups::group;
pub use joins::join;
pub use keyed_steps::combine_table;
pub use laws::{ascending_law, bags_law, types_law};
pub use tops::greatest;
