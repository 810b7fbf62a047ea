//! No default stands in for what is missing.
//!
//! Some definitions are total where what they read need not be there: `emissions` of an output that
//! an answer lacks, `pairs_of` and `groups_in` of members that are no pairs and no groups,
//! `int_or_zero` and `truth_of` of other values, `shown` of what is no cell, a number that another
//! is taken from, and names that go side by side with parts. Where it is there, just that is read
//! (`readings_law`). And it is there: in the direct meaning of each well-formed script
//! (`script_law`), in the meaning of each graph whose types fit (`graph_law`), and in the tree of
//! each accepted script (`records_law`).
//!
//! Nothing here runs: the functions state what holds of definitions.
#![tactic(auto)]

mod graphs;
mod readings;
mod records;
mod scripts;

pub use graphs::graph_law;
pub use readings::readings_law;
pub use records::records_law;
pub use scripts::script_law;
