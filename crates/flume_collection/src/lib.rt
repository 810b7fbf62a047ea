//! Collections as runs see them: a bag of members, and the set of the traps behind it.
//!
//! A call of a step on an element gives one list of emissions for each output, or it traps
//! (`Called`). `passed` says what the calls on all members of a collection give, and `by_key` what
//! the groups of a collection of pairs are. Collections `together` are one; calls go over them one
//! by one (`passed_law`).
//!
//! A `Trap` names the script node that the call is of, the element, and the kind. A set of traps
//! is seen as the ascending list of its members, each once (`trap_set`), so two sets are equal
//! where these lists are (`trap_law`); its first is the least of the traps (`least_law`).
#![tactic(auto)]

mod laws;
mod trap;

pub use flume_value;
pub use laws::{least_law, passed_law, trap_law};
pub use trap::{Trap, trap_set};
