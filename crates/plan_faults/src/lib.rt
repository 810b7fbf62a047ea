//! Why a plan from outside is not taken: the kind of what is wrong, and the step at which it is
//! refused. What each kind means is said where plans are checked (plan_check).
#![tactic(auto)]

mod fault;

pub use fault::{PlanFault, PlanKind};
