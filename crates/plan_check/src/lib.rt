//! Plans from outside, checked.
//!
//! A file tells a plan and the rewrites that lead to it. `check_plan` makes the rewrites of a
//! graph, forms the plan of what they lead to, and takes it where its text is that of the file
//! (`IsChecked`, specs/Checked.antt). So whatever the file says, a plan that is taken is
//! well-formed, and means what the graph means. Each refusal has its cause, and of one file there
//! is one answer (`answer_law`).
#![tactic(auto)]

mod checking;
mod comparing;
mod fault;
mod forming;
mod laws;

pub use checking::check_plan;
pub use laws::answer_law;
pub use optimise;
pub use plan_faults::{PlanFault, PlanKind};
