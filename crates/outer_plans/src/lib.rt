//! Plans from outside, as those of a script (specs/Plans.antt).
//!
//! `taken_plan` checks the bytes of a file under the names of a program: the plan that it tells, or
//! why it is refused (plan_check). `traced_plan` gives the script's own plan with rewrites that
//! lead to it (plan_tracing), and `rewrites_json` writes both as such a file, which is taken as
//! the line that is printed of it (`line_law`).
#![tactic(auto)]

mod checks;
mod laws;
mod taken;
mod texts;
mod traced;

pub use laws::line_law;
pub use plan_texts;
pub use plan_texts::graph_print;
pub use plan_tracing::Traced;
pub use script_plans;
pub use taken::taken_plan;
pub use texts::rewrites_json;
pub use traced::traced_plan;
