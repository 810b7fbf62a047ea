//! The texts of a call: its statuses, the line of each refusal, and the sizes of its collections.
#![tactic(auto)]

mod lines;
mod made;
mod sizes;
mod status;

pub use lines::{tell, tell_trap};
pub use made::made_line;
pub use sizes::push_size;
pub use status::{Place, Status};
