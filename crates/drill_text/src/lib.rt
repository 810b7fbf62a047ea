//! The texts of options: numbers, and the attempts that a run is to lose on purpose.
//!
//! `number_in` and `number_up_to` read a number of one to nine decimal digits, without a sign and
//! without leading zeros (specs/Numbers.antt). `drill_of` reads a drill: attempts in the form
//! STAGE(m|r)TASK.ATTEMPT, parted by commas, at most 64 and none of them twice
//! (specs/Drills.antt). `drill_law` says the same the other way round: a text spells a drill
//! exactly where it is the drill's text (specs/Spelled.antt).
#![tactic(auto)]

mod drill;
mod entry;
mod laws;
mod number;

pub use drill::drill_of;
pub use laws::drill_law;
pub use number::{number_in, number_up_to};
