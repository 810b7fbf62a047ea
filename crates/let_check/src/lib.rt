//! The rules of lets, carried out.
//!
//! `add_let` adds what a let names to what a script defines so far, or answers its first fault, and
//! `rule_repeat` a let with repeat: exactly as `specs/Rules.antt` of script_rules defines, each by
//! its rules in order. `room` and `fresh` are the rules that all definitions have.
//!
//! A repeat's body is checked once, behind the collections outside it and those that enter a turn.
//! Its turns are collections of the script, a copy of the body for each, as `specs/Repeats.antt` of
//! script_rules defines: a program knows no repeat.
#![tactic(auto)]

mod definitions;
mod lets;
mod renumbering;
mod repeats;
mod turns;

pub use definitions::{fresh, room};
pub use lets::add_let;
pub use repeats::rule_repeat;
