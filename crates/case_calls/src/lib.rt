//! The calls of worked cases of `flume` (`print_cases`): each is made over a world of the memory
//! forms, by a `Caller`, and what it leaves there is told.
//!
//! The call itself is the caller's, so that nothing here stands on `flume`. What is promised is
//! that a caller is handed sixteen hosts, and that all cases are made, safely.
#![tactic(auto)]

mod caches;
mod calls;
mod courses;
mod hosts;
mod meetings;
mod outcomes;
mod pages;
mod rooms;
mod worlds;

pub use pages::{Caller, Invocation, print_cases};
pub use worlds::World;
