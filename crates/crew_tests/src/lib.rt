//! Tests of the claim board and of the crew, by their public calls alone.
#![tactic(auto)]

#[cfg(test)]
mod board;
#[cfg(test)]
mod meeting;
#[cfg(test)]
mod phases;
#[cfg(test)]
mod tasks;
