//! Tests of the texts of plans: plans that are made by hand, with their text and their JSON.
#![tactic(auto)]

#[cfg(test)]
mod called;
#[cfg(test)]
mod making;
#[cfg(test)]
mod objects;
#[cfg(test)]
mod texts;
