//! Tests of the combiners, of pairs and of the keyed steps: tables of cases over public calls. No
//! value is held where a test may end.
#![tactic(auto)]

#[cfg(test)]
mod tests;
