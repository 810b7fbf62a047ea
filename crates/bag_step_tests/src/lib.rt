//! Tests of the steps over whole bags, of shards and of the parts that are shuffled: tables of
//! cases over public calls.
#![tactic(auto)]

#[cfg(test)]
mod tests;
