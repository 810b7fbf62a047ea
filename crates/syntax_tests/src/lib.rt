//! Tests of the tokens and the trees of scripts, as tables of cases over `tokens` and `parse`.
#![tactic(auto)]

#[cfg(test)]
mod cases;
