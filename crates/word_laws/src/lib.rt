//! Laws on what words of a command line ask for.
//!
//! command_words says it by the matches that `clap` defines. `grammar_law` says it in plain words
//! (specs/Grammar.antt): the options of `run` and the script may come in any order
//! (specs/Parts.antt). `make_law` says which words of `make` are taken, and `cached_law` which of a
//! run that reuses what earlier ones have kept (specs/CachedWords.antt). Each run that such words
//! ask for, some words ask for without a cache (`plain_law`).
#![tactic(auto)]

mod laws;

pub use laws::{cached_law, grammar_law, make_law, plain_law};
