//! What a run that reuses kept results loads.
//!
//! A script is loaded as every script is, and with it what its statements are to keys, and their
//! texts (specs/Keyed.antt). So are the inputs that it needs, and with their rows the files that
//! have them (specs/Files.antt).
#![tactic(auto)]

mod inputs;
mod script;

pub use inputs::{KeyedInputs, keyed_inputs};
pub use script::{KeyedScript, keyed_script};
