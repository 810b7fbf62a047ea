//! How a script is run: with how many workers, shards, partitions and tries, and which attempts are
//! lost on purpose.
//!
//! `Settings` holds what the options of a run say, within the limits that runs have: contracts see
//! it as a record of numbers and a drill (specs/Settings.antt), and its readers tell that each is
//! within its limits, so that nobody above tests them again. `Settings::standard` is what holds
//! where no option is given.
#![tactic(auto)]

mod limits;
mod settings;

pub use limits::{MOST_ENTRIES, MOST_PARTITIONS, MOST_SHARDS, MOST_TRIES, MOST_WORKERS};
pub use settings::Settings;
